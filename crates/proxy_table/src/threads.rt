//! What may be sent to threads.

use crate::ProxyTable;

fn may_go_between_threads(table: &ProxyTable) {
    sent(table);
    shared(table);
}

fn sent<T: Send>(_: &T) {}

fn shared<T: Sync>(_: &T) {}
