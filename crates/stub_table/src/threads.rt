//! What may be sent to threads.

use crate::StubTable;

fn may_go_between_threads(table: &StubTable) {
    sent(table);
    shared(table);
}

fn sent<T: Send>(_: &T) {}

fn shared<T: Sync>(_: &T) {}
