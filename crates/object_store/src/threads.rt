//! What may be sent to threads.

use crate::ObjectStore;

fn may_go_between_threads(store: &ObjectStore) {
    sent(store);
    shared(store);
}

fn sent<T: Send>(_: &T) {}

fn shared<T: Sync>(_: &T) {}
