//! What may be sent to threads.

use crate::Objects;

fn may_go_between_threads(objects: &Objects) {
    sent(objects);
    shared(objects);
}

fn sent<T: Send>(_: &T) {}

fn shared<T: Sync>(_: &T) {}
