//! What may be sent to threads.

use crate::Stacks;

fn may_go_between_threads(stacks: &Stacks) {
    sent(stacks);
    shared(stacks);
}

fn sent<T: Send>(_: &T) {}

fn shared<T: Sync>(_: &T) {}
