//! The caches may be sent to another thread, and threads may share them.

use crate::{ReadCaches, SendCaches};

/// No call needs it: the check refuses it where one of them may not be sent or not be shared.
fn may_go_between_threads(reads: &ReadCaches, sends: &SendCaches) {
    sent(reads);
    sent(sends);
    shared(reads);
    shared(sends);
}

fn sent<T: Send>(_: &T) {}

fn shared<T: Sync>(_: &T) {}
