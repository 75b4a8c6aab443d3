//! Functions may be sent to another thread, and threads may share them.

use crate::{Function, FunctionRef};

/// No call needs it: the check refuses it where one of them may not be sent or not be shared.
fn may_go_between_threads(function: &Function, lent: &FunctionRef) {
    sent(function);
    shared(function);
    sent(lent);
    shared(lent);
}

fn sent<T: Send>(_: &T) {}

fn shared<T: Sync>(_: &T) {}
