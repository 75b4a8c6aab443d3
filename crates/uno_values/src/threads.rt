//! Values and references may be sent to another thread, and threads may share them.

use crate::{AnyValue, Reference, Value};

/// No call needs it: the check refuses it where one of them may not be sent or not be shared.
fn may_go_between_threads(value: &Value, any: &AnyValue, reference: &Reference) {
    sent(value);
    sent(any);
    sent(reference);
    shared(value);
    shared(any);
    shared(reference);
}

fn sent<T: Send>(_: &T) {}

fn shared<T: Sync>(_: &T) {}
