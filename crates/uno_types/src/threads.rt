//! Registries may be sent to another thread, and threads may share them.

use crate::Registry;

/// No call needs it: the check refuses it where a registry may not be sent or not be shared.
fn may_go_between_threads(registry: &Registry) {
    crosses(registry);
}

fn crosses<T: Send + Sync>(_: &T) {}
