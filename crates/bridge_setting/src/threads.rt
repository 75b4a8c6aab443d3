//! Names may be sent to another thread, and threads may share them.

use crate::Names;

/// No call needs it: the check refuses it where names may not be sent or not be shared.
fn names_may_go_between_threads(names: &Names) {
    crosses(names);
}

fn crosses<T: Send + Sync>(_: &T) {}
