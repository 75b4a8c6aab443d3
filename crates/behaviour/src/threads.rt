//! Effects and roots may be sent to another thread, and threads may share them.

use crate::{Done, Effect, RootRun};

/// No call needs it: the check refuses it where one of them may not be sent or not be shared.
fn effects_may_go_between_threads(effect: &Effect) {
    crosses(effect);
}

/// The same of jobs with their effects, and of roots.
fn runs_may_go_between_threads(done: &Done, root: &RootRun) {
    crosses(done);
    crosses(root);
}

fn crosses<T: Send + Sync>(_: &T) {}
