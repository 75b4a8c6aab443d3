//! A journal may be sent to another thread, and threads may share it.

use crate::Journal;

/// No call needs it: the check refuses it where a journal may not be sent or not be shared.
fn journals_may_go_between_threads(journal: &Journal) {
    crosses(journal);
}

fn crosses<T: Send + Sync>(_: &T) {}
