//! A state may be sent to another thread.

use crate::State;

/// No call needs it: the check refuses it where a state may not be sent.
fn states_may_be_sent(state: &State) {
    sent(state);
}

fn sent<T: Send>(_: &T) {}
