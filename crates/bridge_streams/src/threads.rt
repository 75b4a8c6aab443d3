//! What may be sent to threads.

use crate::{Incoming, Outgoing, Unsaid};

fn may_go_between_threads(incoming: &Incoming, outgoing: &Outgoing, unsaid: &Unsaid) {
    sent(incoming);
    shared(incoming);
    sent(outgoing);
    shared(outgoing);
    sent(unsaid);
    shared(unsaid);
}

fn sent<T: Send>(_: &T) {}

fn shared<T: Sync>(_: &T) {}
