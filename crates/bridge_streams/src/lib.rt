//! The bytes that come in and go out of one end of a bridge.
#![tactic(auto)]

mod incoming;
mod outgoing;
mod ready;
mod taken;
mod threads;
mod unsaid;
mod waiting;

pub use incoming::Incoming;
pub use outgoing::Outgoing;
pub use taken::Taken;
pub use unsaid::Unsaid;
pub use waiting::Waiting;
