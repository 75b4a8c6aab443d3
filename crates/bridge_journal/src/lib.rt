//! The journal of one end of a bridge: an entry for each call that changed something, in their order.
#![tactic(auto)]

mod entry;
mod journal;
mod threads;

pub use entry::Entry;
pub use journal::Journal;
