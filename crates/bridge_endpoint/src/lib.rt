//! One end of a bridge: what it is set up with, its journal, and the calls that add an entry to it.
#![tactic(auto)]

mod answers;
mod applying;
mod beginning;
mod draining;
mod endpoint;
mod entering;
mod feeding;
mod making;
mod refusing;
mod telling;
mod threads;

pub use answers::{ApplyError, Begun, Fed, Made};
pub use bridge_journal::Entry;
pub use bridge_objects::NotHeld;
pub use bridge_state::{Counts, RootState};
pub use bridge_tables::Outcome;
pub use endpoint::Endpoint;
