//! The side of an end of a bridge in code: what each entry of a journal does to it, and what it tells. It knows nothing of the journal itself.
#![tactic(auto)]

mod applying;
mod asking;
mod fields;
mod going;
mod hearing;
mod holding;
mod picking;
mod receiving;
mod refusing;
mod roots;
mod state;
mod telling;
mod threads;

pub use hearing::{Break, Fed, Trace};
pub use state::State;
pub use telling::{Counts, RootState};
