//! The stacks of frames of an endpoint: those of each chain of calls, in the order in which they began.
#![tactic(auto)]

mod births;
mod by_birth;
mod error;
mod stack;
mod stacks;
mod threads;
mod tops;

pub use error::NobodyWaits;
pub use stacks::Stacks;
