//! Where chains of steps end, each followed once.
#![tactic(auto)]

mod chains;
mod step;

pub use chains::chain_ends;
pub use step::{End, Step};
