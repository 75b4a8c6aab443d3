//! Which entities of a registry are whole and within the limits, all of them told at once.
#![tactic(auto)]

mod bare;
mod wholes;

pub use wholes::{is_marked, which_are_whole};
