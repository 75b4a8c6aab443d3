//! A set of births that finds its first member from a place on in a few steps.
#![tactic(auto)]

mod birth_index;
mod words;

pub use birth_index::BirthIndex;
