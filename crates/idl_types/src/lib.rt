//! What typedefs of UNOIDL stand for, by the numbers of their paths.
#![tactic(auto)]

mod ends;
mod steps;

pub use ends::typedef_ends;
