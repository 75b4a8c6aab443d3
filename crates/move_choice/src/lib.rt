//! Of what may be done next at an end of a pair: how much there is of each kind, and which is at a place.
#![tactic(auto)]

mod choices;

pub use choices::{Choices, Deed};
