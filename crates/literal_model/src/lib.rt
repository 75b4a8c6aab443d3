//! What the literals of values are and what comes of a text that is read as one, as definitions over plain lists and trees, and the laws that hold of them.
#![tactic(auto)]

mod laws;

pub use laws::printed_is_read_back;
