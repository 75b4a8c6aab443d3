//! Bytes on their way: what one side put in and the other did not take, in a ring that doubles.
#![tactic(auto)]

mod pipe;

pub use pipe::Pipe;
