//! Variables by their names: those of frames, and those of threads, of which there may be very many.
#![tactic(auto)]

mod thread;
mod variables;

pub use thread::ThreadVariables;
pub use variables::{put, take_out};
