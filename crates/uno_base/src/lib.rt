//! What every other crate shares: want of memory as a refusal, and the words on counts of faults.
#![tactic(auto)]

mod no_memory;

pub use no_memory::NoMemory;
