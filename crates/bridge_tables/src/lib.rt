//! The tables of an end of a bridge: objects, who holds which pair, stubs, proxies, roots, and the messages that are said.
#![tactic(auto)]

mod answering;
mod counting;
mod covering;
mod fields;
mod objects;
mod referring;
mod roots;
mod saying;
mod tables;
mod values;

pub use objects::fields_of;
pub use roots::{Outcome, Root};
pub use tables::Tables;
pub use values::{refs_of_answer, refs_of_values};
