//! The variables of frames: which a method begins with, and what statements and answers do to them.
#![tactic(auto)]

mod answers;
mod first;
mod given;
mod queries;
mod variables;

pub use answers::take_answer;
pub use first::first_variables;
pub use given::Given;
pub use queries::{Found, sort_answer, take_reference};
pub use variables::add;
