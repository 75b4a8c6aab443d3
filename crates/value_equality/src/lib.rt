//! Whether values are equal, each part of them; and variables, and methods with what they have.
#![tactic(auto)]

mod frames;
mod values;

pub use frames::{same_body, same_variable, same_variables};
pub use values::same_value;
