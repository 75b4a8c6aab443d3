//! Literals: the text of a value, and the value of a text.
#![tactic(auto)]

mod laws;
mod print;

pub use laws::a_printed_value_is_read_back;
pub use literal_model::printed_is_read_back;
pub use literal_reading::{TextError, read_value};
pub use print::{print_value, push_any, push_value};
