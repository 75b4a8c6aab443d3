//! The values of expressions: whole numbers of 128 bits.
#![tactic(auto)]

mod apply;
mod error;
mod evaluating;
mod values;

pub use error::ConstError;
pub use evaluating::evaluate;
pub use values::Values;
