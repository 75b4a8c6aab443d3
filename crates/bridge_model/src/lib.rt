//! An end of a bridge as definitions over plain lists and trees: what it is, and what each entry of its journal does.
#![tactic(auto)]

mod cause;
mod input_end;

pub use cause::Cause;
pub use input_end::InputEnd;
