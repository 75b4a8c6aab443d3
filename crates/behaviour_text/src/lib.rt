//! The plan that a text says, or the first line of it that is wrong and why.
#![tactic(auto)]

mod building;
mod error;
mod limits;
mod new_names;
mod offers;
mod places;
mod read;
mod step;
mod variables;

pub use error::PlanError;
pub use read::read_plan;
