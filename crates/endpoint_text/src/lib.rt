//! An endpoint by the texts of its registry and its plan.
#![tactic(auto)]

mod endpoints;

pub use behaviour_text::PlanError;
pub use endpoints::{know_names, set_up};
pub use registry_reading::{RegError, read_registry};
