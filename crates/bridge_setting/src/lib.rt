//! What one end of a bridge is set up with, the names that it gives, and what these tell of values that came.
#![tactic(auto)]

mod home;
mod names;
mod setting;
mod supporting;
mod threads;

pub use home::{home_answer, home_each, told};
pub use names::Names;
pub use setting::Setting;
pub use supporting::{MANAGER, exported, first_objects, has_offers, is_base_of, supports};
