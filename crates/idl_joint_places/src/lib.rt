//! Where declarations of UNOIDL break the rules that look at more than one of them.
#![tactic(auto)]

mod circles;
mod found;
mod limits;
mod ranks;

pub use circles::least_on_circles;
pub use limits::add_past_limits;
