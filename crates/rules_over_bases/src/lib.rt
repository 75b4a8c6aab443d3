//! The rules of a registry that look over bases: of each, the first entity that breaks it.
#![tactic(auto)]

mod forest;
mod member;
mod named;
mod over;
mod own;
mod seen;
mod standing;
mod trail;
mod twins;
mod walk;
mod whole;

pub use forest::bases_first;
pub use member::{carrying_base, has_member, needs_base};
pub use standing::{Standing, standing_of};
pub use twins::first_with_twins;
pub use whole::first_not_whole;
