//! What the entities of a registry must keep: each rule is a test of one entity, or of all of them.
#![tactic(auto)]

mod allowed;
mod bases;
mod circles;
mod complete;
mod differ;
mod known;
mod limits;
mod member;
mod names;
mod raises;
mod services;
mod sound;
mod there;
mod types;

pub use allowed::types_allowed;
pub use bases::bases_known;
pub use circles::has_no_circles;
pub use complete::is_complete;
pub use differ::items_differ;
pub use known::{kind_known, types_known};
pub use limits::is_within_limits;
pub use member::{all_have_members, has_near_member};
pub use names::is_named;
pub use raises::raises_known;
pub use services::services_known;
pub use sound::is_sound;
pub use there::{Wanted, is_there};
