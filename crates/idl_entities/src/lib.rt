//! The entity that a declaration of UNOIDL means, where its names, types and numbers are told.
#![tactic(auto)]

mod entity;
mod fields;
mod flags;
mod interface;
mod laws;
mod meanings;
mod names;
mod numbers;
mod service;

pub use entity::entity_of;
pub use laws::what_is_kept_the_same_is_meant;
pub use meanings::Meanings;
