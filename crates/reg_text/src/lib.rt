//! The text of a registry, written.
#![tactic(auto)]

mod flags;
mod line;
mod members;
mod parts;
mod properties;
mod write;

pub use flags::flag_words;
pub use write::{is_built_in_name, write_registry};
