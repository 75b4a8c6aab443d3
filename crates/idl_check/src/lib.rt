//! The numbered rules, and the registry of files that keep them.
#![tactic(auto)]

mod each;
mod error;
mod files;
mod judge;
mod registry;

pub use error::CheckError;
pub use files::check;
