//! The compiler of UNOIDL: files to a registry, or the one refusal that counts.
#![tactic(auto)]

mod error;
mod files;
mod reading;

pub use error::{CompileError, Reason};
pub use files::compile;
