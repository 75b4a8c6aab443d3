//! The environment of an endpoint: who holds which pair, and how often.
#![tactic(auto)]

mod environment;
mod error;
mod holders;
mod part;
mod rows;
mod threads;
mod times;

pub use environment::Environment;
pub use error::NotHeld;
pub use table_model::Holder;
