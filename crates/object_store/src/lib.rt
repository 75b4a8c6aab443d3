//! The objects of an endpoint: each living one by its number, with its fields, and which of them may go.
#![tactic(auto)]

mod object;
mod objects;
mod store;
mod threads;

pub use store::{ObjectStore, Store};
