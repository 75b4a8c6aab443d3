//! The registry of a text.
#![tactic(auto)]

mod body;
mod error;
mod fields;
mod guesses;
mod head;
mod header;
mod heads;
mod interface;
mod judge;
mod kind;
mod last;
mod lines;
mod names;
mod number;
mod pushing;
mod read;
mod reader;
mod service;
mod words;

pub use error::RegError;
pub use read::read_registry;
