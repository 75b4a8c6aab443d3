//! Canonical UNOIDL of a registry.
#![tactic(auto)]

mod canonical;
mod entity;
mod interface;
mod service;
mod token;
mod value;

pub use canonical::print;
