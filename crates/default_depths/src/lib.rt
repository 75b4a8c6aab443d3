//! Whether the defaults that are made of the types of a registry are nested at most 1,024 deep.
#![tactic(auto)]

mod nested;
mod shallow;
mod table;

pub use shallow::are_defaults_shallow;
