//! Where names of UNOIDL repeat in a declaration and over its bases.
#![tactic(auto)]

mod bases;
mod chain;
mod least;
mod lists;
mod over;
mod own;
mod owners;
mod repeated;
mod twins;
mod walk;
mod way;

pub use repeated::repeated_names;
