//! An order of the nodes of a graph in which each stands behind those to which it leads.
#![tactic(auto)]

mod order;
mod walk;

pub use order::ends_first;
