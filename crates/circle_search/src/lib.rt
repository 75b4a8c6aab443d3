//! The first node of a graph that is on a circle, found by one search in depth that is never recursive.
#![tactic(auto)]

mod graph;
mod group;
mod mark;
mod search;
mod trail;

pub use graph::Graph;
pub use search::{first_on_circle, has_no_circle};
