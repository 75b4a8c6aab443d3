//! The least rank of a node on a circle.
#![tactic(auto)]

mod least;
mod node;
mod renumbering;

pub use least::least_on_circle;
pub use node::Node;
