//! What the tables of an endpoint hold, as plain lists, and the laws of these lists.
#![tactic(auto)]

mod holder;
mod stub;

pub use holder::Holder;
pub use stub::Stub;
