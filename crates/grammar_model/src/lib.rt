//! Grammars of tokens, as relations and as readings that look one token ahead, and the laws that hold of both.
#![tactic(auto)]

mod fault;
mod grammar;
mod laws;

pub use fault::{Fault, Why};
pub use grammar::Grammar;
pub use laws::what_is_read_is_the_verdict;
