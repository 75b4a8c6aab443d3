//! The ends of a bridge as one value: an endpoint, or later two of them joined; and the moves of their roots, which are calls of such a value.
#![tactic(auto)]

mod asking;
mod beginning;
mod ends;
mod giving;
mod making;
mod moved;
mod naming;
mod saying;
mod side;
mod stepping;
mod taking;

pub use ends::Ends;
pub use giving::{X_INTERFACE, may_ask, may_call, may_make, may_query};
pub use moved::RootMoved;
pub use side::Side;
pub use stepping::root_step;
