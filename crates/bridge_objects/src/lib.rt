//! The objects of an end of a bridge, who holds which pair, the stubs, and which objects may go.
#![tactic(auto)]

mod calling;
mod marks;
mod naming;
mod objects;
mod threads;

pub use env_table::NotHeld;
pub use objects::Objects;
pub use stub_table::Unowed;
pub use table_model::Holder;
