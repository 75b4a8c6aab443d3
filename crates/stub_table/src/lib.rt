//! The stubs of an endpoint: which of its own pairs the peer was sent, and has not released as often.
#![tactic(auto)]

mod error;
mod stub_table;
mod threads;

pub use error::Unowed;
pub use pair_map::Faces;
pub use stub_table::StubTable;
pub use table_model::Stub;
