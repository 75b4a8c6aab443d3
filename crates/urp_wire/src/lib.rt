//! Values as the bytes that go over the wire, and back.
#![tactic(auto)]

mod error;
mod kind;
mod name;
mod parts;
mod read;
mod sending;
mod value;

pub use error::WireError;
pub use kind::{write_interface, write_kind};
pub use name::{write_oid, write_tid};
pub use read::{
    read_byte, read_kind, read_oid, read_tid, read_two_bytes, read_value, read_value_within,
};
pub use sending::write_value;
pub use urp_model::Reason;
pub use value::{put_all as write_values, put_any as write_any, put_value as write_single};
