//! Reading: what stands at the front of bytes, and the bytes behind it.

mod flat;
mod kind;
mod oid;
mod parts;
mod slots;
mod tid;
mod value;
mod value_prefix;

pub use kind::read_kind;
pub use oid::read_oid;
pub use parts::{byte as read_byte, two_bytes as read_two_bytes};
pub use tid::read_tid;
pub use value::value_within as read_value_within;
pub use value_prefix::read_value;
