//! Why a message is not read.

use urp_wire::Reason;

/// Memory ran out, or the bytes break the protocol, by the first reason in the order of reading.
#[derive(Clone, Copy, Debug, PartialEq, Eq)]
pub enum ReadError {
    NoMemory,
    Broken(Reason),
}
