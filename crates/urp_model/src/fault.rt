//! Why bytes are not read.

use crate::Reason;

/// The next part is not whole, or a whole part breaks the protocol.
#[derive(Clone, Copy, Debug, PartialEq, Eq)]
pub enum Fault {
    Short,
    Bad(Reason),
}
