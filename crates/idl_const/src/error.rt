//! Why an expression has no value.

use thiserror::Error;

/// Why an expression has no value.
#[derive(Clone, Copy, Debug, PartialEq, Eq, Error)]
pub enum ConstError {
    #[error("no memory")]
    NoMemory,
    /// A value past 128 bits, or a shift by less than 0 or more than 63.
    #[error("out of range")]
    Range,
    #[error("a division by 0")]
    ZeroDivisor,
    /// A name that has no value.
    #[error("a name without a value")]
    UnknownName,
}
