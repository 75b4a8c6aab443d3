//! Why a statement raises a RuntimeException of its own.

/// What a statement met, in the order in which it is tried.
#[derive(Clone, Copy, Debug, PartialEq, Eq)]
pub enum RuntimeCause {
    /// A call or a query on null.
    Null,
    /// The result of an operation is none of its type.
    Range,
    /// A call or a query while the stack has as many frames as it may.
    Depth,
    /// A value or a message weighs more than a block may.
    TooLarge,
    /// A value is nested deeper than it may be.
    TooDeep,
}
