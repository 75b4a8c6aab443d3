//! How a `when` compares.

/// Whether a `when` asks that two values are equal, or that the first number is less.
#[derive(Clone, Copy, Debug, PartialEq, Eq)]
pub enum Comparison {
    Equal,
    Less,
}
