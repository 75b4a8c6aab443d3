//! Where a text goes wrong.

/// No text of the grammar goes on so, or each one that does breaks a limit on how deep it is nested.
#[derive(Clone, Copy, Debug, PartialEq, Eq)]
pub enum Why {
    Unexpected,
    Nested,
}

/// The reason, and how many tokens are left from the wrong one on: 0 where the text ends too early.
#[derive(Clone, Copy, Debug, PartialEq, Eq)]
pub struct Fault {
    pub why: Why,
    pub left: usize,
}
