//! The reasons for which a line of a plan is wrong.

/// Why a line is wrong, in the order in which the reasons of one line count.
#[derive(Clone, Copy, Debug, PartialEq, Eq)]
pub enum LineReason {
    /// The line has none of the forms of a line, or not one that may stand there.
    Form,
    /// A name in it is that of nothing.
    Unknown,
    /// A name that it declares is declared already.
    Twice,
    /// A value, a variable or a behaviour does not fit its place.
    Misfit,
    /// There are too many of its kind, or it is nested too deep.
    Limit,
    /// The plan ends, and a block is not closed.
    Open,
}
