//! What a root's step comes to.

/// What became of a root's step.
#[derive(Clone, Copy, Debug, PartialEq, Eq)]
pub enum RootMoved {
    /// It let one reference go, or began a statement, or was done with one.
    Moved,
    /// It waits for an answer.
    Waiting,
    /// No statement is left, and nothing to let go.
    Finished,
    NoMemory,
}
