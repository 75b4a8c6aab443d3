//! The refusals, which hand back what was given.
use crate::book::Book;
use crate::view::Pass;

/// There was no memory for a lock.
#[derive(Drop)]
pub struct NoLock<B> {
    pub book: B,
}

/// Other passes are out.
#[derive(Drop)]
pub struct StillOut<B: Book> {
    pub pass: Pass<B>,
    /// How many passes are out, with this one.
    pub passes: u64,
}
