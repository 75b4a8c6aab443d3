//! What a pass knows, and the rule of the lock.
use crate::book::Book;
use atomic_table::{Seat, TableRule};
use std::collections::LinkedList;
use std::snapshot::Snapshot;

/// Where a pass is between its steps.
pub enum Stage {
    Idle,
    /// It has drawn this ticket.
    Waits(u64),
    /// It has the turn, and the book is out with it.
    Turns(u64),
    /// It has the turn, and the items are recorded.
    Recorded(u64),
    /// It has this number for a new pass.
    Numbered(u64),
    /// The same, and the new pass is counted.
    Counted(u64),
    /// It has taken in another pass, which is still counted.
    Joined,
}

/// What a pass knows. No value of it is made.
pub struct View<I, F> {
    pub fixed: Option<F>,
    pub seen: LinkedList<I>,
    pub own: LinkedList<(u64, LinkedList<I>)>,
    pub room: u64,
    pub stage: Stage,
}

/// A right to enter the lock, with what was seen there. It has no bytes.
pub type Pass<B> = Seat<Option<B>, View<<B as Book>::Item, <B as Book>::Fixed>>;

/// The rule of the lock. The key is the book as it was given.
pub struct Turns;

impl<B: Book> TableRule<Option<B>, View<B::Item, B::Fixed>, Snapshot<B>> for Turns {
    ghost use Rattle.turn_book.specs.Ruled.{Ruled, opened};

    ghost holds = { λ k. Ruled B.items B.fixed (B.fixed k.value) };

    ghost first = { λ k. opened (B.items k.value) (B.fixed k.value) };
}
