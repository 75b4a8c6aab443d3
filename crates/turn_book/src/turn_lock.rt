//! The lock, as it lies in memory.
ghost use Rattle.std.specs.Prelude.{◌≡◌};

use crate::book::Book;
use crate::view::{Turns, View};
use atomic_table::Table;
use std::alloc::Global;
use std::snapshot::Snapshot;

mod calls;

/// The words of the table: passes that are out, tickets drawn, the ticket whose turn it is, items, and passes ever made.
const OUT: usize = 0;

const DRAWN: usize = 1;

const SERVED: usize = 2;

const ITEMS: usize = 3;

const MADE: usize = 4;

/// The slot of the book.
const BOOK: usize = 0;

/// A lock round a book.
#[derive(Drop)]
pub struct TurnLock<B: Book> {
    table: Table<Option<B>, View<B::Item, B::Fixed>, Snapshot<B>, Turns, Global>,
    ghost sized: { (table.shared.table_id.words ≡ 5) × (table.shared.table_id.slots ≡ 1) },
}
