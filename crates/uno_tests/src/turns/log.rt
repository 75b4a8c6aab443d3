//! A book for the tests: a list of items, each with the thread and the turn that added it.
ghost use Rattle.std.specs.Prelude.{◌≡◌};
ghost use Rattle.turn_book.specs.History.{GrowsByOne};
ghost use Rattle.turn_book.specs.Passes.{own, room, Rests};

use std::alloc::{AllocError, Global};
use std::sync::Wait;
use turn_book::{Book, Pass, TurnLock};

/// What one turn adds.
#[derive(Clone, Copy)]
pub struct Item {
    pub thread: usize,
    pub turn: u32,
}

#[derive(Drop)]
pub struct Log {
    pub items: Vec<Item>,
}

impl Log {
    pub fn with_room(alloc: Global, room: usize) -> Result<Log, AllocError> {
        let items = Vec::with_capacity(alloc, room)?;
        Ok(Log { items })
    }

    /// Adds the item, if there is room.
    pub fn add(&mut self, item: Item)
        ensures { GrowsByOne self.old.items.items self.new.items.items }
    {
        self.items.push(item).ok();
    }
}

impl Book for Log {
    type Item = Item;

    type Fixed = ();

    ghost items = { λ log. log.items.items };

    ghost fixed = { λ _. tt };

    fn count(&self) -> u64 {
        self.items.len() as u64
    }
}

/// A turn that adds an item.
pub fn add_one<R: Wait>(rt: &R, lock: &TurnLock<Log>, pass: &mut Pass<Log>, item: Item)
    requires { Rests (λ _. tt) lock.now.table.shared pass.old }
    ensures rests { Rests (λ _. tt) lock.now.table.shared pass.new }
    ensures room { room pass.new ≡ room pass.old }
{
    let mut turn = lock.enter(rt, pass);
    turn.book().add(item);
    lock.leave(turn, pass);
}

/// A turn that adds nothing: the pass owns what it owned.
pub fn add_none<R: Wait>(rt: &R, lock: &TurnLock<Log>, pass: &mut Pass<Log>)
    requires { Rests (λ _. tt) lock.now.table.shared pass.old }
    ensures { own pass.new ≡ own pass.old }
{
    let turn = lock.enter(rt, pass);
    lock.leave(turn, pass);
}
