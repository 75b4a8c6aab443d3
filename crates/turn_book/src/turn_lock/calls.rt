//! The calls of a lock.
ghost use Rattle.std.specs.Prelude.{◌≡◌, ℕ, ◌+◌, ◌<◌, ◌≤◌, [], ◌∷◌, ◌++◌, length, drop, Some, IfOk, IfErr};
ghost use Rattle.turn_book.specs.History.{StartsWith, GrowsByOne, Stands, Whole, longer, times};
ghost use Rattle.turn_book.specs.Steps.{grown};
ghost use Rattle.turn_book.specs.Passes.{seen, own, numbers, room, Rests, HasTurn};

use super::{BOOK, DRAWN, ITEMS, MADE, OUT, SERVED, TurnLock};
use crate::book::Book;
use crate::plays::{Ask, CountDown, CountUp, Cut, Draw, Look, Number, PassOn, Record, TakeIn};
use crate::refused::{NoLock, StillOut};
use crate::turn::Turn;
use crate::view::Pass;
use atomic_table::{Refused, Table};
use std::alloc::{AllocFailed, Global};
use std::hint;
use std::snapshot::Snapshot;
use std::sync::Wait;

/// How often a pass looks before it sleeps between its looks.
const LOOKS: u32 = 64;

// The one value in here.
fn only<B>(mut slots: Vec<Option<B>>) -> B
    requires { (b : B) × (slots.items ≡ Some b ∷ []) }
    ensures { slots.items ≡ Some result ∷ [] }
{
    let Some(Some(book)) = slots.pop() else {
        unreachable!()
    };
    slots.destroy_empty();
    book
}

impl<B: Book> TurnLock<B> {
    /// A lock round the book, and its first pass, which has seen and made all items.
    pub fn new(alloc: Global, book: B) -> Result<(TurnLock<B>, Pass<B>), NoLock<B>>
        ensures pass { IfOk result (λ r. Rests B.fixed r.0.table.shared r.1) }
        ensures book { IfOk result (λ r. r.0.table.shared.key.value ≡ book) }
        ensures seen { IfOk result (λ r. seen r.1 ≡ B.items book) }
        ensures own { IfOk result (λ r. own r.1 ≡ (0, B.items book) ∷ []) }
        ensures room { IfOk result (λ r. room r.1 ≡ 65536) }
        ensures err { IfErr result (λ e. e.book ≡ book) }
    {
        let count = book.count();
        let given = Snapshot::of(&book);
        let mut slots = Vec::new(alloc);
        if let Err(failed) = slots.push(Some(book)) {
            let AllocFailed { value } = failed;
            let Some(book) = value else { unreachable!() };
            slots.destroy_empty();
            return Err(NoLock { book });
        }
        match Table::new(alloc, &[1, 0, 0, count, 1], slots, &given) {
            Ok((table, pass)) => Ok((TurnLock { table }, pass)),
            Err(refused) => {
                let Refused { slots } = refused;
                Err(NoLock { book: only(slots) })
            }
        }
    }

    /// A pass with a number of its own, which has seen what this pass has seen, and owns nothing.
    pub fn split(&self, pass: &mut Pass<B>) -> Pass<B>
        requires pass { Rests B.fixed self.now.table.shared pass.old }
        requires room { 0 < room pass.old }
        ensures pass { Rests B.fixed self.now.table.shared pass.new × Rests B.fixed self.now.table.shared result }
        ensures seen { (seen pass.new ≡ seen pass.old) × (seen result ≡ seen pass.old) }
        ensures own { (own pass.new ≡ own pass.old) × ((n : ℕ) × (own result ≡ (n, []) ∷ []) × (times n (numbers pass.old) ≡ 0)) }
        ensures room { (room pass.new + 1 ≡ room pass.old) × (room result ≡ 0) }
    {
        let shared = &self.table.shared;
        shared.fetch_add::<Number>(pass, MADE, 1);
        shared.fetch_add::<CountUp>(pass, OUT, 1);
        shared.split_seat::<Cut>(pass)
    }

    /// Takes the other pass in, with what it has seen and owns.
    pub fn join(&self, pass: &mut Pass<B>, other: Pass<B>)
        requires pass { Rests B.fixed self.now.table.shared pass.old }
        requires other { Rests B.fixed self.now.table.shared other }
        ensures pass { Rests B.fixed self.now.table.shared pass.new }
        ensures seen { seen pass.new ≡ longer (seen pass.old) (seen other) }
        ensures own { own pass.new ≡ own pass.old ++ own other }
        ensures room { room pass.new ≡ room pass.old + room other }
    {
        let shared = &self.table.shared;
        shared.join_seat::<TakeIn>(pass, other);
        shared.fetch_sub::<CountDown>(pass, OUT, 1);
    }

    /// Waits until it is this pass's turn. The book begins with all that the pass has seen.
    pub fn enter<R: Wait>(&self, rt: &R, pass: &mut Pass<B>) -> Turn<B>
        requires pass { Rests B.fixed self.now.table.shared pass.old }
        ensures turn { HasTurn B.fixed self.now.table.shared pass.new }
        ensures begins { StartsWith (B.items result.book) (seen pass.old) }
        ensures seen { seen pass.new ≡ B.items result.book }
        ensures own { own pass.new ≡ own pass.old }
        ensures stands { Stands (B.items result.book) (own pass.old) }
        ensures alone { room pass.old + length (own pass.old) ≡ 65537 → Whole (B.items result.book) (own pass.old) }
        ensures room { room pass.new ≡ room pass.old }
        ensures fixed { B.fixed result.book ≡ B.fixed self.now.table.shared.key.value }
    {
        let shared = &self.table.shared;
        let ticket = shared.fetch_add::<Draw>(pass, DRAWN, 1);
        let mut looks = 0;
        for _ in rt.forever() {
            let found = shared.load::<Look>(pass, SERVED);
            if found == ticket {
                let Some(book) = shared.exchange(pass, BOOK, None) else {
                    unreachable!()
                };
                return Turn { book };
            }
            looks = self.pause(rt, looks, found);
        }
        unreachable!()
    }

    /// Gives the book back, and passes the turn on. The item that was added is the pass's own.
    pub fn leave(&self, turn: Turn<B>, pass: &mut Pass<B>)
        requires turn { HasTurn B.fixed self.now.table.shared pass.old }
        requires items { GrowsByOne (seen pass.old) (B.items turn.book) }
        requires fixed { B.fixed turn.book ≡ B.fixed self.now.table.shared.key.value }
        ensures pass { Rests B.fixed self.now.table.shared pass.new }
        ensures seen { seen pass.new ≡ B.items turn.book }
        ensures own { own pass.new ≡ grown (own pass.old) (drop (length (seen pass.old)) (B.items turn.book)) }
        ensures room { room pass.new ≡ room pass.old }
    {
        let Turn { book } = turn;
        let count = book.count();
        let shared = &self.table.shared;
        let nothing = shared.exchange(pass, BOOK, Some(book));
        let None = nothing else { unreachable!() };
        shared.store::<Record>(pass, ITEMS, count);
        let served = shared.fetch_add::<PassOn>(pass, SERVED, 1);
        self.wake_after(served);
    }

    /// Takes the book out of the lock for good, unless another pass is out.
    pub fn close<R: Wait>(&self, rt: &R, mut pass: Pass<B>) -> Result<B, StillOut<B>>
        requires pass { Rests B.fixed self.now.table.shared pass }
        ensures begins { IfOk result (λ book. StartsWith (B.items book) (seen pass)) }
        ensures whole { IfOk result (λ book. Whole (B.items book) (own pass)) }
        ensures fixed { IfOk result (λ book. B.fixed book ≡ B.fixed self.now.table.shared.key.value) }
        ensures last { IfOk result (λ _. room pass + length (own pass) ≡ 65537) }
        ensures out { IfErr result (λ e. (room pass + length (own pass) < 65537) × (1 < e.passes)) }
        ensures back { IfErr result (λ e. Rests B.fixed self.now.table.shared e.pass × (seen e.pass ≡ seen pass) × (own e.pass ≡ own pass) × (room e.pass ≡ room pass)) }
    {
        let passes = self.table.shared.load::<Ask>(&mut pass, OUT);
        if passes != 1 {
            return Err(StillOut { pass, passes });
        }
        let Turn { book } = self.enter(rt, &mut pass);
        Ok(book)
    }

    // Waits a little, and longer once the pass has looked often: then until the turn that it found has passed. It answers how often it has looked.
    fn pause<R: Wait>(&self, rt: &R, looks: u32, found: u64) -> u32 {
        if looks < LOOKS {
            hint::spin_loop();
            return looks + 1;
        }
        let low = (found & 0xffff_ffff) as u32;
        self.table.shared.park(rt, SERVED, low);
        looks
    }

    // Wakes the passes that wait, unless the turn that has passed was the last one drawn.
    fn wake_after(&self, served: u64) {
        let shared = &self.table.shared;
        if shared.peek(DRAWN) != served.wrapping_add(1) {
            shared.wake_all(SERVED);
        }
    }
}
