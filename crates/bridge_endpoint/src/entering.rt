//! Entries that are made, with what they do.
ghost use Rattle.std.specs.Prelude.{◌≡◌, ◌+◌, ◌-◌, ◌<◌, ◌≤◌, ◌^◌, suc, OnOk, OnErr};
ghost use Rattle.bridge_journal.specs.Logs.{entered, entry_of};
ghost use Rattle.bridge_model.specs.Ends.{ends_by, runs_out};
ghost use Rattle.bridge_model.specs.Entries as entry;
ghost use Rattle.bridge_state.specs.EndSides.{on_side};
ghost use Rattle.bridge_endpoint.specs.Entering.{IsWithin, counts_one, with_room};

use bridge_journal::{Entry, Journal};
use bridge_model::Cause;
use bridge_state::State;
use uno_base::NoMemory;

/// Takes room for so many entries.
pub(crate) fn reserve(journal: &mut Journal, count: usize) -> Result<(), NoMemory>
    ensures room { OnOk result (journal.new ≡ with_room (journal.old.room + count) journal.old) }
    ensures kept { OnErr result (journal.new ≡ with_room journal.new.room journal.old) }
    ensures least { journal.old.room ≤ journal.new.room }
    ensures within { IsWithin journal.old → IsWithin journal.new }
{
    for _turn in 0..count {
        journal.reserve()?;
    }
    Ok(())
}

/// An entry that counts, in its room, for what was done.
pub(crate) fn enter(state: &mut State, journal: &mut Journal, entry: Entry)
    requires few { state.old.side.entries < 2 ^ 64 - 1 }
    requires room { 0 < journal.old.room }
    ensures counted { state.new ≡ on_side counts_one state.old }
    ensures entered { journal.new ≡ entered (entry_of entry) journal.old }
{
    state.count_entry();
    journal.enter(entry);
}

/// The bridge ends.
pub(crate) fn end(state: &mut State, journal: &mut Journal, cause: Cause, entry: Entry)
    requires few { state.old.side.entries < 2 ^ 64 - 1 }
    requires room { 0 < journal.old.room }
    ensures ended { state.new ≡ on_side (λ s. counts_one (ends_by cause s)) state.old }
    ensures entered { journal.new ≡ entered (entry_of entry) journal.old }
{
    state.end(cause);
    enter(state, journal, entry);
}

/// It ends for want of memory.
pub(crate) fn run_out(state: &mut State, journal: &mut Journal)
    requires few { state.old.side.entries < 2 ^ 64 - 1 }
    requires room { 0 < journal.old.room }
    ensures ended { state.new ≡ on_side (λ s. counts_one (runs_out s.cause s)) state.old }
    ensures entered { journal.new ≡ entered entry.no_memory journal.old }
{
    state.run_out();
    enter(state, journal, Entry::NoMemory);
}
