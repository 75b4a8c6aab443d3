//! The entries, and room for those to come.
ghost use Rattle.std.specs.Prelude.{◌≡◌, ◌+◌, ◌-◌, ◌<◌, ◌≤◌, ◌^◌, OnErr, OnOk, length, map};
ghost use Rattle.std.specs.Vec.{vec_capacity, vec_len};
ghost use Rattle.bridge_journal.specs.Logs.{Log, empty_log, entered, entry_of, less_room, more_room, stamped};

use crate::Entry;
use std::alloc::Global;
use std::marker::Model;
use uno_base::NoMemory;

/// A journal. Room for an entry is taken before the call that makes it changes anything, so that the entry itself takes no memory. Each entry is
/// marked with the number that was set last.
#[derive(Drop)]
pub struct Journal {
    entries: Vec<Entry>,
    stamps: Vec<u64>,
    stamp: u64,
    room: usize,
}

impl Model for Journal {
    ghost use Rattle.std.specs.Coded.{codes};
    ghost use Rattle.std.specs.Prelude.{◌≡◌, ◌+◌, ◌≤◌, map};
    ghost use Rattle.std.specs.Vec.{vec_capacity, vec_len};
    ghost use Rattle.bridge_journal.specs.Logs.{Log, entry_of};
    ghost use Rattle.call_stacks.specs.ValueCodes.{value_code};
    ghost use Rattle.uno_model.specs.Codes.{kind_code};

    ghost Value = { Log };

    ghost coded = { Prim.hlevel (codes, kind_code, value_code) };

    ghost view = { λ j. record { entries = map entry_of j.entries.items; stamps = j.stamps.items; stamp = j.stamp; room = j.room } };

    ghost invariant = { λ j. (vec_len j.entries + j.room ≤ vec_capacity j.entries) × (vec_len j.stamps + j.room ≤ vec_capacity j.stamps) × (vec_len j.stamps ≡ vec_len j.entries) };
}

impl Journal {
    /// No entries, the mark 0, and no room.
    pub fn new(alloc: Global) -> Journal
        ensures { result ≡ empty_log }
    {
        Journal {
            entries: Vec::new(alloc),
            stamps: Vec::new(alloc),
            stamp: 0,
            room: 0,
        }
    }

    /// Takes room for an entry more.
    pub fn reserve(&mut self) -> Result<(), NoMemory>
        ensures room { OnOk result (self.new ≡ more_room self.old) }
        ensures within { OnOk result (length self.new.entries + self.new.room < 2 ^ 64 - 1) }
        ensures kept { OnErr result (self.new ≡ self.old) }
    {
        make_room(&mut self.entries, self.room)?;
        make_room(&mut self.stamps, self.room)?;
        self.room += 1;
        Ok(())
    }

    /// Gives up the room of an entry that is not made.
    pub fn unreserve(&mut self)
        requires { 0 < self.old.room }
        ensures { self.new ≡ less_room self.old }
    {
        self.room -= 1;
    }

    /// Makes an entry, in the room that was taken for it.
    pub fn enter(&mut self, entry: Entry)
        requires { 0 < self.old.room }
        ensures { self.new ≡ entered (entry_of entry) self.old }
    {
        self.room -= 1;
        self.entries.push_reserved(entry);
        self.stamps.push_reserved(self.stamp);
    }

    /// Sets the number with which the next entries are marked.
    pub fn stamp(&mut self, next: u64)
        ensures { self.new ≡ stamped next self.old }
    {
        self.stamp = next;
    }

    /// The entries, oldest first. A block of memory has room for no more.
    pub fn entries(&self) -> &[Entry]
        ensures entries { map entry_of result.now ≡ self.now.entries }
        ensures small { length self.now.entries < 2 ^ 63 }
    {
        &self.entries
    }

    /// The mark of each entry.
    pub fn stamps(&self) -> &[u64]
        ensures stamps { result.now ≡ self.now.stamps }
        ensures each { length self.now.stamps ≡ length self.now.entries }
    {
        &self.stamps
    }

    /// For how many entries there is room.
    pub fn room(&self) -> usize
        ensures { result ≡ self.now.room }
    {
        self.room
    }
}

/// Makes room for an item behind those that are there, and for so many more. Where there is none, twice as much is made.
fn make_room<T>(items: &mut Vec<T>, room: usize) -> Result<(), NoMemory>
    requires { room < 2 ^ 63 }
    ensures same { items.new.items ≡ items.old.items }
    ensures len { vec_len items.new ≡ vec_len items.old }
    ensures capacity { vec_capacity items.old ≤ vec_capacity items.new }
    ensures room { OnOk result (vec_len items.new + room < vec_capacity items.new) }
{
    if room < items.capacity() - items.len() {
        return Ok(());
    }
    items.reserve(room.saturating_mul(2).max(1))?;
    Ok(())
}
