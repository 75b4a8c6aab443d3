//! Bytes that come in.
ghost use Rattle.std.specs.Prelude.{◌≡◌, ◌≢◌, ◌+◌, ◌<◌, ◌≤◌, ◌^◌, true, ℕ, List, IfOk, OnErr, OnOk, length, take};
ghost use Rattle.bridge_journal.specs.Logs.{entered, entry_of};
ghost use Rattle.bridge_laws.specs.Grounded.{HasRoots};
ghost use Rattle.bridge_model.specs.Answers.{after_feeding, cut, feed_answer, feed_is_full, next_cut, no_room};
ghost use Rattle.bridge_state.specs.Undoing.{remains};
ghost use Rattle.bridge_model.specs.Entries as plain;
ghost use Rattle.bridge_model.specs.Feeding.{feeds};
ghost use Rattle.bridge_model.specs.Sides.{stands};
ghost use Rattle.bridge_model.specs.Steps.{does, fed_count};
ghost use Rattle.bridge_laws.specs.Room.{brought};
ghost use Rattle.bridge_setting.specs.Settings.{setting_of};
ghost use Rattle.plan_types.specs.Plans.{plan_of};
ghost use Rattle.uno_model.specs.Sound.{IsSound};
ghost use Rattle.bridge_state.specs.EndSides.{IsEndOf, on_side, with_side};
ghost use Rattle.bridge_state.specs.Hearing.{broken_by};
ghost use Rattle.bridge_endpoint.specs.Answering.{fed_told};
ghost use Rattle.bridge_endpoint.specs.Entering.{IsWithin, fed_by, with_room};
ghost use Rattle.bridge_endpoint.specs.Journals.{setting_at, side_at};

use crate::entering::{end, reserve, run_out};
use crate::{Endpoint, Fed};
use bridge_journal::{Entry, Journal};
use bridge_model::Cause;
use bridge_setting::Setting;
use bridge_state::{Break, State};
use std::alloc::Global;
use uno_base::NoMemory;

/// The most entries that count.
pub(crate) const MOST_ENTRIES: u64 = 1_000_000;

/// The most bytes that come in.
const MOST_FED: u64 = 67_108_864;

impl Endpoint {
    /// Bytes come in: the front of a piece is taken, at most to the end of a block and as much as the limit of fed bytes leaves, and the messages of a block that is
    /// whole are received.
    pub fn feed(&mut self, piece: &[u8]) -> Fed
        ensures answer { fed_told result ≢ no_room → fed_told result ≡ feed_answer (setting_at self.old) (side_at self.old) piece.now }
        ensures entered { self.new ≡ fed_by result (next_cut (side_at self.old) piece.now) self.old }
    {
        if self.lacks_memory() {
            return Fed::NoMemory;
        }
        if !self.stands() {
            return Fed::Gone;
        }
        if is_full(&self.state, piece) {
            end(&mut self.state, &mut self.journal, Cause::Full, Entry::Full);
            return Fed::Full;
        }
        if piece.is_empty() {
            return Fed::Taken(0);
        }
        let left = MOST_FED.saturating_sub(self.state.fed());
        let (front, _) = piece.split_at(left.min(piece.len() as u64) as usize);
        match feed_standing(
            self.alloc,
            &self.setting,
            &mut self.state,
            &mut self.journal,
            front,
        ) {
            Ok(fed) => fed,
            Err(NoMemory) => {
                run_out(&mut self.state, &mut self.journal);
                Fed::NoMemory
            }
        }
    }
}

/// Whether a limit is reached: of entries, or, where there are bytes, of bytes.
fn is_full(state: &State, piece: &[u8]) -> bool
    ensures { result ≡ feed_is_full state.now.side piece.now }
{
    if state.entries() >= MOST_ENTRIES {
        return true;
    }
    !piece.is_empty() && state.fed() >= MOST_FED
}

/// Bytes come in, with their entry. Where roots were answered there is room for letting go of what they got.
fn feed_standing(
    alloc: Global,
    setting: &Setting,
    state: &mut State,
    journal: &mut Journal,
    piece: &[u8],
) -> Result<Fed, NoMemory>
    requires of { IsEndOf (setting_of setting.now) state.old }
    requires sound { IsSound setting.now.registry }
    requires stands { stands state.old.side ≡ true }
    requires rooted { HasRoots (setting_of setting.now) state.old.side }
    requires few { length (plan_of setting.now.plan).threads < 2 ^ 64 }
    requires bound { fed_count state.old.side.incoming + length piece.now < 2 ^ 64 }
    ensures fed { OnOk result (state.new ≡ on_side (λ s. (does (setting_of setting.now) (plain.fed (cut s.incoming.held piece.now)) s).side) state.old) }
    ensures entered { OnOk result (journal.new ≡ with_room journal.new.room (entered (plain.fed (cut state.old.side.incoming.held piece.now)) journal.old)) }
    ensures room { OnOk result (journal.old.room + brought (setting_of setting.now) state.old.side (plain.fed (cut state.old.side.incoming.held piece.now)) ≤ journal.new.room) }
    ensures answer { IfOk result (λ fed. fed_told fed ≡ after_feeding (cut state.old.side.incoming.held piece.now) state.new.side.cause) }
    ensures lost { OnErr result (remains state.new.side ≡ remains state.old.side) }
    ensures names { OnErr result (state.new ≡ with_side state.new.side state.old) }
    ensures nothing { OnErr result (journal.new ≡ with_room journal.new.room journal.old) }
    ensures least { OnErr result (journal.old.room ≤ journal.new.room) }
    ensures within { IsWithin journal.old → IsWithin journal.new }
{
    journal.reserve()?;
    let fed = state.feed(setting, piece)?;
    match fed_entry(alloc, journal, piece, fed.count, fed.trace.references) {
        Ok(entry) => {
            journal.enter(entry);
            Ok(ended_by(state, fed.broken, fed.count))
        }
        Err(NoMemory) => {
            state.take_back(fed.trace);
            Err(NoMemory)
        }
    }
}

/// The bridge ends where its peer broke the protocol.
fn ended_by(state: &mut State, broken: Option<Break>, count: usize) -> Fed
    requires { stands state.old.side ≡ true }
    ensures ended { state.new ≡ on_side (broken_by broken) state.old }
    ensures answer { (bytes : List ℕ) → count ≡ length bytes → fed_told result ≡ after_feeding bytes state.new.side.cause }
{
    match broken {
        None => Fed::Taken(count),
        Some(broken) => {
            state.end(Cause::Broken(broken.why, broken.place));
            Fed::Broken(broken.why, broken.place)
        }
    }
}

/// The entry of so many bytes, with room for so many entries more.
fn fed_entry(
    alloc: Global,
    journal: &mut Journal,
    piece: &[u8],
    count: usize,
    more: usize,
) -> Result<Entry, NoMemory>
    requires { count ≤ length piece.now }
    ensures entry { IfOk result (λ e. entry_of e ≡ plain.fed (take count piece.now)) }
    ensures room { OnOk result (journal.new ≡ with_room (journal.old.room + more) journal.old) }
    ensures kept { OnErr result (journal.new ≡ with_room journal.new.room journal.old) }
    ensures least { journal.old.room ≤ journal.new.room }
    ensures within { IsWithin journal.old → IsWithin journal.new }
{
    reserve(journal, more)?;
    let (taken, _) = piece.split_at(count);
    Ok(Entry::Fed(Vec::from_slice(alloc, taken)?))
}
