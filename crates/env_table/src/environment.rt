//! The environment, which contracts see as its occurrences in rising order: those of frames, and behind them all others.
ghost use Rattle.std.specs.Prelude.{◌≡◌, ℕ, ◌<◌, ◌&&◌, [], if◌then◌else◌, None, Some, nat_eq, length, IfOk, IfSome, IfNone, OnOk, OnErr, option_map};
ghost use Rattle.std.specs.List.{filter, list_any};
ghost use Rattle.std.specs.Result.{result_ok};
ghost use Rattle.std.specs.Str.{bytes_eq};
ghost use Rattle.table_model.specs.Holdings.{hold, holders, holds, held, let_go, is_frame, outlasts, frames_without};
ghost use Rattle.table_model.specs.Pair.{pair};

use crate::NotHeld;
use crate::part::Part;
use std::alloc::Global;
use std::marker::Model;
use table_model::Holder;
use uno_base::NoMemory;
use uno_entities::{Name, Text};

/// Who holds which pair.
#[derive(Drop)]
pub struct Environment {
    frames: Part,
    others: Part,
}

impl Model for Environment {
    ghost use Rattle.std.specs.Prelude.{◌++◌, T};
    ghost use Rattle.table_model.specs.Holdings.{Holdings, are_frames, are_others};

    ghost Value = { Holdings };

    ghost view = { λ e. e.frames ++ e.others };

    ghost invariant = { λ e. T (are_frames e.frames) × T (are_others e.others) };
}

impl Environment {
    /// An environment in which nobody holds anything.
    pub fn new(alloc: Global) -> Environment
        ensures { result ≡ [] }
    {
        Environment {
            frames: Part::new(alloc),
            others: Part::new(alloc),
        }
    }

    /// Adds an occurrence of a pair, and tells whether it is its first.
    pub fn hold(&mut self, holder: Holder, oid: &Text, face: &Name) -> Result<bool, NoMemory>
        ensures held { OnOk result (self.new ≡ held (hold holder (pair oid.now face.now)) self.old) }
        ensures first { IfOk result (λ first. first ≡ nat_eq (holders (pair oid.now face.now) self.old) 0) }
        ensures kept { OnErr result (self.new ≡ self.old) }
    {
        if is_frame(holder) {
            let first = self.frames.hold(holder, oid, face)?;
            return Ok(alone(first, self.others.holders(oid, face)));
        }
        let first = self.others.hold(holder, oid, face)?;
        Ok(alone(first, self.frames.holders(oid, face)))
    }

    /// Takes out an occurrence of a pair, and tells whether it was its last.
    pub fn let_go(&mut self, holder: Holder, oid: &Text, face: &Name) -> Result<bool, NotHeld>
        ensures answer { result_ok result ≡ (if holds (hold holder (pair oid.now face.now)) self.old then Some (nat_eq (holders (pair oid.now face.now) self.old) 1) else None) }
        ensures gone { self.new ≡ let_go (hold holder (pair oid.now face.now)) self.old }
    {
        if is_frame(holder) {
            let gone = self.frames.let_go(holder, oid, face);
            return last_of(gone, self.others.holders(oid, face));
        }
        let gone = self.others.let_go(holder, oid, face);
        last_of(gone, self.frames.holders(oid, face))
    }

    /// How many occurrences a pair has.
    pub fn holders(&self, oid: &Text, face: &Name) -> u64
        ensures { result ≡ holders (pair oid.now face.now) self.now }
    {
        self.frames.holders(oid, face) + self.others.holders(oid, face)
    }

    /// Whether a holder has an occurrence of a pair.
    pub fn holds(&self, holder: Holder, oid: &Text, face: &Name) -> bool
        ensures { result ≡ holds (hold holder (pair oid.now face.now)) self.now }
    {
        if is_frame(holder) {
            return self.frames.holds(holder, oid, face);
        }
        self.others.holds(holder, oid, face)
    }

    /// Whether somebody holds a pair with this OID.
    pub fn any_for(&self, oid: &Text) -> bool
        ensures { result ≡ list_any (λ h. bytes_eq oid.now h.pair.oid) self.now }
    {
        if self.frames.any_for(oid) {
            return true;
        }
        self.others.any_for(oid)
    }

    /// Lets go all that frames hold of some OID, and gives it; nothing where they hold nothing.
    pub fn let_frames_go(&mut self) -> Option<Text>
        ensures gone { IfSome result (λ oid. self.new ≡ frames_without oid self.old) }
        ensures fewer { IfSome result (λ oid. length self.new < length self.old) }
        ensures none { IfNone result (filter outlasts self.old ≡ self.old) }
        ensures kept { IfNone result (self.new ≡ self.old) }
    {
        self.frames.take_oid()
    }
}

/// Whether it is a frame.
fn is_frame(holder: Holder) -> bool
    ensures { result ≡ is_frame holder }
{
    let Holder::Frame(_) = holder else {
        return false
    };
    true
}

/// Whether a test holds, and nobody else has an occurrence.
fn alone(test: bool, others: u64) -> bool
    ensures { result ≡ (test && nat_eq others 0) }
{
    if !test {
        return false;
    }
    others == 0
}

/// Whether what is gone was the last, where others have so many occurrences.
fn last_of(gone: Result<bool, NotHeld>, others: u64) -> Result<bool, NotHeld>
    ensures { result_ok result ≡ option_map (λ last. last && nat_eq others 0) (result_ok gone) }
{
    match gone {
        Ok(last) => Ok(alone(last, others)),
        Err(NotHeld) => Err(NotHeld),
    }
}
