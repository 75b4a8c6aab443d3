//! A part of an environment, which contracts see as its occurrences in rising order.
ghost use Rattle.std.specs.Prelude.{◌≡◌, ℕ, ◌<◌, ◌^◌, [], if◌then◌else◌, None, Some, nat_eq, length, IfOk, IfSome, IfNone, OnOk, OnErr};
ghost use Rattle.std.specs.List.{list_any};
ghost use Rattle.std.specs.Result.{result_ok};
ghost use Rattle.std.specs.Str.{bytes_eq};
ghost use Rattle.table_model.specs.Holdings.{hold, holders, holds, held, let_go, without_holds};
ghost use Rattle.table_model.specs.Pair.{pair};

use crate::holders::Holders;
use crate::{NotHeld, rows};
use pair_map::PairMap;
use std::alloc::Global;
use std::marker::Model;
use table_model::Holder;
use uno_base::NoMemory;
use uno_entities::{Name, Text};

/// Who of some holders holds which pair.
#[derive(Drop)]
pub struct Part {
    alloc: Global,
    pairs: PairMap<Holders>,
}

impl Model for Part {
    ghost use Rattle.std.specs.Prelude.{◌<◌, length, IfSome};
    ghost use Rattle.std.specs.FinMap.{find};
    ghost use Rattle.table_model.specs.Bags.{bag_of};
    ghost use Rattle.table_model.specs.Holdings.{Holdings, hold_cmp};
    ghost use Rattle.table_model.specs.Pair.{Pair, pair_cmp};
    ghost use Rattle.env_table.specs.Holders.{all_occurrences};

    ghost Value = { Holdings };

    ghost view = { λ e. bag_of hold_cmp (all_occurrences e.pairs) };

    ghost invariant = { λ e. (p : Pair) → IfSome (find pair_cmp p e.pairs) (λ holders. 0 < length holders) };
}

impl Part {
    /// A part in which nobody holds anything.
    pub fn new(alloc: Global) -> Part
        ensures { result ≡ [] }
    {
        Part {
            alloc,
            pairs: PairMap::new(alloc),
        }
    }

    /// Adds an occurrence of a pair, and tells whether it is its first.
    pub fn hold(&mut self, holder: Holder, oid: &Text, face: &Name) -> Result<bool, NoMemory>
        ensures held { OnOk result (self.new ≡ held (hold holder (pair oid.now face.now)) self.old) }
        ensures first { IfOk result (λ first. first ≡ nat_eq (holders (pair oid.now face.now) self.old) 0) }
        ensures kept { OnErr result (self.new ≡ self.old) }
    {
        if rows::number(&self.pairs, oid, face) == 0 {
            rows::hold_first(self.alloc, &mut self.pairs, holder, oid, face)?;
            return Ok(true);
        }
        rows::hold_again(self.alloc, &mut self.pairs, holder, oid, face)?;
        Ok(false)
    }

    /// Takes out an occurrence of a pair, and tells whether it was its last.
    pub fn let_go(&mut self, holder: Holder, oid: &Text, face: &Name) -> Result<bool, NotHeld>
        ensures answer { result_ok result ≡ (if holds (hold holder (pair oid.now face.now)) self.old then Some (nat_eq (holders (pair oid.now face.now) self.old) 1) else None) }
        ensures gone { self.new ≡ let_go (hold holder (pair oid.now face.now)) self.old }
    {
        let (times, number) = rows::counts(&self.pairs, holder, oid, face);
        if times == 0 {
            return Err(NotHeld);
        }
        if number == 1 {
            rows::let_last_go(&mut self.pairs, holder, oid, face);
            return Ok(true);
        }
        rows::let_one_go(&mut self.pairs, holder, oid, face);
        Ok(false)
    }

    /// How many occurrences a pair has.
    pub fn holders(&self, oid: &Text, face: &Name) -> u64
        ensures number { result ≡ holders (pair oid.now face.now) self.now }
        ensures few { result < 2 ^ 63 }
    {
        rows::number(&self.pairs, oid, face)
    }

    /// Whether a holder has an occurrence of a pair.
    pub fn holds(&self, holder: Holder, oid: &Text, face: &Name) -> bool
        ensures { result ≡ holds (hold holder (pair oid.now face.now)) self.now }
    {
        rows::times(&self.pairs, holder, oid, face) > 0
    }

    /// Whether a pair with this OID has an occurrence.
    pub fn any_for(&self, oid: &Text) -> bool
        ensures { result ≡ list_any (λ h. bytes_eq oid.now h.pair.oid) self.now }
    {
        self.pairs.has_oid(oid)
    }

    /// Takes out all occurrences of some OID, and gives it; nothing where none is there.
    pub fn take_oid(&mut self) -> Option<Text>
        ensures gone { IfSome result (λ oid. self.new ≡ without_holds oid self.old) }
        ensures fewer { IfSome result (λ oid. length self.new < length self.old) }
        ensures none { IfNone result (self.old ≡ []) }
        ensures kept { IfNone result (self.new ≡ []) }
    {
        self.pairs.take_oid()
    }
}
