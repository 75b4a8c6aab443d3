//! The table of stubs, which contracts see as rows in rising order of their pairs.
ghost use Rattle.std.specs.Prelude.{◌≡◌, ℕ, ◌<◌, ◌-◌, ◌^◌, Bool, ◌&&◌, List, [], length, T, None, IsSome, IfSome, IfNone, IsOk, OnOk, OnErr, option_copied, option_map};
ghost use Rattle.std.specs.FinMap.{is_sorted};
ghost use Rattle.std.specs.List.{list_any};
ghost use Rattle.std.specs.Result.{result_ok};
ghost use Rattle.std.specs.Str.{bytes_eq};
ghost use Rattle.pair_map.specs.Faces.{any_face};
ghost use Rattle.table_model.specs.Pair.{pair, pair_cmp, without_oid};
ghost use Rattle.table_model.specs.Stubs.{stub, sent_one, released_one, sent_count, is_last, IsOwed};

use crate::Unowed;
use pair_map::{Faces, PairMap};
use std::alloc::Global;
use std::marker::Model;
use table_model::Stub;
use uno_base::NoMemory;
use uno_entities::{Name, Text};

/// The most stubs that there are.
const MOST: u64 = 0x7FFF_FFFF_FFFF_FFFF;

/// The stubs of an endpoint, and how many there are.
#[derive(Drop)]
pub struct StubTable {
    stubs: PairMap<Stub>,
    number: u64,
}

impl Model for StubTable {
    ghost use Rattle.std.specs.Prelude.{◌≡◌, ◌<◌, ◌^◌, IfSome, length};
    ghost use Rattle.table_model.specs.Pair.{Pair};
    ghost use Rattle.table_model.specs.Stubs.{Stubs, stub, IsOwed};

    ghost Value = { Stubs };

    ghost view = { λ t. t.stubs };

    ghost invariant = { λ t. ((p : Pair) → IfSome (stub p t.stubs) IsOwed) × (t.number ≡ length t.stubs) × (t.number < 2 ^ 63) };
}

impl StubTable {
    /// An empty table.
    pub fn new(alloc: Global) -> StubTable
        ensures { result ≡ [] }
    {
        StubTable {
            stubs: PairMap::new(alloc),
            number: 0,
        }
    }

    /// Counts a sending of a pair.
    pub fn sent_one(&mut self, oid: &Text, face: &Name) -> Result<(), NoMemory>
        requires { sent_count (stub (pair oid.now face.now) self.old) < 2 ^ 64 - 1 }
        ensures sent { OnOk result (self.new ≡ sent_one (pair oid.now face.now) self.old) }
        ensures kept { OnErr result (self.new ≡ self.old) }
        ensures again { IsSome (stub (pair oid.now face.now) self.old) → IsOk result }
    {
        let Some(stub) = self.stub(oid, face) else {
            return self.add(oid, face);
        };
        let sent = stub.sent + 1;
        self.stubs.replace(oid, face, Stub { sent, ..stub });
        Ok(())
    }

    /// Counts a release of a pair, and tells whether its stub is gone.
    pub fn released_one(&mut self, oid: &Text, face: &Name) -> Result<bool, Unowed>
        ensures answer { result_ok result ≡ option_map is_last (stub (pair oid.now face.now) self.old) }
        ensures released { self.new ≡ released_one (pair oid.now face.now) self.old }
    {
        let Some(stub) = self.stub(oid, face) else {
            return Err(Unowed)
        };
        let released = stub.released + 1;
        if released == stub.sent {
            self.stubs.remove(oid, face);
            self.number -= 1;
            return Ok(true);
        }
        self.stubs.replace(oid, face, Stub { released, ..stub });
        Ok(false)
    }

    /// The stub of a pair.
    pub fn stub(&self, oid: &Text, face: &Name) -> Option<Stub>
        ensures same { result ≡ stub (pair oid.now face.now) self.now }
        ensures owed { IfSome result IsOwed }
        ensures rises { T (is_sorted pair_cmp self.now) }
    {
        self.stubs.get(oid, face).copied()
    }

    /// Whether a pair with this OID has a stub.
    pub fn any_for(&self, oid: &Text) -> bool
        ensures { result ≡ list_any (λ row. bytes_eq oid.now row.0.oid) self.now }
    {
        self.stubs.has_oid(oid)
    }

    /// The faces of the pairs with this OID that have a stub.
    pub fn faces(&self, oid: &Text) -> Option<&Faces<Stub>>
        ensures { (test : List ℕ → Bool) → list_any (λ row. bytes_eq oid.now row.0.oid && test row.0.face) self.now ≡ any_face test (option_copied result) }
    {
        self.stubs.faces(oid)
    }

    /// How many stubs there are.
    pub fn len(&self) -> u64
        ensures { result ≡ length self.now }
    {
        self.number
    }

    /// Drops the stubs of some OID, and gives it; nothing where no stub is there.
    pub fn take_oid(&mut self) -> Option<Text>
        ensures gone { IfSome result (λ oid. self.new ≡ without_oid oid self.old) }
        ensures fewer { IfSome result (λ oid. length self.new < length self.old) }
        ensures none { IfNone result (self.old ≡ []) }
        ensures kept { IfNone result (self.new ≡ []) }
    {
        let (oid, number) = self.stubs.take_counted()?;
        self.number -= number as u64;
        Some(oid)
    }

    /// Makes a stub of a pair that has none.
    fn add(&mut self, oid: &Text, face: &Name) -> Result<(), NoMemory>
        requires none { stub (pair oid.now face.now) self.old ≡ None }
        requires rises { T (is_sorted pair_cmp self.old) }
        ensures added { OnOk result (self.new ≡ sent_one (pair oid.now face.now) self.old) }
        ensures kept { OnErr result (self.new ≡ self.old) }
    {
        if self.number >= MOST {
            return Err(NoMemory);
        }
        self.stubs.insert(
            oid,
            face,
            Stub {
                sent: 1,
                released: 0,
            },
        )?;
        self.number += 1;
        Ok(())
    }
}
