//! The map itself, as rows in rising order of their pairs.
ghost use Rattle.std.specs.Prelude.{◌≡◌, ℕ, ◌+◌, Bool, ◌&&◌, List, [], length, true, None, Some, OnOk, OnErr, IsSome, IfSome, IfNone, T, option_copied};
ghost use Rattle.std.specs.FinMap.{find, put, is_sorted};
ghost use Rattle.std.specs.List.{list_any};
ghost use Rattle.std.specs.Str.{bytes_eq};
ghost use Rattle.table_model.specs.Pair.{pair, pair_cmp, without_oid};
ghost use Rattle.table_model.specs.Rows.{without};
ghost use Rattle.pair_map.specs.Faces.{any_face};

use crate::Faces;
use crate::by_oid::{self, ByOid};
use indexmap::IndexMap;
use std::alloc::Global;
use std::marker::Model;
use uno_base::NoMemory;
use uno_entities::{Name, Text};

/// A value for each of some pairs.
#[derive(Drop)]
pub struct PairMap<V> {
    alloc: Global,
    by_oid: ByOid<V>,
}

impl<V> Model for PairMap<V> {
    ghost use Rattle.std.specs.Prelude.{List};
    ghost use Rattle.indexmap.specs.IndexMap.{IsUnique};
    ghost use Rattle.std.specs.Str.{bytes_eq};
    ghost use Rattle.table_model.specs.Pair.{Pair, pair_cmp};
    ghost use Rattle.table_model.specs.Rows.{in_order};
    ghost use Rattle.pair_map.specs.ByOid.{pair_rows};

    ghost Value = { List (Pair × V) };

    ghost view = { λ m. in_order pair_cmp (pair_rows m.by_oid.entries) };

    ghost invariant = { λ m. IsUnique bytes_eq m.by_oid };
}

impl<V> PairMap<V> {
    /// An empty map.
    pub fn new(alloc: Global) -> PairMap<V>
        ensures { result ≡ [] }
    {
        PairMap {
            alloc,
            by_oid: IndexMap::new(alloc),
        }
    }

    /// The value at a pair.
    pub fn get(&self, oid: &Text, face: &Name) -> Option<&V>
        ensures found { option_copied result ≡ find pair_cmp (pair oid.now face.now) self.now }
        ensures rises { T (is_sorted pair_cmp self.now) }
    {
        by_oid::at_pair(&self.by_oid, oid, face)
    }

    /// Whether a pair with this OID is there.
    pub fn has_oid(&self, oid: &Text) -> bool
        ensures any { result ≡ list_any (λ row. bytes_eq oid.now row.0.oid) self.now }
        ensures rises { T (is_sorted pair_cmp self.now) }
    {
        by_oid::has_oid(&self.by_oid, oid)
    }

    /// The faces of the pairs with this OID.
    pub fn faces(&self, oid: &Text) -> Option<&Faces<V>>
        ensures { (test : List ℕ → Bool) → list_any (λ row. bytes_eq oid.now row.0.oid && test row.0.face) self.now ≡ any_face test (option_copied result) }
    {
        self.by_oid.get(oid)
    }

    /// Puts a value in the place of the one at a pair, which is given back.
    pub fn replace(&mut self, oid: &Text, face: &Name, value: V) -> V
        requires { IsSome (find pair_cmp (pair oid.now face.now) self.old) }
        ensures was { Some result ≡ find pair_cmp (pair oid.now face.now) self.old }
        ensures put { self.new ≡ put pair_cmp (pair oid.now face.now) value self.old }
    {
        by_oid::replace(&mut self.by_oid, oid, face, value)
    }
}

impl<V: Drop> PairMap<V> {
    /// Puts a value at a pair.
    pub fn insert(&mut self, oid: &Text, face: &Name, value: V) -> Result<(), NoMemory>
        ensures put { OnOk result (self.new ≡ put pair_cmp (pair oid.now face.now) value self.old) }
        ensures kept { OnErr result (self.new ≡ self.old) }
    {
        by_oid::insert(self.alloc, &mut self.by_oid, oid, face, value)
    }

    /// Takes out the value at a pair.
    pub fn remove(&mut self, oid: &Text, face: &Name) -> V
        requires { IsSome (find pair_cmp (pair oid.now face.now) self.old) }
        ensures was { Some result ≡ find pair_cmp (pair oid.now face.now) self.old }
        ensures without { self.new ≡ without pair_cmp (pair oid.now face.now) self.old }
    {
        by_oid::remove(&mut self.by_oid, oid, face)
    }

    /// Takes out some OID with all its faces, and gives it; nothing where no pair is there.
    pub fn take_oid(&mut self) -> Option<Text>
        ensures gone { IfSome result (λ oid. self.new ≡ without_oid oid self.old) }
        ensures some { IfSome result (λ oid. list_any (λ row. bytes_eq oid row.0.oid) self.old ≡ true) }
        ensures none { IfNone result (self.old ≡ []) }
        ensures kept { IfNone result (self.new ≡ []) }
        ensures rises { T (is_sorted pair_cmp self.old) }
    {
        let (oid, _) = self.take_counted()?;
        Some(oid)
    }

    /// Takes out some OID with all its faces, and gives it and how many pairs it had; nothing where no pair is there.
    pub fn take_counted(&mut self) -> Option<(Text, usize)>
        ensures gone { IfSome result (λ r. self.new ≡ without_oid r.0 self.old) }
        ensures some { IfSome result (λ r. list_any (λ row. bytes_eq r.0 row.0.oid) self.old ≡ true) }
        ensures number { IfSome result (λ r. length self.new + r.1 ≡ length self.old) }
        ensures none { IfNone result (self.old ≡ []) }
        ensures kept { IfNone result (self.new ≡ []) }
        ensures rises { T (is_sorted pair_cmp self.old) }
    {
        let (oid, number) = by_oid::take_oid(&mut self.by_oid)?;
        Some((oid, number))
    }
}
