//! A map from OIDs to the faces of each, read and changed at one pair.
ghost use Rattle.std.specs.Prelude.{◌≡◌, ◌<◌, [], true, false, None, Some, cond, OnOk, OnErr, IsSome, IfSome, IfNone, IsTrue, length, option_copied};
ghost use Rattle.indexmap.specs.IndexMap.{IsUnique};
ghost use Rattle.std.specs.HashMap.{get_by};
ghost use Rattle.std.specs.List.{list_any};
ghost use Rattle.std.specs.Str.{bytes_eq};
ghost use Rattle.table_model.specs.Pair.{Pair, pair, is_pair};
ghost use Rattle.pair_map.specs.ByOid.{at_pair, pair_rows, how_many_of};

use crate::faces::Faces;
use indexmap::IndexMap;
use std::alloc::Global;
use uno_base::NoMemory;
use uno_entities::{Name, Text};

/// Faces, each at its OID.
pub type ByOid<V> = IndexMap<Text, Faces<V>>;

/// The value at a pair. A map without rows is not searched.
pub fn at_pair<'a, V>(by_oid: &'a ByOid<V>, oid: &Text, face: &Name) -> Option<&'a V>
    ensures { option_copied result ≡ at_pair by_oid.now (pair oid.now face.now) }
{
    if by_oid.is_empty() {
        return None;
    }
    by_oid.get(oid)?.get(face)
}

/// Whether a pair with this OID is there.
pub fn has_oid<V>(by_oid: &ByOid<V>, oid: &Text) -> bool
    requires { IsUnique bytes_eq by_oid.now }
    ensures { result ≡ list_any (λ row. bytes_eq oid.now row.0.oid) (pair_rows by_oid.now.entries) }
{
    let Some(faces) = by_oid.get(oid) else {
        return false
    };
    !faces.is_empty()
}

/// Puts a value at a pair.
pub fn insert<V: Drop>(
    alloc: Global,
    by_oid: &mut ByOid<V>,
    oid: &Text,
    face: &Name,
    value: V,
) -> Result<(), NoMemory>
    requires { IsUnique bytes_eq by_oid.old }
    ensures put { OnOk result ((q : Pair) → at_pair by_oid.new q ≡ cond (is_pair q (pair oid.now face.now)) (Some value) (at_pair by_oid.old q)) }
    ensures kept { OnErr result ((q : Pair) → at_pair by_oid.new q ≡ at_pair by_oid.old q) }
    ensures unique { IsUnique bytes_eq by_oid.new }
{
    let face = face.copy()?;
    if let Some(faces) = by_oid.get_mut(oid) {
        return faces.insert(alloc, face, value);
    }
    let oid = oid.copy()?;
    by_oid.insert(oid, Faces::lone(face, value))?;
    Ok(())
}

/// Puts a value in the place of the one at a pair, which is given back.
pub fn replace<V>(by_oid: &mut ByOid<V>, oid: &Text, face: &Name, value: V) -> V
    requires { IsSome (at_pair by_oid.old (pair oid.now face.now)) }
    ensures was { Some result ≡ at_pair by_oid.old (pair oid.now face.now) }
    ensures put { (q : Pair) → at_pair by_oid.new q ≡ cond (is_pair q (pair oid.now face.now)) (Some value) (at_pair by_oid.old q) }
    ensures unique { IsUnique bytes_eq by_oid.new }
{
    let Some(faces) = by_oid.get_mut(oid) else {
        unreachable!()
    };
    faces.replace(face, value)
}

/// Takes out the value at a pair.
pub fn remove<V: Drop>(by_oid: &mut ByOid<V>, oid: &Text, face: &Name) -> V
    requires { IsSome (at_pair by_oid.old (pair oid.now face.now)) }
    ensures was { Some result ≡ at_pair by_oid.old (pair oid.now face.now) }
    ensures without { (q : Pair) → at_pair by_oid.new q ≡ cond (is_pair q (pair oid.now face.now)) None (at_pair by_oid.old q) }
    ensures unique { IsUnique bytes_eq by_oid.new }
{
    let (value, bare) = take(by_oid, oid, face);
    if bare {
        drop_bare(by_oid, oid);
    }
    value
}

/// Takes out the value at a pair, and tells whether its OID has no face left.
fn take<V: Drop>(by_oid: &mut ByOid<V>, oid: &Text, face: &Name) -> (V, bool)
    requires { IsSome (at_pair by_oid.old (pair oid.now face.now)) }
    ensures was { Some result.0 ≡ at_pair by_oid.old (pair oid.now face.now) }
    ensures without { (q : Pair) → at_pair by_oid.new q ≡ cond (is_pair q (pair oid.now face.now)) None (at_pair by_oid.old q) }
    ensures bare { IsTrue result.1 → IfSome (get_by (bytes_eq oid.now) by_oid.new) (λ faces. length faces ≡ 0) }
    ensures unique { IsUnique bytes_eq by_oid.new }
{
    let Some(faces) = by_oid.get_mut(oid) else {
        unreachable!()
    };
    let value = faces.remove(face);
    let bare = faces.is_empty();
    (value, bare)
}

/// Takes out an OID that has no face.
fn drop_bare<V: Drop>(by_oid: &mut ByOid<V>, oid: &Text)
    requires { IfSome (get_by (bytes_eq oid.now) by_oid.old) (λ faces. length faces ≡ 0) }
    ensures kept { (q : Pair) → at_pair by_oid.new q ≡ at_pair by_oid.old q }
    ensures unique { IsUnique bytes_eq by_oid.new }
{
    by_oid.swap_remove(oid);
}

/// Takes out some OID with all its faces, and gives it with their number.
pub fn take_oid<V: Drop>(by_oid: &mut ByOid<V>) -> Option<(Text, usize)>
    requires { IsUnique bytes_eq by_oid.old }
    ensures gone { IfSome result (λ r. (q : Pair) → at_pair by_oid.new q ≡ cond (bytes_eq r.0 q.oid) None (at_pair by_oid.old q)) }
    ensures some { IfSome result (λ r. list_any (λ row. bytes_eq r.0 row.0.oid) (pair_rows by_oid.old.entries) ≡ true) }
    ensures number { IfSome result (λ r. how_many_of r.0 (pair_rows by_oid.old.entries) ≡ r.1) }
    ensures none { IfNone result (pair_rows by_oid.old.entries ≡ []) }
    ensures kept { IfNone result (pair_rows by_oid.new.entries ≡ []) }
    ensures unique { IsUnique bytes_eq by_oid.new }
{
    while let Some((oid, number)) = take_last(by_oid) {
        if number > 0 {
            return Some((oid, number));
        }
    }
    None
}

/// Takes out an OID with its faces, and tells how many it has.
fn take_last<V: Drop>(by_oid: &mut ByOid<V>) -> Option<(Text, usize)>
    ensures gone { IfSome result (λ r. (q : Pair) → at_pair by_oid.new q ≡ cond (bytes_eq r.0 q.oid) None (at_pair by_oid.old q)) }
    ensures bare { IfSome result (λ r. r.1 ≡ 0 → pair_rows by_oid.new.entries ≡ pair_rows by_oid.old.entries) }
    ensures some { IfSome result (λ r. 0 < r.1 → list_any (λ row. bytes_eq r.0 row.0.oid) (pair_rows by_oid.old.entries) ≡ true) }
    ensures number { IfSome result (λ r. how_many_of r.0 (pair_rows by_oid.old.entries) ≡ r.1) }
    ensures fewer { IfSome result (λ r. length by_oid.new.entries < length by_oid.old.entries) }
    ensures none { IfNone result (by_oid.old.entries ≡ []) }
    ensures kept { IfNone result (by_oid.new.entries ≡ []) }
    ensures unique { IsUnique bytes_eq by_oid.new }
{
    let (oid, faces) = by_oid.pop()?;
    let number = faces.len();
    Some((oid, number))
}
