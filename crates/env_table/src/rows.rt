//! The rows of an environment: each pair that is held, with its holders.
ghost use Rattle.std.specs.Prelude.{◌≡◌, ℕ, ◌<◌, ◌^◌, T, length, OnOk, OnErr};
ghost use Rattle.std.specs.FinMap.{find, put, is_sorted};
ghost use Rattle.table_model.specs.Bags.{how_often, one_more, one_less};
ghost use Rattle.table_model.specs.Holdings.{holder_cmp};
ghost use Rattle.table_model.specs.Pair.{pair, pair_cmp};
ghost use Rattle.env_table.specs.Holders.{holders_at, with_holders};

use crate::holders::Holders;
use pair_map::PairMap;
use std::alloc::Global;
use table_model::Holder;
use uno_base::NoMemory;
use uno_entities::{Name, Text};

/// How many occurrences a pair has.
pub fn number(pairs: &PairMap<Holders>, oid: &Text, face: &Name) -> u64
    ensures number { result ≡ length (holders_at (pair oid.now face.now) pairs.now) }
    ensures few { result < 2 ^ 63 }
    ensures rises { T (is_sorted pair_cmp pairs.now) }
{
    let Some(holders) = pairs.get(oid, face) else {
        return 0
    };
    holders.number()
}

/// How many occurrences of a pair a holder has.
pub fn times(pairs: &PairMap<Holders>, holder: Holder, oid: &Text, face: &Name) -> u64
    ensures times { result ≡ how_often holder_cmp holder (holders_at (pair oid.now face.now) pairs.now) }
    ensures rises { T (is_sorted pair_cmp pairs.now) }
{
    let Some(holders) = pairs.get(oid, face) else {
        return 0
    };
    holders.times(holder)
}

/// How many occurrences of a pair a holder has, and how many all have.
pub fn counts(pairs: &PairMap<Holders>, holder: Holder, oid: &Text, face: &Name) -> (u64, u64)
    ensures times { result.0 ≡ how_often holder_cmp holder (holders_at (pair oid.now face.now) pairs.now) }
    ensures number { result.1 ≡ length (holders_at (pair oid.now face.now) pairs.now) }
    ensures rises { T (is_sorted pair_cmp pairs.now) }
{
    let Some(holders) = pairs.get(oid, face) else {
        return (0, 0)
    };
    (holders.times(holder), holders.number())
}

/// Counts an occurrence of a pair that has none.
pub fn hold_first(
    alloc: Global,
    pairs: &mut PairMap<Holders>,
    holder: Holder,
    oid: &Text,
    face: &Name,
) -> Result<(), NoMemory>
    requires { length (holders_at (pair oid.now face.now) pairs.old) ≡ 0 }
    ensures held { OnOk result (pairs.new ≡ put pair_cmp (pair oid.now face.now) (one_more holder_cmp holder (holders_at (pair oid.now face.now) pairs.old)) pairs.old) }
    ensures kept { OnErr result (pairs.new ≡ pairs.old) }
{
    let mut holders = Holders::new();
    holders.hold(alloc, holder)?;
    pairs.insert(oid, face, holders)
}

/// Counts an occurrence more of a pair that has one.
pub fn hold_again(
    alloc: Global,
    pairs: &mut PairMap<Holders>,
    holder: Holder,
    oid: &Text,
    face: &Name,
) -> Result<(), NoMemory>
    requires some { 0 < length (holders_at (pair oid.now face.now) pairs.old) }
    requires rises { T (is_sorted pair_cmp pairs.old) }
    ensures held { OnOk result (pairs.new ≡ put pair_cmp (pair oid.now face.now) (one_more holder_cmp holder (holders_at (pair oid.now face.now) pairs.old)) pairs.old) }
    ensures kept { OnErr result (pairs.new ≡ pairs.old) }
{
    let mut holders = pairs.replace(oid, face, Holders::new());
    let held = holders.hold(alloc, holder);
    pairs.replace(oid, face, holders);
    held
}

/// Takes out the only occurrence of a pair.
pub fn let_last_go(pairs: &mut PairMap<Holders>, holder: Holder, oid: &Text, face: &Name)
    requires there { 0 < how_often holder_cmp holder (holders_at (pair oid.now face.now) pairs.old) }
    requires last { length (holders_at (pair oid.now face.now) pairs.old) ≡ 1 }
    ensures { pairs.new ≡ with_holders (pair oid.now face.now) (one_less holder_cmp holder (holders_at (pair oid.now face.now) pairs.old)) pairs.old }
{
    pairs.remove(oid, face);
}

/// Counts an occurrence less of a pair that has several.
pub fn let_one_go(pairs: &mut PairMap<Holders>, holder: Holder, oid: &Text, face: &Name)
    requires there { 0 < how_often holder_cmp holder (holders_at (pair oid.now face.now) pairs.old) }
    requires several { ¬ (length (holders_at (pair oid.now face.now) pairs.old) ≡ 1) }
    ensures { pairs.new ≡ with_holders (pair oid.now face.now) (one_less holder_cmp holder (holders_at (pair oid.now face.now) pairs.old)) pairs.old }
{
    let mut holders = pairs.replace(oid, face, Holders::new());
    holders.let_go(holder);
    pairs.replace(oid, face, holders);
}
