//! A whole value, of which its reader knows what it becomes.
ghost use Rattle.std.specs.Prelude.{◌≡◌, ◌≤◌, ◌++◌, ℕ, List, length, drop, OnOk, Ok};
ghost use Rattle.uno_model.specs.Fits.{Fits};
ghost use Rattle.uno_model.specs.Sound.{IsSound};
ghost use Rattle.uno_model.specs.Values.{depth};
ghost use Rattle.uno_model.specs.Weights.{weight};
ghost use Rattle.uno_entities.specs.TypeNames.{kind_of};
ghost use Rattle.uno_values.specs.Values.{plain_of};
ghost use Rattle.urp_model.specs.Carried.{AllCorrespond, carried};
ghost use Rattle.urp_model.specs.Reading.{value_at};
ghost use Rattle.urp_model.specs.Tables.{Tables};
ghost use Rattle.urp_model.specs.Writing.{spelling, after};
ghost use Rattle.urp_wire.specs.Written.{names_of};

use crate::value::put_value;
use std::alloc::Global;
use uno_base::NoMemory;
use uno_types::{Registry, TypeName};
use uno_values::Value;
use urp_cache::SendCaches;

/// A value of a type of the registry, behind the bytes that are there. Neither the registry nor the type is looked into: all
/// that is written, the value says.
pub fn write_value(
    alloc: Global,
    _registry: &Registry,
    caches: &mut SendCaches,
    value: &Value,
    _kind: &TypeName,
    to: &mut Vec<u8>,
) -> Result<(), NoMemory>
    requires sound { IsSound _registry.now }
    requires fits { Fits _registry.now (plain_of value.now) (kind_of _kind.now) }
    requires deep { depth (plain_of value.now) ≤ 64 }
    requires light { weight (plain_of value.now) ≤ 16777216 }
    ensures bytes { OnOk result (to.new.items ≡ to.old.items ++ spelling (plain_of value.now) (names_of caches.old)) }
    ensures names { OnOk result (names_of caches.new ≡ after (plain_of value.now) (names_of caches.old)) }
    ensures read { (s : Tables) (rest : List ℕ) → AllCorrespond s (names_of caches.old)
        → OnOk result ((t : Tables) × (value_at 64 _registry.now (kind_of _kind.now) s (drop (length to.old.items) to.new.items ++ rest)
        ≡ Ok (carried _registry.now (plain_of value.now) (kind_of _kind.now), t, rest)) × AllCorrespond t (names_of caches.new)) }
{
    put_value(alloc, caches, value, to)?;
    Ok(())
}
