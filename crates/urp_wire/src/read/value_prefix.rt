//! The value that stands at the front of bytes.
ghost use Rattle.std.specs.Prelude.{◌≡◌, ◌≤◌, ◌++◌, ℕ, List, length, take, drop, IfOk, IfErr, MatchResult, Err};
ghost use Rattle.uno_model.specs.Sound.{IsSound};
ghost use Rattle.uno_model.specs.Values.{Plain};
ghost use Rattle.uno_entities.specs.TypeNames.{kind_of};
ghost use Rattle.uno_values.specs.Values.{plain_of};
ghost use Rattle.urp_model.specs.Reading.{value_at};
ghost use Rattle.urp_model.specs.Spelling.{Spells};
ghost use Rattle.urp_model.specs.Tables.{Tables};
ghost use Rattle.urp_wire.specs.Gives.{Gives, Fails, tables_of};

use super::value::value_within;
use crate::{Reason, WireError};
use std::alloc::Global;
use uno_types::{Registry, TypeName};
use uno_values::Value;
use urp_cache::ReadCaches;

/// How many levels of a value may stand in one another.
const MOST_LEVELS: u32 = 64;

/// The value of a type, and how many bytes spell it. An object in it is one of the peer's, under the interface at its place.
pub fn read_value(
    alloc: Global,
    registry: &Registry,
    caches: &mut ReadCaches,
    kind: &TypeName,
    bytes: &[u8],
) -> Result<(Value, usize), WireError>
    requires { IsSound registry.now }
    ensures gives { Gives (λ x. (plain_of x.0, tables_of caches.new, drop x.1 bytes.now)) result
        (value_at 64 registry.now (kind_of kind.now) (tables_of caches.old) bytes.now) }
    ensures found { IfOk result (λ x. (x.1 ≤ length bytes.now)
        × Spells 64 registry.now (kind_of kind.now) (tables_of caches.old) (plain_of x.0) (take x.1 bytes.now) (tables_of caches.new)) }
    ensures only { (v : Plain) (used rest : List ℕ) (t : Tables) → Spells 64 registry.now (kind_of kind.now) (tables_of caches.old) v used t
        → bytes.now ≡ used ++ rest
        → MatchResult result (λ x. (plain_of x.0 ≡ v) × (x.1 ≡ length used) × (tables_of caches.new ≡ t)) (λ e. e ≡ WireError.NoMemory) }
    ensures refused { IfErr result (λ e. Fails e (value_at 64 registry.now (kind_of kind.now) (tables_of caches.old) bytes.now)) }
    ensures bad { (reason : Reason) → result ≡ Err (WireError.Bad reason) → (more used rest : List ℕ) (v : Plain) (t : Tables)
        → Spells 64 registry.now (kind_of kind.now) (tables_of caches.old) v used t → bytes.now ++ more ≡ used ++ rest → ⊥ }
{
    match value_within(alloc, registry, caches, kind, MOST_LEVELS, bytes) {
        Ok((value, rest)) => Ok((value, bytes.len() - rest.len())),
        Err(error) => Err(error),
    }
}
