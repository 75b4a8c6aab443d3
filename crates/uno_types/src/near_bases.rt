//! Whether one entity is a base of another near by: a walk over a few bases that takes no memory.
ghost use Rattle.std.specs.Prelude.{◌≡◌, ◌++◌, ◌∷◌, [], ◌↔◌, IfSome, IsTrue, Some, map};
ghost use Rattle.std.specs.Bool.{OnTrue};
ghost use Rattle.uno_model.specs.Registry.{IsBaseOf, at_most_one, mandatory_bases, stands_on, stands_on_body};
ghost use Rattle.uno_entities.specs.Entities.{base_of, entity_of};
ghost use Rattle.uno_types.specs.NearBases.{names_in};

use crate::{Base, Body, Entity, Name, Registry};
use arrayvec::ArrayVec;

/// How many names are pending at most, and how many are looked at.
const MOST_PENDING: usize = 32;

const MOST_STEPS: u32 = 64;

/// Whether it is one; `None` where the walk came to more bases than it looks at.
pub(crate) fn near_base(registry: &Registry, to: &str, from: &str) -> Option<bool>
    ensures { IfSome result (λ b. IsTrue b ↔ IsBaseOf registry.now to.now from.now) }
{
    if from == to {
        return Some(true);
    }
    let mut pending: ArrayVec<Option<&Name>, MOST_PENDING> = ArrayVec::new();
    if !push_bases(registry, from, &mut pending) {
        return None;
    }
    'steps: for _ in 0..MOST_STEPS {
        let Some(next) = pending.pop() else {
            return Some(false);
        };
        let name = next?;
        if name.as_str() == to {
            return Some(true);
        }
        if !push_bases(registry, name.as_str(), &mut pending) {
            return None;
        }
    }
    None
}

/// Adds what a name stands on; false where there is no room for all of it.
fn push_bases<'a>(
    registry: &'a Registry,
    name: &str,
    pending: &mut ArrayVec<Option<&'a Name>, MOST_PENDING>,
) -> bool
    ensures { OnTrue result (names_in pending.new.items ≡ names_in pending.old.items ++ stands_on registry.now name.now) }
{
    match registry.find(name) {
        Some(entity) => push_bases_of(entity, pending),
        None => true,
    }
}

fn push_bases_of<'a>(
    entity: &'a Entity,
    pending: &mut ArrayVec<Option<&'a Name>, MOST_PENDING>,
) -> bool
    ensures { OnTrue result (names_in pending.new.items ≡ names_in pending.old.items ++ stands_on_body (Some (entity_of entity.now))) }
{
    match &entity.body {
        Body::Interface { bases, .. } => push_required(bases, pending),
        Body::Struct { base, .. } | Body::Exception { base, .. } => push_base(base, pending),
        _ => true,
    }
}

/// Adds the bases that are not optional.
fn push_required<'a>(
    bases: &'a [Base],
    pending: &mut ArrayVec<Option<&'a Name>, MOST_PENDING>,
) -> bool
    ensures { OnTrue result (names_in pending.new.items ≡ names_in pending.old.items ++ mandatory_bases (map base_of bases.now)) }
{
    for base in bases {
        if !push_unless_optional(base, pending) {
            return false;
        }
    }
    true
}

fn push_unless_optional<'a>(
    base: &'a Base,
    pending: &mut ArrayVec<Option<&'a Name>, MOST_PENDING>,
) -> bool
    ensures { OnTrue result (names_in pending.new.items ≡ names_in pending.old.items ++ mandatory_bases (base_of base.now ∷ [])) }
{
    if base.optional {
        return true;
    }
    push_name(&base.name, pending)
}

/// Adds the base of a struct or an exception, where there is one.
fn push_base<'a>(
    base: &'a Option<Name>,
    pending: &mut ArrayVec<Option<&'a Name>, MOST_PENDING>,
) -> bool
    ensures { OnTrue result (names_in pending.new.items ≡ names_in pending.old.items ++ at_most_one base.now) }
{
    match base {
        Some(name) => push_name(name, pending),
        None => true,
    }
}

fn push_name<'a>(name: &'a Name, pending: &mut ArrayVec<Option<&'a Name>, MOST_PENDING>) -> bool
    ensures { OnTrue result (names_in pending.new.items ≡ names_in pending.old.items ++ name.now ∷ []) }
{
    let Ok(()) = pending.try_push(Some(name)) else {
        return false;
    };
    true
}
