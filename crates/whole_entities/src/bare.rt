//! Structs and exceptions with and without members, all of them marked: each entity is passed once.
ghost use Rattle.std.specs.Prelude.{◌≡◌, ◌<◌, length, false, true};
ghost use Rattle.uno_model.specs.Circles.{HasNoCircle};
ghost use Rattle.uno_model.specs.Registry.{IsRising, leads_to};
ghost use Rattle.uno_model.specs.Sound.{has_member};
ghost use Rattle.uno_entities.specs.Entities.{entities_of};
ghost use Rattle.whole_entities.specs.Bare.{KnownBare};
ghost use Rattle.rules_over_bases.specs.Known.{KeepsAt, KnownMembers};

use rules_over_bases::{carrying_base, has_member, needs_base};
use uno_entities::Entity;

/// Whether the entity at a place has a member, if it is a struct or an exception. What is found is known of all between it and where that is seen.
pub(crate) fn has_member_or_none(
    entities: &[Entity],
    place: usize,
    known: &mut [bool],
    bare: &mut [bool],
) -> bool
    requires rising { IsRising (entities_of entities.now) }
    requires no_circle { HasNoCircle (leads_to (entities_of entities.now)) }
    requires place { place < length entities.now }
    requires known { KnownMembers (entities_of entities.now) known.old }
    requires bare { KnownBare (entities_of entities.now) bare.old }
    ensures member { KeepsAt (has_member (entities_of entities.now)) (entities_of entities.now) place result }
    ensures known { KnownMembers (entities_of entities.now) known.new }
    ensures bare { KnownBare (entities_of entities.now) bare.new }
{
    if climbs_to_bare(entities, place, bare) {
        mark_bare(entities, place, bare);
        return false;
    }
    has_member(entities, place, known)
}

/// Whether the way from a place leads to one that is known to have no member, or to the end, past none with a member of its own.
fn climbs_to_bare(entities: &[Entity], place: usize, bare: &[bool]) -> bool
    requires rising { IsRising (entities_of entities.now) }
    requires no_circle { HasNoCircle (leads_to (entities_of entities.now)) }
    requires place { place < length entities.now }
    requires bare { KnownBare (entities_of entities.now) bare.now }
    ensures { result ≡ true → KeepsAt (has_member (entities_of entities.now)) (entities_of entities.now) place false }
{
    let mut at = place;
    for _ in 0..entities.len() + 1 {
        if bare[at] {
            return true;
        }
        if !needs_base(&entities[at].body) {
            return false;
        }
        let Some(base) = carrying_base(entities, &entities[at].body) else {
            return true;
        };
        at = base;
    }
    false
}

/// Marks the entity at a place, and each on the way to one that is known to have no member.
fn mark_bare(entities: &[Entity], place: usize, bare: &mut [bool])
    requires rising { IsRising (entities_of entities.now) }
    requires no_circle { HasNoCircle (leads_to (entities_of entities.now)) }
    requires place { place < length entities.now }
    requires bare { KnownBare (entities_of entities.now) bare.old }
    requires none { KeepsAt (has_member (entities_of entities.now)) (entities_of entities.now) place false }
    ensures { KnownBare (entities_of entities.now) bare.new }
{
    let mut at = place;
    for _ in 0..entities.len() + 1 {
        if bare[at] {
            return;
        }
        bare[at] = true;
        let Some(base) = carrying_base(entities, &entities[at].body) else {
            return;
        };
        at = base;
    }
}
