//! A struct or an exception has a member, those of its bases counted.
ghost use Rattle.std.specs.Prelude.{◌≡◌, ◌<◌, length, true};
ghost use Rattle.uno_model.specs.Circles.{HasNoCircle};
ghost use Rattle.uno_model.specs.Registry.{IsRising, leads_to, at_most_one};
ghost use Rattle.uno_model.specs.Sound.{has_member};
ghost use Rattle.uno_entities.specs.Entities.{entities_of, body_of};
ghost use Rattle.entity_rules.specs.NearMembers.{carries};
ghost use Rattle.rules_over_bases.specs.Climbing.{ClimbsTo, bases_in, needs_base};
ghost use Rattle.rules_over_bases.specs.Known.{KeepsAt, KnownMembers};

use uno_entities::{Body, Entity, Name, place_in};

/// Whether the entity at a place has a member, if it is a struct or an exception. Where it has, so it is known of all that stand
/// between it and the one that declares a member.
pub fn has_member(entities: &[Entity], place: usize, known: &mut [bool]) -> bool
    requires rising { IsRising (entities_of entities.now) }
    requires no_circle { HasNoCircle (leads_to (entities_of entities.now)) }
    requires place { place < length entities.now }
    requires before { KnownMembers (entities_of entities.now) known.old }
    ensures member { KeepsAt (has_member (entities_of entities.now)) (entities_of entities.now) place result }
    ensures after { KnownMembers (entities_of entities.now) known.new }
{
    if !climbs_to_member(entities, place, known) {
        return false;
    }
    mark_climb(entities, place, known);
    true
}

fn climbs_to_member(entities: &[Entity], place: usize, known: &[bool]) -> bool
    requires rising { IsRising (entities_of entities.now) }
    requires no_circle { HasNoCircle (leads_to (entities_of entities.now)) }
    requires place { place < length entities.now }
    requires before { KnownMembers (entities_of entities.now) known.now }
    ensures { KeepsAt (has_member (entities_of entities.now)) (entities_of entities.now) place result }
{
    let mut at = place;
    for _ in 0..entities.len() + 1 {
        if known[at] {
            return true;
        }
        if !needs_base(&entities[at].body) {
            return true;
        }
        let Some(base) = carrying_base(entities, &entities[at].body) else {
            return false;
        };
        at = base;
    }
    false
}

/// Marks the entity at a place, and each on the way to one that is known to have a member or needs none of a base.
fn mark_climb(entities: &[Entity], place: usize, known: &mut [bool])
    requires rising { IsRising (entities_of entities.now) }
    requires no_circle { HasNoCircle (leads_to (entities_of entities.now)) }
    requires place { place < length entities.now }
    requires before { KnownMembers (entities_of entities.now) known.old }
    requires member { KeepsAt (has_member (entities_of entities.now)) (entities_of entities.now) place true }
    ensures { KnownMembers (entities_of entities.now) known.new }
{
    let mut at = place;
    for _ in 0..entities.len() + 1 {
        if known[at] {
            return;
        }
        known[at] = true;
        if !needs_base(&entities[at].body) {
            return;
        }
        let Some(base) = carrying_base(entities, &entities[at].body) else {
            return;
        };
        at = base;
    }
}

/// Whether it is a struct or an exception with no member of its own.
pub fn needs_base(body: &Body) -> bool
    ensures { result ≡ needs_base (body_of body.now) }
{
    match body {
        Body::Struct { members, .. } | Body::Exception { members, .. } => members.is_empty(),
        _ => false,
    }
}

/// The place of the base of a struct or an exception, if it is one too.
pub fn carrying_base(entities: &[Entity], body: &Body) -> Option<usize>
    requires { IsRising (entities_of entities.now) }
    ensures { ClimbsTo (entities_of entities.now) (bases_in (body_of body.now)) result }
{
    match body {
        Body::Struct { base, .. } | Body::Exception { base, .. } => place_of_base(entities, base),
        _ => None,
    }
}

fn place_of_base(entities: &[Entity], base: &Option<Name>) -> Option<usize>
    requires { IsRising (entities_of entities.now) }
    ensures { ClimbsTo (entities_of entities.now) (at_most_one base.now) result }
{
    let Some(name) = base else { return None };
    let Ok(place) = place_in(entities, name.as_str()) else {
        return None;
    };
    if !carries(&entities[place].body) {
        return None;
    }
    Some(place)
}

/// Whether it is a struct or an exception.
fn carries(body: &Body) -> bool
    ensures { result ≡ carries (body_of body.now) }
{
    matches!(body, Body::Struct { .. } | Body::Exception { .. })
}
