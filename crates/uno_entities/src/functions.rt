//! How many functions entities have: one, those that are marked, and all.
ghost use Rattle.std.specs.Prelude.{◌≡◌, ◌<◌, ◌^◌, ◌-◌, min, length, map, if◌then◌else◌, slice_set, replicate, false};
ghost use Rattle.uno_entities.specs.Counts.{functions_of_member, functions_in, own_functions, marked_functions, total_functions, IsShare};
ghost use Rattle.uno_entities.specs.Entities.{entities_of, body_of, member_of};
ghost use Rattle.uno_entities.specs.Reaching.{Covers};

use crate::bases::{Reach, Search};
use crate::{Body, Entity, Member};

/// How many functions the entities that are marked have themselves, as far as a `u64` counts. All marks are taken back.
pub(crate) fn functions_of_reached(entities: &[Entity], reach: &mut Reach) -> u64
    requires long { length reach.old.search.marks.items ≡ length entities.now }
    requires covered { Covers reach.old.search.marks.items reach.old.places.items }
    ensures count { result ≡ min (marked_functions reach.old.search.marks.items (entities_of entities.now)) (2 ^ 64 - 1) }
    ensures clear { reach.new.search.marks.items ≡ replicate (length entities.now) false }
    ensures places { reach.new.places.items ≡ reach.old.places.items }
{
    let mut total = 0u64;
    for index in 0..reach.places.len() {
        let place = reach.places[index];
        total = total.saturating_add(functions_at(entities, place, &mut reach.search));
    }
    total
}

/// How many functions the entity at a place counts for with its mark, which is taken back.
fn functions_at(entities: &[Entity], place: usize, search: &mut Search) -> u64
    requires long { length search.old.marks.items ≡ length entities.now }
    requires place { place < length entities.now }
    ensures marks { search.new.marks.items ≡ slice_set search.old.marks.items place false }
    ensures count { IsShare result (marked_functions search.old.marks.items (entities_of entities.now)) (marked_functions search.new.marks.items (entities_of entities.now)) }
{
    let mark = search.marks[place];
    search.marks[place] = false;
    functions_if(mark, &entities[place].body)
}

/// How many functions an entity with this body counts for with this mark.
fn functions_if(mark: bool, body: &Body) -> u64
    ensures { result ≡ min (if mark then own_functions (body_of body.now) else 0) (2 ^ 64 - 1) }
{
    if mark { functions_of(body) } else { 0 }
}

/// How many functions all entities have themselves, as far as a `u64` counts.
pub(crate) fn functions_of_all(entities: &[Entity]) -> u64
    ensures { result ≡ min (total_functions (entities_of entities.now)) (2 ^ 64 - 1) }
{
    let mut total = 0u64;
    for entity in entities {
        total = total.saturating_add(functions_of(&entity.body));
    }
    total
}

/// How many functions an entity with this body has itself, as far as a `u64` counts.
fn functions_of(body: &Body) -> u64
    ensures { result ≡ min (own_functions (body_of body.now)) (2 ^ 64 - 1) }
{
    match body {
        Body::Interface { members, .. } => functions_of_members(members.as_slice()),
        Body::Struct { .. }
        | Body::Exception { .. }
        | Body::Enum { .. }
        | Body::Constants { .. }
        | Body::Typedef { .. }
        | Body::Service(_)
        | Body::Singleton(_) => 0,
    }
}

/// How many functions members are, as far as a `u64` counts.
fn functions_of_members(members: &[Member]) -> u64
    ensures { result ≡ min (functions_in (map member_of members.now)) (2 ^ 64 - 1) }
{
    let mut total = 0u64;
    for member in members {
        total = total.saturating_add(functions_of_one(member));
    }
    total
}

/// How many functions a member is: an attribute has a getter and, unless it is read-only, a setter.
fn functions_of_one(member: &Member) -> u64
    ensures { result ≡ functions_of_member (member_of member.now) }
{
    match member {
        Member::Attribute(attribute) => { if attribute.read_only { 1 } else { 2 } }
        Member::Method(_) => 1,
    }
}
