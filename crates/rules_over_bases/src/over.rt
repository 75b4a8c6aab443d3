//! That the names differ that an entity has over its bases.
ghost use Rattle.std.specs.Prelude.{◌≡◌, ◌<◌, [], true, false, map, length, replicate, IfOk, OnOk, slice_get, slice_set};
ghost use Rattle.std.specs.List.{flat_map, list_all};
ghost use Rattle.uno_model.specs.Circles.{HasNoCircle};
ghost use Rattle.uno_model.specs.Registry.{IsRising, leads_to};
ghost use Rattle.uno_model.specs.Sound.{all_differ};
ghost use Rattle.uno_entities.specs.Entities.{entities_of, body_of, member_of, attribute_of};
ghost use Rattle.uno_entities.specs.Reaching.{Covers};
ghost use Rattle.rules_over_bases.specs.Known.{KeepsAt, KnownToDiffer, differ_over};
ghost use Rattle.rules_over_bases.specs.OwnNames.{accessor_names, names_of_member, own_names, row_if, marked_names};
ghost use Rattle.rules_over_bases.specs.Seen.{HasSeen, Sees, SeesShare, SeenAll};
ghost use Rattle.rules_over_bases.specs.Trail.{SeenOver};

use crate::named::add_all;
use crate::seen::Seen;
use std::alloc::Global;
use uno_base::NoMemory;
use uno_entities::{
    Attribute, Body, Entity, Member, Reach, Search, mark_places, reach_bases, unmark,
};

/// Whether the names of the entity at a place differ over its bases, searched only where it is not known.
pub(crate) fn names_differ_over(
    alloc: Global,
    entities: &[Entity],
    place: usize,
    known: &mut [bool],
    reach: &mut Reach,
) -> Result<bool, NoMemory>
    requires rising { IsRising (entities_of entities.now) }
    requires no_circle { HasNoCircle (leads_to (entities_of entities.now)) }
    requires place { place < length entities.now }
    requires before { KnownToDiffer (entities_of entities.now) known.old }
    requires clear { reach.old.search.marks.items ≡ replicate (length entities.now) false }
    ensures differ { IfOk result (λ b. KeepsAt (differ_over (entities_of entities.now)) (entities_of entities.now) place b) }
    ensures after { OnOk result (KnownToDiffer (entities_of entities.now) known.new) }
    ensures clear { OnOk result (reach.new.search.marks.items ≡ replicate (length entities.now) false) }
{
    if known[place] {
        return Ok(true);
    }
    let mut seen = Seen::new(alloc);
    search(entities, place, known, &mut seen, reach)
}

/// Whether a search from a place finds no name twice. Where it does not, so it is known of all that it reaches.
pub(crate) fn search<'a>(
    entities: &'a [Entity],
    place: usize,
    known: &mut [bool],
    seen: &mut Seen<'a>,
    reach: &mut Reach,
) -> Result<bool, NoMemory>
    requires rising { IsRising (entities_of entities.now) }
    requires no_circle { HasNoCircle (leads_to (entities_of entities.now)) }
    requires place { place < length entities.now }
    requires before { KnownToDiffer (entities_of entities.now) known.old }
    requires empty { HasSeen seen.old [] }
    requires clear { reach.old.search.marks.items ≡ replicate (length entities.now) false }
    ensures differ { IfOk result (λ b. KeepsAt (differ_over (entities_of entities.now)) (entities_of entities.now) place b) }
    ensures after { OnOk result (KnownToDiffer (entities_of entities.now) known.new) }
    ensures seen { IfOk result (λ b. SeenOver (entities_of entities.now) place seen.new b) }
    ensures clear { OnOk result (reach.new.search.marks.items ≡ replicate (length entities.now) false) }
{
    reach_bases(entities, place, reach)?;
    let differ = reached_differ(entities, seen, reach)?;
    unmark(reach);
    if !differ {
        return Ok(false);
    }
    mark_places(reach.places.as_slice(), known);
    Ok(true)
}

/// Whether the names differ that the reached entities declare. Marks are taken back as far as names are seen.
fn reached_differ<'a>(
    entities: &'a [Entity],
    seen: &mut Seen<'a>,
    reach: &mut Reach,
) -> Result<bool, NoMemory>
    requires long { length reach.old.search.marks.items ≡ length entities.now }
    requires covered { Covers reach.old.search.marks.items reach.old.places.items }
    requires empty { HasSeen seen.old [] }
    ensures differ { IfOk result (λ b. b ≡ all_differ (marked_names reach.old.search.marks.items (entities_of entities.now))) }
    ensures seen { IfOk result (λ b. SeenAll seen.new (marked_names reach.old.search.marks.items (entities_of entities.now)) b) }
    ensures covered { OnOk result (Covers reach.new.search.marks.items reach.new.places.items) }
    ensures long { OnOk result (length reach.new.search.marks.items ≡ length entities.now) }
    ensures places { OnOk result (reach.new.places.items ≡ reach.old.places.items) }
{
    for index in 0..reach.places.len() {
        let place = reach.places[index];
        if !add_at(seen, entities, place, &mut reach.search)? {
            return Ok(false);
        }
    }
    Ok(true)
}

/// Sees the names that the entity at a place declares, if it is marked. The mark is taken back.
fn add_at<'a>(
    seen: &mut Seen<'a>,
    entities: &'a [Entity],
    place: usize,
    search: &mut Search,
) -> Result<bool, NoMemory>
    requires long { length search.old.marks.items ≡ length entities.now }
    requires place { place < length entities.now }
    ensures marks { OnOk result (search.new.marks.items ≡ slice_set search.old.marks.items place false) }
    ensures seen { IfOk result (λ are_new. SeesShare seen.old seen.new (marked_names search.old.marks.items (entities_of entities.now)) (marked_names (slice_set search.old.marks.items place false) (entities_of entities.now)) are_new) }
{
    let mark = search.marks[place];
    search.marks[place] = false;
    add_if_marked(seen, mark, &entities[place].body)
}

fn add_if_marked<'a>(seen: &mut Seen<'a>, mark: bool, body: &'a Body) -> Result<bool, NoMemory>
    ensures { IfOk result (λ are_new. Sees seen.old seen.new (row_if mark (body_of body.now)) are_new) }
{
    if mark { add_own(seen, body) } else { Ok(true) }
}

/// Sees the names of the functions of an interface, or of the members of a struct or an exception, its bases left out.
#[tactic(auto, using(crate::proofs::OwnLemmas::names_through))]
pub(crate) fn add_own<'a>(seen: &mut Seen<'a>, body: &'a Body) -> Result<bool, NoMemory>
    ensures { IfOk result (λ are_new. Sees seen.old seen.new (own_names (body_of body.now)) are_new) }
{
    match body {
        Body::Interface { members, .. } => add_members(seen, members.as_slice()),
        Body::Struct { members, .. } | Body::Exception { members, .. } => {
            add_all(seen, members.as_slice())
        }
        Body::Enum { .. }
        | Body::Constants { .. }
        | Body::Typedef { .. }
        | Body::Service(_)
        | Body::Singleton(_) => Ok(true),
    }
}

fn add_members<'a>(seen: &mut Seen<'a>, members: &'a [Member]) -> Result<bool, NoMemory>
    ensures { IfOk result (λ are_new. Sees seen.old seen.new (flat_map names_of_member (map member_of members.now)) are_new) }
{
    for member in members {
        if !add_member(seen, member)? {
            return Ok(false);
        }
    }
    Ok(true)
}

fn add_member<'a>(seen: &mut Seen<'a>, member: &'a Member) -> Result<bool, NoMemory>
    ensures { IfOk result (λ are_new. Sees seen.old seen.new (names_of_member (member_of member.now)) are_new) }
{
    match member {
        Member::Attribute(attribute) => add_attribute(seen, attribute),
        Member::Method(method) => seen.add(method.name.as_str()),
    }
}

/// A read-only attribute has no setter.
fn add_attribute<'a>(seen: &mut Seen<'a>, attribute: &'a Attribute) -> Result<bool, NoMemory>
    ensures { IfOk result (λ are_new. Sees seen.old seen.new (accessor_names (attribute_of attribute.now)) are_new) }
{
    if !seen.add_getter(attribute.name.as_str())? {
        return Ok(false);
    }
    if attribute.read_only {
        return Ok(true);
    }
    seen.add_setter(attribute.name.as_str())
}
