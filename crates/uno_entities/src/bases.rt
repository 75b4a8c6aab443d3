//! On which entities an entity stands: a search over its bases that marks each of them once.
ghost use Rattle.std.specs.Prelude.{◌≡◌, ◌<◌, [], ◌∷◌, length, map, take, IfOk, OnOk, slice_get, slice_set, replicate, false, true, Some};
ghost use Rattle.uno_model.specs.Entities as plain;
ghost use Rattle.uno_entities.specs.Marks.{MarksBases};
ghost use Rattle.uno_model.specs.Registry.{IsRising, stands_on_body, mandatory_bases, at_most_one};
ghost use Rattle.uno_entities.specs.Entities.{entity_of, entities_of, base_of, body_of};
ghost use Rattle.uno_entities.specs.Reaching.{Lists, Covers};
ghost use Rattle.uno_entities.specs.Spreading.{MarksPlace, Spreads};

use crate::finding::place_in;
use crate::{Base, Body, Entity, Name};
use std::alloc::Global;
use uno_base::NoMemory;

/// What is marked so far, and the places whose bases are still to be marked.
#[derive(Drop)]
pub struct Search {
    pub marks: Vec<bool>,
    pub pending: Vec<usize>,
}

/// A search over bases that can begin anew: it lists the places that it marks, so that it can be read and taken back without a look at the others.
#[derive(Drop)]
pub struct Reach {
    pub search: Search,
    pub places: Vec<usize>,
}

/// Marks the entity of a name, if it is there and not marked yet.
fn mark_name(entities: &[Entity], name: &str, search: &mut Search) -> Result<(), NoMemory>
    requires rising { IsRising (entities_of entities.now) }
    requires long { length search.old.marks.items ≡ length entities.now }
    ensures { OnOk result (Spreads (entities_of entities.now) (name.now ∷ []) search.old.marks.items search.old.pending.items search.new.marks.items search.new.pending.items) }
{
    match place_in(entities, name) {
        Ok(place) => mark_place(place, search),
        Err(_) => Ok(()),
    }
}

/// Marks a place, if it is not marked yet.
fn mark_place(place: usize, search: &mut Search) -> Result<(), NoMemory>
    requires { place < length search.old.marks.items }
    ensures { OnOk result (MarksPlace place search.old.marks.items search.old.pending.items search.new.marks.items search.new.pending.items) }
{
    if search.marks[place] {
        return Ok(());
    }
    search.pending.push(place)?;
    search.marks[place] = true;
    Ok(())
}

/// Marks the bases of an interface that are not optional.
fn mark_required(entities: &[Entity], bases: &[Base], search: &mut Search) -> Result<(), NoMemory>
    requires rising { IsRising (entities_of entities.now) }
    requires long { length search.old.marks.items ≡ length entities.now }
    ensures { OnOk result (Spreads (entities_of entities.now) (mandatory_bases (map base_of bases.now)) search.old.marks.items search.old.pending.items search.new.marks.items search.new.pending.items) }
{
    for base in bases {
        mark_unless_optional(entities, base, search)?;
    }
    Ok(())
}

/// Marks one base of an interface, unless it is optional.
fn mark_unless_optional(
    entities: &[Entity],
    base: &Base,
    search: &mut Search,
) -> Result<(), NoMemory>
    requires rising { IsRising (entities_of entities.now) }
    requires long { length search.old.marks.items ≡ length entities.now }
    ensures { OnOk result (Spreads (entities_of entities.now) (mandatory_bases (base_of base.now ∷ [])) search.old.marks.items search.old.pending.items search.new.marks.items search.new.pending.items) }
{
    if base.optional {
        return Ok(());
    }
    mark_name(entities, base.name.as_str(), search)
}

/// Marks the bases of the entity at a place.
fn mark_bases(entities: &[Entity], place: usize, search: &mut Search) -> Result<(), NoMemory>
    requires rising { IsRising (entities_of entities.now) }
    requires long { length search.old.marks.items ≡ length entities.now }
    requires place { place < length entities.now }
    ensures { OnOk result (Spreads (entities_of entities.now) (stands_on_body (slice_get (entities_of entities.now) place)) search.old.marks.items search.old.pending.items search.new.marks.items search.new.pending.items) }
{
    mark_bases_of(entities, &entities[place], search)
}

/// Marks the bases of an entity.
#[tactic(auto, using(crate::proofs::SpreadLemmas::no_names))]
fn mark_bases_of(entities: &[Entity], entity: &Entity, search: &mut Search) -> Result<(), NoMemory>
    requires rising { IsRising (entities_of entities.now) }
    requires long { length search.old.marks.items ≡ length entities.now }
    ensures { OnOk result (Spreads (entities_of entities.now) (stands_on_body (Some (entity_of entity.now))) search.old.marks.items search.old.pending.items search.new.marks.items search.new.pending.items) }
{
    match &entity.body {
        Body::Interface { bases, .. } => mark_required(entities, bases.as_slice(), search),
        Body::Struct { base, .. } | Body::Exception { base, .. } => {
            mark_base(entities, base, search)
        }
        Body::Enum { .. }
        | Body::Constants { .. }
        | Body::Typedef { .. }
        | Body::Service(_)
        | Body::Singleton(_) => Ok(()),
    }
}

/// Marks the base of a struct or an exception, where there is one.
fn mark_base(entities: &[Entity], base: &Option<Name>, search: &mut Search) -> Result<(), NoMemory>
    requires rising { IsRising (entities_of entities.now) }
    requires long { length search.old.marks.items ≡ length entities.now }
    ensures { OnOk result (Spreads (entities_of entities.now) (at_most_one base.now) search.old.marks.items search.old.pending.items search.new.marks.items search.new.pending.items) }
{
    match base {
        Some(name) => mark_name(entities, name.as_str(), search),
        None => Ok(()),
    }
}

/// A search over so many entities, with nothing marked.
pub fn nothing_reached(alloc: Global, count: usize) -> Result<Reach, NoMemory>
    ensures { IfOk result (λ reach. reach.search.marks.items ≡ replicate count false) }
{
    let marks = vec![in alloc; false; count]?;
    let pending = Vec::new(alloc);
    let places = Vec::new(alloc);
    Ok(Reach {
        search: Search { marks, pending },
        places,
    })
}

/// Begins at a place.
fn begin(place: usize, search: &mut Search) -> Result<(), NoMemory>
    requires { place < length search.old.marks.items }
    ensures marks { OnOk result (search.new.marks.items ≡ slice_set search.old.marks.items place true) }
    ensures pending { OnOk result (search.new.pending.items ≡ place ∷ []) }
{
    search.pending.clear();
    search.pending.push(place)?;
    search.marks[place] = true;
    Ok(())
}

/// Marks and lists all entities on which the one at a place stands, itself among them. Nothing is marked before.
pub fn reach_bases(entities: &[Entity], place: usize, reach: &mut Reach) -> Result<(), NoMemory>
    requires rising { IsRising (entities_of entities.now) }
    requires place { place < length entities.now }
    requires clear { reach.old.search.marks.items ≡ replicate (length entities.now) false }
    ensures bases { OnOk result ((e : plain.Entity) → slice_get (entities_of entities.now) place ≡ Some e → MarksBases (entities_of entities.now) e.name reach.new.search.marks.items) }
    ensures listed { OnOk result (Lists reach.new.search.marks.items reach.new.places.items) }
{
    reach.places.clear();
    begin(place, &mut reach.search)?;
    while let Some(next) = reach.search.pending.pop() {
        reach.places.push(next)?;
        mark_bases(entities, next, &mut reach.search)?;
    }
    Ok(())
}

/// Takes all marks back.
pub fn unmark(reach: &mut Reach)
    requires { Covers reach.old.search.marks.items reach.old.places.items }
    ensures clear { reach.new.search.marks.items ≡ replicate (length reach.old.search.marks.items) false }
    ensures places { reach.new.places.items ≡ reach.old.places.items }
{
    for index in 0..reach.places.len() {
        let place = reach.places[index];
        reach.search.marks[place] = false;
    }
}

/// Marks at all entities on which the one at a place stands, itself among them.
pub fn bases_of(alloc: Global, entities: &[Entity], place: usize) -> Result<Vec<bool>, NoMemory>
    requires rising { IsRising (entities_of entities.now) }
    requires place { place < length entities.now }
    ensures { IfOk result (λ marks. (e : plain.Entity) → slice_get (entities_of entities.now) place ≡ Some e → MarksBases (entities_of entities.now) e.name marks.items) }
{
    let mut reach = nothing_reached(alloc, entities.len())?;
    reach_bases(entities, place, &mut reach)?;
    let Reach { search, places: _ } = reach;
    let Search { marks, pending: _ } = search;
    Ok(marks)
}

/// Marks at all entities on which another one stands. What is marked is a help to choose an order: no promise rests on it.
pub fn all_bases(alloc: Global, entities: &[Entity]) -> Result<Vec<bool>, NoMemory>
    requires { IsRising (entities_of entities.now) }
    ensures { IfOk result (λ marks. length marks.items ≡ length entities.now) }
{
    let marks = vec![in alloc; false; entities.len()]?;
    let pending = Vec::new(alloc);
    let mut search = Search { marks, pending };
    for place in 0..entities.len() {
        mark_bases(entities, place, &mut search)?;
    }
    let Search { marks, pending: _ } = search;
    Ok(marks)
}
