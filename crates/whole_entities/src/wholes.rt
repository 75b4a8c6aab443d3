//! Which entities have what they may not be without, and are within the limits.
ghost use Rattle.std.specs.Prelude.{◌≡◌, ◌<◌, get_or, length, map, replicate, false, true, IfOk, OnOk};
ghost use Rattle.uno_model.specs.Circles.{HasNoCircle};
ghost use Rattle.uno_model.specs.Registry.{IsRising, leads_to};
ghost use Rattle.uno_model.specs.Sound.{has_member};
ghost use Rattle.uno_entities.specs.Counts.{KnownFew};
ghost use Rattle.uno_entities.specs.Entities.{entities_of, entity_of};
ghost use Rattle.registry_text_model.specs.WholeWithinLimits.{is_whole_within_limits};
ghost use Rattle.rules_over_bases.specs.Known.{KeepsAt};

use crate::bare::has_member_or_none;
use entity_rules::{is_complete, is_within_limits};
use std::alloc::Global;
use uno_base::NoMemory;
use uno_entities::{Entity, Reach, all_have_few_functions, has_few_functions, nothing_reached};

/// Marks the entities that are whole and within the limits.
pub fn which_are_whole(alloc: Global, entities: &[Entity]) -> Result<Vec<bool>, NoMemory>
    requires rising { IsRising (entities_of entities.now) }
    requires no_circle { HasNoCircle (leads_to (entities_of entities.now)) }
    ensures { IfOk result (λ whole. whole.items ≡ map (λ e. is_whole_within_limits (entities_of entities.now) (entity_of e)) entities.now) }
{
    let members = which_have_members(alloc, entities)?;
    let mut few = known_few(alloc, entities)?;
    let mut reach = nothing_reached(alloc, entities.len())?;
    let mut whole = Vec::new(alloc);
    for place in 0..entities.len() {
        let member = is_marked(members.as_slice(), place);
        let right = is_whole_with(entities, place, member, &mut few, &mut reach)?;
        whole.push(right)?;
    }
    Ok(whole)
}

/// Whether the entity at a place is marked; what is not there is as good as that.
pub fn is_marked(marks: &[bool], place: usize) -> bool
    ensures { result ≡ get_or marks.now place true }
{
    match marks.get(place) {
        Some(mark) => *mark,
        None => true,
    }
}

/// Marks the entities that have a member, if they are structs or exceptions.
fn which_have_members(alloc: Global, entities: &[Entity]) -> Result<Vec<bool>, NoMemory>
    requires rising { IsRising (entities_of entities.now) }
    requires no_circle { HasNoCircle (leads_to (entities_of entities.now)) }
    ensures { IfOk result (λ marks. marks.items ≡ map (λ e. has_member (entities_of entities.now) (entity_of e)) entities.now) }
{
    let mut known = vec![in alloc; false; entities.len()]?;
    let mut bare = vec![in alloc; false; entities.len()]?;
    let mut marks = Vec::new(alloc);
    for place in 0..entities.len() {
        let member = has_member_or_none(entities, place, &mut known, &mut bare);
        marks.push(member)?;
    }
    Ok(marks)
}

/// The same of the entity at a place, where it is known whether it has a member.
fn is_whole_with(
    entities: &[Entity],
    place: usize,
    member: bool,
    few: &mut [bool],
    reach: &mut Reach,
) -> Result<bool, NoMemory>
    requires rising { IsRising (entities_of entities.now) }
    requires no_circle { HasNoCircle (leads_to (entities_of entities.now)) }
    requires place { place < length entities.now }
    requires member { KeepsAt (has_member (entities_of entities.now)) (entities_of entities.now) place member }
    requires few { KnownFew (entities_of entities.now) few.old }
    requires clear { reach.old.search.marks.items ≡ replicate (length entities.now) false }
    ensures whole { IfOk result (λ b. KeepsAt (is_whole_within_limits (entities_of entities.now)) (entities_of entities.now) place b) }
    ensures few { OnOk result (KnownFew (entities_of entities.now) few.new) }
    ensures clear { OnOk result (reach.new.search.marks.items ≡ replicate (length entities.now) false) }
{
    if !member {
        return Ok(false);
    }
    if !is_complete(&entities[place]) {
        return Ok(false);
    }
    if !is_within_limits(&entities[place]) {
        return Ok(false);
    }
    has_few_functions(entities, place, few, reach)
}

/// Marks all entities where each has few functions, and otherwise none.
fn known_few(alloc: Global, entities: &[Entity]) -> Result<Vec<bool>, NoMemory>
    requires rising { IsRising (entities_of entities.now) }
    requires no_circle { HasNoCircle (leads_to (entities_of entities.now)) }
    ensures { IfOk result (λ known. KnownFew (entities_of entities.now) known.items) }
{
    let few = all_have_few_functions(alloc, entities)?;
    let known = vec![in alloc; few; entities.len()]?;
    Ok(known)
}
