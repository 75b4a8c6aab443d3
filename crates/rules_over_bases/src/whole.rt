//! An entity has what it may not be without, and the limits hold.
ghost use Rattle.std.specs.Prelude.{◌≡◌, ◌<◌, not, length, replicate, false, IfOk, OnOk};
ghost use Rattle.std.specs.List.{position};
ghost use Rattle.uno_model.specs.Circles.{HasNoCircle};
ghost use Rattle.uno_model.specs.Registry.{IsRising, leads_to};
ghost use Rattle.uno_entities.specs.Counts.{KnownFew};
ghost use Rattle.uno_entities.specs.Entities.{entities_of, entity_of};
ghost use Rattle.registry_text_model.specs.WholeWithinLimits.{is_whole_within_limits};
ghost use Rattle.rules_over_bases.specs.Known.{KeepsAt, KnownMembers};

use crate::member::has_member;
use entity_rules::{is_complete, is_within_limits};
use std::alloc::Global;
use uno_base::NoMemory;
use uno_entities::{Entity, Reach, all_have_few_functions, has_few_functions, nothing_reached};

/// The place of the first entity that is not whole or not within the limits.
pub fn first_not_whole(alloc: Global, entities: &[Entity]) -> Result<Option<usize>, NoMemory>
    requires rising { IsRising (entities_of entities.now) }
    requires no_circle { HasNoCircle (leads_to (entities_of entities.now)) }
    ensures { IfOk result (λ place. place ≡ position (λ e. not (is_whole_within_limits (entities_of entities.now) (entity_of e))) entities.now) }
{
    let mut few = known_few(alloc, entities)?;
    let mut members = vec![in alloc; false; entities.len()]?;
    let mut reach = nothing_reached(alloc, entities.len())?;
    for place in 0..entities.len() {
        if !is_whole(entities, place, &mut few, &mut members, &mut reach)? {
            return Ok(Some(place));
        }
    }
    Ok(None)
}

/// Marks all entities where each has few functions, and otherwise none.
fn known_few(alloc: Global, entities: &[Entity]) -> Result<Vec<bool>, NoMemory>
    requires rising { IsRising (entities_of entities.now) }
    requires no_circle { HasNoCircle (leads_to (entities_of entities.now)) }
    ensures { IfOk result (λ known. KnownFew (entities_of entities.now) known.items) }
{
    let few = all_have_few_functions(alloc, entities)?;
    let known = vec![in alloc; few; entities.len()]?;
    Ok(known)
}

/// Whether the entity at a place is whole and within the limits.
fn is_whole(
    entities: &[Entity],
    place: usize,
    few: &mut [bool],
    members: &mut [bool],
    reach: &mut Reach,
) -> Result<bool, NoMemory>
    requires rising { IsRising (entities_of entities.now) }
    requires no_circle { HasNoCircle (leads_to (entities_of entities.now)) }
    requires place { place < length entities.now }
    requires few { KnownFew (entities_of entities.now) few.old }
    requires members { KnownMembers (entities_of entities.now) members.old }
    requires clear { reach.old.search.marks.items ≡ replicate (length entities.now) false }
    ensures whole { IfOk result (λ b. KeepsAt (is_whole_within_limits (entities_of entities.now)) (entities_of entities.now) place b) }
    ensures few { OnOk result (KnownFew (entities_of entities.now) few.new) }
    ensures members { OnOk result (KnownMembers (entities_of entities.now) members.new) }
    ensures clear { OnOk result (reach.new.search.marks.items ≡ replicate (length entities.now) false) }
{
    if !is_complete(&entities[place]) {
        return Ok(false);
    }
    if !is_within_limits(&entities[place]) {
        return Ok(false);
    }
    if !has_member(entities, place, members) {
        return Ok(false);
    }
    has_few_functions(entities, place, few, reach)
}
