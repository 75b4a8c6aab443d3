//! The names of members, parameters, constructors and items differ, and in an interface, a struct or an exception also those that
//! it has from its bases.
ghost use Rattle.std.specs.Prelude.{◌≡◌, ◌<◌, not, false, length, replicate, None, IfOk, OnOk};
ghost use Rattle.std.specs.List.{position};
ghost use Rattle.uno_model.specs.Circles.{HasNoCircle};
ghost use Rattle.uno_model.specs.Registry.{IsRising, leads_to};
ghost use Rattle.uno_entities.specs.Entities.{entities_of, entity_of};
ghost use Rattle.registry_text_model.specs.BasesAreOfTheirKind.{bases_are_of_their_kind};
ghost use Rattle.registry_text_model.specs.NamesDiffer.{names_differ};
ghost use Rattle.rules_over_bases.specs.Known.{KeepsAt, KnownToDiffer};

use crate::over::names_differ_over;
use crate::own::own_names_differ;
use crate::walk::known_to_differ;
use std::alloc::Global;
use uno_base::NoMemory;
use uno_entities::{Entity, Reach, nothing_reached};

/// The place of the first entity with two of one name.
pub fn first_with_twins(alloc: Global, entities: &[Entity]) -> Result<Option<usize>, NoMemory>
    requires rising { IsRising (entities_of entities.now) }
    requires no_circle { HasNoCircle (leads_to (entities_of entities.now)) }
    requires kinds { position (λ e. not (bases_are_of_their_kind (entities_of entities.now) (entity_of e))) entities.now ≡ None }
    ensures { IfOk result (λ place. place ≡ position (λ e. not (names_differ (entities_of entities.now) (entity_of e))) entities.now) }
{
    let mut reach = nothing_reached(alloc, entities.len())?;
    let mut known = known_to_differ(alloc, entities, &mut reach)?;
    for place in 0..entities.len() {
        if !names_differ(alloc, entities, place, known.as_mut_slice(), &mut reach)? {
            return Ok(Some(place));
        }
    }
    Ok(None)
}

/// Whether no two names of the entity at a place are one.
fn names_differ(
    alloc: Global,
    entities: &[Entity],
    place: usize,
    known: &mut [bool],
    reach: &mut Reach,
) -> Result<bool, NoMemory>
    requires rising { IsRising (entities_of entities.now) }
    requires no_circle { HasNoCircle (leads_to (entities_of entities.now)) }
    requires kinds { position (λ e. not (bases_are_of_their_kind (entities_of entities.now) (entity_of e))) entities.now ≡ None }
    requires place { place < length entities.now }
    requires before { KnownToDiffer (entities_of entities.now) known.old }
    requires clear { reach.old.search.marks.items ≡ replicate (length entities.now) false }
    ensures differ { IfOk result (λ b. KeepsAt (names_differ (entities_of entities.now)) (entities_of entities.now) place b) }
    ensures after { OnOk result (KnownToDiffer (entities_of entities.now) known.new) }
    ensures clear { OnOk result (reach.new.search.marks.items ≡ replicate (length entities.now) false) }
{
    if !own_names_differ(alloc, &entities[place].body)? {
        return Ok(false);
    }
    names_differ_over(alloc, entities, place, known, reach)
}
