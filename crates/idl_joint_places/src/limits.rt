//! The eleventh rule: entities are whole and within the limits.
ghost use Rattle.std.specs.List.{AllByRecursion, flat_map};
ghost use Rattle.std.specs.Prelude.{◌≡◌, ℕ, get_or, map, OnOk, true};
ghost use Rattle.idl_joint_places.specs.There.{AreKept, failing_there};
ghost use Rattle.idl_meaning_model.specs.Declarations.{entities_declared};
ghost use Rattle.idl_names.specs.Collected.{HasNumbers, declared_of};
ghost use Rattle.idl_places.specs.Places.{AddsPlaces};
ghost use Rattle.idl_rules_model.specs.Whole.{past_limits};
ghost use Rattle.registry_text_model.specs.WholeWithinLimits.{is_whole_within_limits};
ghost use Rattle.uno_entities.specs.Entities.{entities_of, entity_of};
ghost use Rattle.uno_model.specs.Circles.{HasNoCircle};
ghost use Rattle.uno_model.specs.Registry.{IsRising, leads_to};

use crate::found::{is_forward, place_there};
use idl_names::{Declared, Paths};
use idl_places::add_unless;
use idl_trees::Place;
use std::alloc::Global;
use uno_base::NoMemory;
use uno_entities::Entity;
use whole_entities::{is_marked, which_are_whole};

/// The places of declarations whose entities are not whole, or past a limit.
pub fn add_past_limits(
    alloc: Global,
    paths: &Paths<'_>,
    all: &[Declared<'_>],
    entities: &[Entity],
    places: &mut Vec<Place>,
) -> Result<(), NoMemory>
    requires rising { IsRising (entities_of entities.now) }
    requires no_circle { HasNoCircle (leads_to (entities_of entities.now)) }
    requires numbers { AllByRecursion (HasNumbers paths.now) all.now }
    requires kept { AreKept (map (declared_of paths.now) all.now) (entities_of entities.now) }
    ensures { OnOk result (AddsPlaces places.old.items (flat_map (past_limits (map (declared_of paths.now) all.now) (entities_of entities.now)) (entities_declared (map (declared_of paths.now) all.now))) places.new.items) }
{
    let whole = which_are_whole(alloc, entities)?;
    add_unmarked(alloc, paths, all, entities, whole.as_slice(), places)
}

/// The places of declarations whose entities are not marked as whole. Where all are, no declaration is sought.
fn add_unmarked(
    alloc: Global,
    paths: &Paths<'_>,
    all: &[Declared<'_>],
    entities: &[Entity],
    marks: &[bool],
    places: &mut Vec<Place>,
) -> Result<(), NoMemory>
    requires rising { IsRising (entities_of entities.now) }
    requires numbers { AllByRecursion (HasNumbers paths.now) all.now }
    requires marks { marks.now ≡ map (λ e. is_whole_within_limits (entities_of entities.now) (entity_of e)) entities.now }
    ensures { OnOk result (AddsPlaces places.old.items (flat_map (failing_there (is_whole_within_limits (entities_of entities.now)) (entities_of entities.now)) (map (declared_of paths.now) all.now)) places.new.items) }
{
    if are_all_marked(marks) {
        return Ok(());
    }
    add_each_unmarked(alloc, paths, all, entities, marks, places)
}

fn are_all_marked(marks: &[bool]) -> bool
    ensures { result ≡ true → (place : ℕ) → get_or marks.now place true ≡ true }
{
    for place in 0..marks.len() {
        if !is_marked(marks, place) {
            return false;
        }
    }
    true
}

fn add_each_unmarked(
    alloc: Global,
    paths: &Paths<'_>,
    all: &[Declared<'_>],
    entities: &[Entity],
    marks: &[bool],
    places: &mut Vec<Place>,
) -> Result<(), NoMemory>
    requires rising { IsRising (entities_of entities.now) }
    requires numbers { AllByRecursion (HasNumbers paths.now) all.now }
    requires marks { marks.now ≡ map (λ e. is_whole_within_limits (entities_of entities.now) (entity_of e)) entities.now }
    ensures { OnOk result (AddsPlaces places.old.items (flat_map (failing_there (is_whole_within_limits (entities_of entities.now)) (entities_of entities.now)) (map (declared_of paths.now) all.now)) places.new.items) }
{
    for declared in all {
        add_if_unmarked(alloc, paths, declared, entities, marks, places)?;
    }
    Ok(())
}

fn add_if_unmarked(
    alloc: Global,
    paths: &Paths<'_>,
    declared: &Declared<'_>,
    entities: &[Entity],
    marks: &[bool],
    places: &mut Vec<Place>,
) -> Result<(), NoMemory>
    requires rising { IsRising (entities_of entities.now) }
    requires numbers { HasNumbers paths.now declared.now }
    requires marks { marks.now ≡ map (λ e. is_whole_within_limits (entities_of entities.now) (entity_of e)) entities.now }
    ensures { OnOk result (AddsPlaces places.old.items (failing_there (is_whole_within_limits (entities_of entities.now)) (entities_of entities.now) (declared_of paths.now declared.now)) places.new.items) }
{
    if is_forward(declared.body) {
        return Ok(());
    }
    let found = place_there(alloc, paths, declared, entities)?;
    let Some(place) = found else {
        return Ok(());
    };
    add_unless(places, is_marked(marks, place), declared.name.place)
}
