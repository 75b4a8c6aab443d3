//! Rules that are asked of one declaration after the other: of each, the least place where it is broken.
ghost use Rattle.std.specs.List.{All, flat_map};
ghost use Rattle.std.specs.Prelude.{◌≡◌, IfOk, List, map};
ghost use Rattle.idl_check.specs.Broken.{broken_told, values_told};
ghost use Rattle.idl_joint_places.specs.Circles.{FindsLeast};
ghost use Rattle.idl_places.specs.Classes.{KeepsClasses};
ghost use Rattle.registry_text_model.specs.Rules as rule;
ghost use Rattle.uno_entities.specs.Entities.{entities_of};
ghost use Rattle.uno_model.specs.Entities as uno;
ghost use Rattle.uno_model.specs.Registry.{IsRising};

use idl_entities::Meanings;
use idl_places::{
    add_giving_one_way, add_wrong_bases, add_wrong_constants, add_wrong_items, add_wrong_parts,
    add_wrong_raises, add_wrong_targets, add_wrong_types, least,
};
use idl_trees::Place;
use std::alloc::Global;
use uno_base::NoMemory;
use uno_entities::Entity;

/// The first rule: bases of another kind, or written in two ways.
pub(crate) fn wrong_base<M: Meanings>(
    alloc: Global,
    all: &[M],
    entities: &[Entity],
) -> Result<Option<Place>, NoMemory>
    requires rising { IsRising (entities_of entities.now) }
    ensures { IfOk result (λ found. FindsLeast (flat_map (broken_told rule.bases (entities_of entities.now)) (map M.telling all.now)) found) }
{
    let mut places = Vec::new(alloc);
    for meanings in all {
        add_wrong_bases(meanings, entities, &mut places)?;
    }
    Ok(least(places.as_slice()))
}

/// The fourth rule: one-way methods that give something back.
pub(crate) fn giving_one_way<M: Meanings>(
    alloc: Global,
    all: &[M],
) -> Result<Option<Place>, NoMemory>
    requires classes { All (λ m. KeepsClasses (M.telling m).kept) all.now }
    ensures { (reg : List uno.Entity) → IfOk result (λ found. FindsLeast (flat_map (broken_told rule.one_way reg) (map M.telling all.now)) found) }
{
    let mut places = Vec::new(alloc);
    for meanings in all {
        add_giving_one_way(meanings, &mut places)?;
    }
    Ok(least(places.as_slice()))
}

/// The fifth rule: what is raised that is no exception, and setters of what is read-only that raise.
pub(crate) fn wrongly_raised<M: Meanings>(
    alloc: Global,
    all: &[M],
    entities: &[Entity],
) -> Result<Option<Place>, NoMemory>
    requires rising { IsRising (entities_of entities.now) }
    ensures { IfOk result (λ found. FindsLeast (flat_map (broken_told rule.raised (entities_of entities.now)) (map M.telling all.now)) found) }
{
    let mut places = Vec::new(alloc);
    for meanings in all {
        add_wrong_raises(meanings, entities, &mut places)?;
    }
    Ok(least(places.as_slice()))
}

/// The eighth rule: services over what is no interface or service.
pub(crate) fn wrong_part<M: Meanings>(
    alloc: Global,
    all: &[M],
    entities: &[Entity],
) -> Result<Option<Place>, NoMemory>
    requires rising { IsRising (entities_of entities.now) }
    ensures { IfOk result (λ found. FindsLeast (flat_map (broken_told rule.services (entities_of entities.now)) (map M.telling all.now)) found) }
{
    let mut places = Vec::new(alloc);
    for meanings in all {
        add_wrong_parts(meanings, entities, &mut places)?;
    }
    Ok(least(places.as_slice()))
}

/// The ninth rule: singletons of what is no interface or service.
pub(crate) fn wrong_target<M: Meanings>(
    alloc: Global,
    all: &[M],
    entities: &[Entity],
) -> Result<Option<Place>, NoMemory>
    requires rising { IsRising (entities_of entities.now) }
    ensures { IfOk result (λ found. FindsLeast (flat_map (broken_told rule.singletons (entities_of entities.now)) (map M.telling all.now)) found) }
{
    let mut places = Vec::new(alloc);
    for meanings in all {
        add_wrong_targets(meanings, entities, &mut places)?;
    }
    Ok(least(places.as_slice()))
}

/// The tenth rule: types that may not stand where they do.
pub(crate) fn wrong_type<M: Meanings>(
    alloc: Global,
    all: &[M],
    entities: &[Entity],
) -> Result<Option<Place>, NoMemory>
    requires rising { IsRising (entities_of entities.now) }
    requires classes { All (λ m. KeepsClasses (M.telling m).kept) all.now }
    ensures { IfOk result (λ found. FindsLeast (flat_map (broken_told rule.types (entities_of entities.now)) (map M.telling all.now)) found) }
{
    let mut places = Vec::new(alloc);
    for meanings in all {
        add_wrong_types(meanings, entities, &mut places)?;
    }
    Ok(least(places.as_slice()))
}

/// The sixth rule: items without a value of `long`. The values are those of the items or constants of each declaration.
pub(crate) fn wrong_item<M: Meanings>(
    alloc: Global,
    all: &[M],
    values: &[&[Option<i128>]],
) -> Result<Option<Place>, NoMemory>
    requires values { map (λ v. v.now) values.now ≡ map values_told (map M.telling all.now) }
    ensures { (reg : List uno.Entity) → IfOk result (λ found. FindsLeast (flat_map (broken_told rule.values reg) (map M.telling all.now)) found) }
{
    let mut places = Vec::new(alloc);
    for number in 0..all.len() {
        add_wrong_items(&all[number], values[number], &mut places)?;
    }
    Ok(least(places.as_slice()))
}

/// The seventh rule: constants without a value of their type, or of a type that has none.
pub(crate) fn wrong_constant<M: Meanings>(
    alloc: Global,
    all: &[M],
    values: &[&[Option<i128>]],
) -> Result<Option<Place>, NoMemory>
    requires classes { All (λ m. KeepsClasses (M.telling m).kept) all.now }
    requires values { map (λ v. v.now) values.now ≡ map values_told (map M.telling all.now) }
    ensures { (reg : List uno.Entity) → IfOk result (λ found. FindsLeast (flat_map (broken_told rule.constant_values reg) (map M.telling all.now)) found) }
{
    let mut places = Vec::new(alloc);
    for number in 0..all.len() {
        add_wrong_constants(&all[number], values[number], &mut places)?;
    }
    Ok(least(places.as_slice()))
}
