//! The registry of the entities that declarations mean.
ghost use Rattle.std.specs.List.Sorted.{IsPermutation};
ghost use Rattle.std.specs.Prelude.{◌≡◌, ◌∷◌, ◌++◌, [], ℕ, IfOk, List, OnOk, map};
ghost use Rattle.idl_entities.specs.Telling.{entity_told};
ghost use Rattle.idl_check.specs.Apart.{NamesDiffer};
ghost use Rattle.uno_entities.specs.Entities.{entities_of, entity_of};
ghost use Rattle.uno_model.specs.BuiltIn.{built_in};
ghost use Rattle.uno_model.specs.Registry.{find_entity};

use idl_entities::{Meanings, entity_of};
use std::alloc::Global;
use uno_base::NoMemory;
use uno_entities::Entity;
use uno_types::{AddError, Registry};

/// The registry of the entities of these declarations, with those that are built in.
pub(crate) fn registry_told<M: Meanings>(alloc: Global, all: &[M]) -> Result<Registry, NoMemory>
    requires apart { NamesDiffer (built_in ++ map entity_told (map M.telling all.now)) }
    ensures { IfOk result (λ registry. (name : List ℕ) → find_entity name registry ≡ find_entity name (built_in ++ map entity_told (map M.telling all.now))) }
{
    let mut entities = entities_told(alloc, all)?;
    put_in_order(&mut entities);
    registry_of(alloc, entities)
}

fn entities_told<M: Meanings>(alloc: Global, all: &[M]) -> Result<Vec<Entity>, NoMemory>
    ensures { IfOk result (λ entities. entities_of entities.items ≡ map entity_told (map M.telling all.now)) }
{
    let mut entities = Vec::new(alloc);
    for meanings in all {
        let entity = entity_of(alloc, meanings)?;
        entities.push(entity)?;
    }
    Ok(entities)
}

/// Puts entities in the order of their names, in which each is added behind all others.
fn put_in_order(entities: &mut Vec<Entity>)
    ensures { IsPermutation entities.old.items entities.new.items }
{
    entities.sort_unstable_by(|a, b| a.name.as_str().cmp(b.name.as_str()));
}

/// Of several entities of one name the first is in the registry.
fn registry_of(alloc: Global, entities: Vec<Entity>) -> Result<Registry, NoMemory>
    ensures { IfOk result (λ registry. (name : List ℕ) → find_entity name registry ≡ find_entity name (built_in ++ entities_of entities.items)) }
{
    let mut registry = Registry::new(alloc)?;
    for entity in entities {
        add(&mut registry, entity)?;
    }
    Ok(registry)
}

/// Adds an entity, unless its name is there.
fn add(registry: &mut Registry, entity: Entity) -> Result<(), NoMemory>
    ensures { OnOk result ((name : List ℕ) → find_entity name registry.new ≡ find_entity name (registry.old ++ entity_of entity ∷ [])) }
{
    match registry.add(entity) {
        Ok(()) => Ok(()),
        Err(AddError::Twice) => Ok(()),
        Err(AddError::NoMemory) => Err(NoMemory),
    }
}
