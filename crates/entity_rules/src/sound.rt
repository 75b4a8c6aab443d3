//! All rules together.
ghost use Rattle.std.specs.Prelude.{◌≡◌, ◌↔◌, IfOk, IsTrue};
ghost use Rattle.std.specs.List.{list_all};
ghost use Rattle.uno_model.specs.Registry.{IsRising};
ghost use Rattle.uno_model.specs.Sound.{IsSound, items_differ};
ghost use Rattle.uno_entities.specs.Entities.{entity_of, entities_of};
ghost use Rattle.entity_rules.specs.Rules.{keeps_rules};

use crate::{
    all_have_members, bases_known, has_no_circles, is_complete, is_named, is_within_limits,
    items_differ, raises_known, services_known, types_allowed, types_known,
};
use std::alloc::Global;
use uno_base::NoMemory;
use uno_entities::{Entity, all_have_few_functions};

/// Whether entities in rising order of their names keep all rules. Built-in entities are asked as all others are.
pub fn is_sound(alloc: Global, entities: &[Entity]) -> Result<bool, NoMemory>
    requires { IsRising (entities_of entities.now) }
    ensures { IfOk result (λ sound. IsTrue sound ↔ IsSound (entities_of entities.now)) }
{
    if !all_keep_rules(entities, entities) {
        return Ok(false);
    }
    if !all_items_differ(alloc, entities)? {
        return Ok(false);
    }
    if !has_no_circles(alloc, entities)? {
        return Ok(false);
    }
    if !all_have_members(entities) {
        return Ok(false);
    }
    all_have_few_functions(alloc, entities)
}

/// Whether each keeps the rules that take no memory and ask no other entity's bases.
fn all_keep_rules(entities: &[Entity], asked: &[Entity]) -> bool
    requires { IsRising (entities_of entities.now) }
    ensures { result ≡ list_all (λ e. keeps_rules (entities_of entities.now) (entity_of e)) asked.now }
{
    asked.iter().all(|entity| keeps_rules(entities, entity))
}

fn keeps_rules(entities: &[Entity], entity: &Entity) -> bool
    requires { IsRising (entities_of entities.now) }
    ensures { result ≡ keeps_rules (entities_of entities.now) (entity_of entity.now) }
{
    is_named(entity)
        && is_complete(entity)
        && is_within_limits(entity)
        && types_allowed(&entity.body)
        && bases_known(entities, &entity.body)
        && raises_known(entities, &entity.body)
        && services_known(entities, &entity.body)
        && types_known(entities, &entity.body)
}

/// Whether the items of each enum have different names.
fn all_items_differ(alloc: Global, entities: &[Entity]) -> Result<bool, NoMemory>
    ensures { IfOk result (λ b. b ≡ list_all items_differ (entities_of entities.now)) }
{
    for entity in entities {
        if !items_differ(alloc, entity)? {
            return Ok(false);
        }
    }
    Ok(true)
}
