//! Whether all defaults are shallow.
ghost use Rattle.std.specs.Prelude.{◌≡◌, ◌↔◌, ◌≤◌, IfOk, Some, true};
ghost use Rattle.uno_model.specs.Registry.{IsRising, find_entity, own_members};
ghost use Rattle.uno_model.specs.Sound.{IsSound};
ghost use Rattle.default_depths.specs.Depths.{HasShallowDefaults, deepest};
ghost use Rattle.uno_entities.specs.Entities.{entity_of};
ghost use Rattle.default_depths.specs.Table.{AreTold};

use crate::nested::{MOST, deepest};
use crate::table::struct_depths;
use std::alloc::Global;
use uno_base::NoMemory;
use uno_types::{Entity, Level, Registry};

/// Whether each type has a default that is nested at most 1,024 deep.
pub fn are_defaults_shallow(alloc: Global, registry: &Registry) -> Result<bool, NoMemory>
    requires { IsSound registry.now }
    ensures { IfOk result (λ shallow. (shallow ≡ true) ↔ HasShallowDefaults registry.now) }
{
    let depths = struct_depths(alloc, registry)?;
    Ok(are_members_shallow(registry, depths.as_slice()))
}

/// Whether the default of each member may stand in another one.
fn are_members_shallow(registry: &Registry, depths: &[u32]) -> bool
    requires sound { IsSound registry.now }
    requires told { AreTold registry.now depths.now }
    ensures { (result ≡ true) ↔ HasShallowDefaults registry.now }
{
    for entity in registry.entities() {
        if !are_own_shallow(registry, entity, depths) {
            return false;
        }
    }
    true
}

/// The same of the members that an entity declares.
fn are_own_shallow(registry: &Registry, entity: &Entity, depths: &[u32]) -> bool
    requires rising { IsRising registry.now }
    requires sound { IsSound registry.now }
    requires told { AreTold registry.now depths.now }
    requires there { find_entity entity.now.name registry.now ≡ Some (entity_of entity.now) }
    ensures { (result ≡ true) ↔ (deepest registry.now (own_members (Some (entity_of entity.now))) ≤ 1023) }
{
    let Level { own, base: _ } = registry.level(entity.name.as_str());
    deepest(registry, own, depths) < MOST
}
