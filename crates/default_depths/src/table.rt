//! The depths of the defaults of all structs: each is worked out behind those of its base and of the structs that it contains.
ghost use Rattle.std.specs.Prelude.{◌≡◌, ◌<◌, ℕ, length, IfNone, IfOk, IfSome, option_map, slice_get, Some, true, false};
ghost use Rattle.graph_order.specs.Order.{EndsFirst};
ghost use Rattle.registry_rules.specs.Graphs.{rows_of};
ghost use Rattle.uno_model.specs.Entities as plain;
ghost use Rattle.uno_model.specs.Registry.{IsRising, led_to};
ghost use Rattle.uno_model.specs.Sound.{IsSound, is_struct};
ghost use Rattle.uno_entities.specs.Entities.{body_of, entity_of};
ghost use Rattle.default_depths.specs.Depths.{depth_named, told};
ghost use Rattle.default_depths.specs.Table.{AreKnown, AreTold, IsTold};

use crate::nested::tuple_depth;
use graph_order::ends_first;
use registry_rules::graph_of_places;
use std::alloc::Global;
use uno_base::NoMemory;
use uno_types::{Body, Entity, Registry};

/// The depths of the defaults of all structs, each at the place of its struct.
pub(crate) fn struct_depths(alloc: Global, registry: &Registry) -> Result<Vec<u32>, NoMemory>
    requires { IsSound registry.now }
    ensures { IfOk result (λ depths. AreTold registry.now depths.items) }
{
    let graph = graph_of_places(alloc, registry.entities())?;
    let order = ends_first(alloc, &graph)?;
    let mut depths = vec![in alloc; 0u32; registry.entities().len()]?;
    tell_all(registry, order.as_slice(), depths.as_mut_slice());
    Ok(depths)
}

/// Works out the depths of all structs, in an order in which each stands behind those to which it leads.
fn tell_all(registry: &Registry, order: &[usize], depths: &mut [u32])
    requires rising { IsRising registry.now }
    requires sound { IsSound registry.now }
    requires order { EndsFirst (rows_of registry.now) order.now }
    requires long { length depths.old ≡ length registry.now }
    ensures { AreTold registry.now depths.new }
{
    for index in 0..order.len() {
        tell(registry, order[index], depths);
    }
}

/// Notes the depth of the struct at a place. What is none there is passed by.
fn tell(registry: &Registry, place: usize, depths: &mut [u32])
    requires sound { IsSound registry.now }
    requires long { length depths.old ≡ length registry.now }
    requires ready { (e : plain.Entity) → slice_get registry.now place ≡ Some e → is_struct e.body ≡ true → AreKnown registry.now depths.old (led_to e.body) }
    ensures long { length depths.new ≡ length registry.now }
    ensures told { IsTold registry.now depths.new place }
    ensures kept { (p : ℕ) → IsTold registry.now depths.old p → IsTold registry.now depths.new p }
{
    let Some(depth) = depth_at(registry, place, depths) else {
        return;
    };
    depths[place] = depth;
}

/// The depth of the struct at a place.
fn depth_at(registry: &Registry, place: usize, depths: &[u32]) -> Option<u32>
    requires sound { IsSound registry.now }
    requires long { length depths.now ≡ length registry.now }
    requires ready { (e : plain.Entity) → slice_get registry.now place ≡ Some e → is_struct e.body ≡ true → AreKnown registry.now depths.now (led_to e.body) }
    ensures within { IfSome result (λ depth. place < length registry.now) }
    ensures depth { IfSome result (λ depth. (e : plain.Entity) → slice_get registry.now place ≡ Some e → depth ≡ told (depth_named registry.now e.name)) }
    ensures other { IfNone result ((e : plain.Entity) → slice_get registry.now place ≡ Some e → is_struct e.body ≡ false) }
{
    let Some(entity) = entity_at(registry, place) else {
        return None;
    };
    if !is_struct(&entity.body) {
        return None;
    }
    Some(tuple_depth(registry, entity.name.as_str(), depths))
}

/// The entity at a place.
fn entity_at(registry: &Registry, place: usize) -> Option<&Entity>
    ensures rising { IsRising registry.now }
    ensures value { option_map (λ e. entity_of e.now) result ≡ slice_get registry.now place }
{
    registry.entities().get(place)
}

fn is_struct(body: &Body) -> bool
    ensures { result ≡ is_struct (body_of body.now) }
{
    matches!(body, Body::Struct { .. })
}
