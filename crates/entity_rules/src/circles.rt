//! Whether ways over bases and contained structs come back to where they began.
ghost use Rattle.std.specs.Prelude.{◌≡◌, ◌++◌, ◌∷◌, ◌↔◌, [], length, map, take, IfOk, OnOk, IsTrue, Some};
ghost use Rattle.uno_model.specs.Circles.{HasNoCircle};
ghost use Rattle.uno_model.specs.Places.{places_of, graph_of};
ghost use Rattle.uno_model.specs.Registry.{IsRising, at_most_one, contained, struct_in, leads_to, led_to};
ghost use Rattle.uno_entities.specs.Entities.{entity_of, entities_of, base_of, field_of, body_of};
ghost use Rattle.uno_entities.specs.TypeNames.{kind_of};

use circle_search::{Graph, has_no_circle};
use std::alloc::Global;
use uno_base::NoMemory;
use uno_entities::{Base, Body, Entity, Field, Name, TypeClass, TypeName, place_in};

/// Whether no entity leads back to itself.
pub fn has_no_circles(alloc: Global, entities: &[Entity]) -> Result<bool, NoMemory>
    requires { IsRising (entities_of entities.now) }
    ensures { IfOk result (λ b. IsTrue b ↔ HasNoCircle (leads_to (entities_of entities.now))) }
{
    let graph = graph_of_places(alloc, entities)?;
    has_no_circle(alloc, &graph)
}

/// For each entity the places to which it leads.
fn graph_of_places(alloc: Global, entities: &[Entity]) -> Result<Graph, NoMemory>
    requires { IsRising (entities_of entities.now) }
    ensures { IfOk result (λ graph. graph ≡ graph_of (entities_of entities.now)) }
{
    let mut graph = Graph::new(alloc);
    for entity in entities {
        let mut row = Vec::new(alloc);
        push_led_to(entities, &entity.body, &mut row)?;
        graph.add_node(row)?;
    }
    Ok(graph)
}

/// Adds the places to which an entity with this body leads to a row that has none yet.
fn push_led_to(entities: &[Entity], body: &Body, row: &mut Vec<u32>) -> Result<(), NoMemory>
    requires rising { IsRising (entities_of entities.now) }
    requires empty { row.old.items ≡ [] }
    ensures { OnOk result (row.new.items ≡ places_of (entities_of entities.now) (led_to (body_of body.now))) }
{
    match body {
        Body::Interface { bases, .. } => push_bases(entities, bases.as_slice(), row),
        Body::Struct { base, members } => {
            push_base(entities, base, row)?;
            push_contained(entities, members.as_slice(), row)
        }
        Body::Exception { base, .. } => push_base(entities, base, row),
        _ => Ok(()),
    }
}

/// Adds the place of a name, where it is there.
fn push_name(entities: &[Entity], name: &str, row: &mut Vec<u32>) -> Result<(), NoMemory>
    requires { IsRising (entities_of entities.now) }
    ensures { OnOk result (row.new.items ≡ row.old.items ++ places_of (entities_of entities.now) (name.now ∷ [])) }
{
    match place_in(entities, name) {
        Ok(place) => {
            let Ok(place) = u32::try_from(place) else {
                return Err(NoMemory);
            };
            row.push(place)?;
            Ok(())
        }
        Err(_) => Ok(()),
    }
}

/// Adds the places of the bases of an interface, the optional ones too.
fn push_bases(entities: &[Entity], bases: &[Base], row: &mut Vec<u32>) -> Result<(), NoMemory>
    requires { IsRising (entities_of entities.now) }
    ensures { OnOk result (row.new.items ≡ row.old.items ++ places_of (entities_of entities.now) (map (λ b. b.name) (map base_of bases.now))) }
{
    for base in bases {
        push_name(entities, base.name.as_str(), row)?;
    }
    Ok(())
}

/// Adds the place of the base of a struct or an exception.
fn push_base(entities: &[Entity], base: &Option<Name>, row: &mut Vec<u32>) -> Result<(), NoMemory>
    requires { IsRising (entities_of entities.now) }
    ensures { OnOk result (row.new.items ≡ row.old.items ++ places_of (entities_of entities.now) (at_most_one base.now)) }
{
    match base {
        Some(name) => push_name(entities, name.as_str(), row),
        None => Ok(()),
    }
}

/// Adds the places of the structs that members are.
fn push_contained(
    entities: &[Entity],
    members: &[Field],
    row: &mut Vec<u32>,
) -> Result<(), NoMemory>
    requires { IsRising (entities_of entities.now) }
    ensures { OnOk result (row.new.items ≡ row.old.items ++ places_of (entities_of entities.now) (contained (map field_of members.now))) }
{
    for member in members {
        push_struct(entities, &member.kind, row)?;
    }
    Ok(())
}

/// Adds the place of the struct that a type is.
fn push_struct(entities: &[Entity], kind: &TypeName, row: &mut Vec<u32>) -> Result<(), NoMemory>
    requires { IsRising (entities_of entities.now) }
    ensures { OnOk result (row.new.items ≡ row.old.items ++ places_of (entities_of entities.now) (struct_in (kind_of kind.now))) }
{
    if kind.class() != TypeClass::Struct {
        return Ok(());
    }
    push_name(entities, kind.front(), row)
}
