//! The first entity that leads back to itself, over bases, contained structs or typedefs.
ghost use Rattle.std.specs.Prelude.{◌≡◌, ◌++◌, ◌∷◌, [], map, filter, IfOk, OnOk, length};
ghost use Rattle.uno_model.specs.Places.{places_of};
ghost use Rattle.uno_model.specs.Registry.{IsRising, at_most_one, contained, struct_in, led_to};
ghost use Rattle.uno_model.specs.Sound.{is_there};
ghost use Rattle.uno_entities.specs.Entities.{entity_of, entities_of, base_of, field_of, body_of};
ghost use Rattle.uno_entities.specs.TypeNames.{kind_of};
ghost use Rattle.registry_text_model.specs.NoCircles.{IsOnNoCircle, is_typedef, led_on, names_in, typedefs_in};
ghost use Rattle.registry_rules.specs.First.{FindsFirst};
ghost use Rattle.registry_rules.specs.Graphs.{rows_of, word_names};

use circle_search::{Graph, first_on_circle};
use std::alloc::Global;
use uno_base::NoMemory;
use uno_entities::{Base, Body, Entity, Field, Name, TypeClass, TypeName, place_in};

/// The first entity on a circle.
pub fn first_on_a_circle(alloc: Global, entities: &[Entity]) -> Result<Option<usize>, NoMemory>
    requires { IsRising (entities_of entities.now) }
    ensures { IfOk result (λ found. FindsFirst (entities_of entities.now) (IsOnNoCircle (entities_of entities.now)) found) }
{
    let graph = graph_of_places(alloc, entities)?;
    match first_on_circle(alloc, &graph)? {
        Some(place) => Ok(Some(place)),
        None => Ok(None),
    }
}

/// For each entity the places to which it leads.
pub fn graph_of_places(alloc: Global, entities: &[Entity]) -> Result<Graph, NoMemory>
    requires { IsRising (entities_of entities.now) }
    ensures { IfOk result (λ graph. graph ≡ rows_of (entities_of entities.now)) }
{
    let mut graph = Graph::new(alloc);
    for entity in entities {
        let mut row = Vec::new(alloc);
        push_led_on(entities, &entity.body, &mut row)?;
        graph.add_node(row)?;
    }
    Ok(graph)
}

/// Adds the places to which an entity with this body leads to a row that has none yet.
fn push_led_on(entities: &[Entity], body: &Body, row: &mut Vec<u32>) -> Result<(), NoMemory>
    requires rising { IsRising (entities_of entities.now) }
    requires empty { row.old.items ≡ [] }
    ensures { OnOk result (row.new.items ≡ places_of (entities_of entities.now) (led_on (entities_of entities.now) (body_of body.now))) }
{
    match body {
        Body::Interface { bases, .. } => push_bases(entities, bases.as_slice(), row),
        Body::Struct { base, members } => push_struct_over(entities, base, members.as_slice(), row),
        Body::Exception { base, .. } => push_base(entities, base, row),
        Body::Typedef { kind } => push_typedef(entities, kind, row),
        Body::Enum { .. } | Body::Constants { .. } | Body::Service(_) | Body::Singleton(_) => {
            Ok(())
        }
    }
}

/// Adds the places of the base of a struct, and of the structs that it contains.
fn push_struct_over(
    entities: &[Entity],
    base: &Option<Name>,
    members: &[Field],
    row: &mut Vec<u32>,
) -> Result<(), NoMemory>
    requires { IsRising (entities_of entities.now) }
    ensures { OnOk result (row.new.items ≡ row.old.items ++ places_of (entities_of entities.now) (at_most_one base.now ++ contained (map field_of members.now))) }
{
    push_base(entities, base, row)?;
    push_contained(entities, members, row)
}

/// Adds the place of a name, where it is there.
fn push_name(entities: &[Entity], name: &str, row: &mut Vec<u32>) -> Result<(), NoMemory>
    requires { IsRising (entities_of entities.now) }
    ensures { OnOk result (row.new.items ≡ row.old.items ++ places_of (entities_of entities.now) (name.now ∷ [])) }
{
    match place_in(entities, name) {
        Ok(place) => {
            let Ok(place) = u32::try_from(place) else {
                return Err(NoMemory);
            };
            row.push(place)?;
            Ok(())
        }
        Err(_) => Ok(()),
    }
}

/// Adds the places of the bases of an interface, the optional ones too.
fn push_bases(entities: &[Entity], bases: &[Base], row: &mut Vec<u32>) -> Result<(), NoMemory>
    requires { IsRising (entities_of entities.now) }
    ensures { OnOk result (row.new.items ≡ row.old.items ++ places_of (entities_of entities.now) (map (λ b. b.name) (map base_of bases.now))) }
{
    for base in bases {
        push_base_of(entities, base, row)?;
    }
    Ok(())
}

/// Adds the place of a base of an interface.
fn push_base_of(entities: &[Entity], base: &Base, row: &mut Vec<u32>) -> Result<(), NoMemory>
    requires { IsRising (entities_of entities.now) }
    ensures { OnOk result (row.new.items ≡ row.old.items ++ places_of (entities_of entities.now) (base.now.name ∷ [])) }
{
    push_name(entities, base.name.as_str(), row)
}

/// Adds the place of the base of a struct or an exception.
fn push_base(entities: &[Entity], base: &Option<Name>, row: &mut Vec<u32>) -> Result<(), NoMemory>
    requires { IsRising (entities_of entities.now) }
    ensures { OnOk result (row.new.items ≡ row.old.items ++ places_of (entities_of entities.now) (at_most_one base.now)) }
{
    match base {
        Some(name) => push_name(entities, name.as_str(), row),
        None => Ok(()),
    }
}

/// Adds the places of the structs that members are.
fn push_contained(
    entities: &[Entity],
    members: &[Field],
    row: &mut Vec<u32>,
) -> Result<(), NoMemory>
    requires { IsRising (entities_of entities.now) }
    ensures { OnOk result (row.new.items ≡ row.old.items ++ places_of (entities_of entities.now) (contained (map field_of members.now))) }
{
    for member in members {
        push_struct(entities, &member.kind, row)?;
    }
    Ok(())
}

/// Adds the place of the struct that a type is.
fn push_struct(entities: &[Entity], kind: &TypeName, row: &mut Vec<u32>) -> Result<(), NoMemory>
    requires { IsRising (entities_of entities.now) }
    ensures { OnOk result (row.new.items ≡ row.old.items ++ places_of (entities_of entities.now) (struct_in (kind_of kind.now))) }
{
    if kind.class() != TypeClass::Struct {
        return Ok(());
    }
    push_name(entities, kind.front(), row)
}

/// Adds the place of the typedef in the type of a typedef, also below sequences.
#[tactic(auto, using(crate::proofs::WayLaws::names_innermost))]
fn push_typedef(entities: &[Entity], kind: &TypeName, row: &mut Vec<u32>) -> Result<(), NoMemory>
    requires { IsRising (entities_of entities.now) }
    ensures { OnOk result (row.new.items ≡ row.old.items ++ places_of (entities_of entities.now) (typedefs_in (entities_of entities.now) (kind_of kind.now))) }
{
    push_word(entities, kind.innermost(), row)
}

/// A type that is no sequence.
fn push_word(entities: &[Entity], kind: &TypeName, row: &mut Vec<u32>) -> Result<(), NoMemory>
    requires { IsRising (entities_of entities.now) }
    ensures { OnOk result (row.new.items ≡ row.old.items ++ places_of (entities_of entities.now) (filter (is_there (entities_of entities.now) is_typedef) (word_names (kind_of kind.now)))) }
{
    match kind {
        TypeName::Enum(name)
        | TypeName::Struct(name)
        | TypeName::Exception(name)
        | TypeName::Interface(name) => push_if_typedef(entities, name.as_str(), row),
        TypeName::Void
        | TypeName::Char
        | TypeName::Boolean
        | TypeName::Byte
        | TypeName::Short
        | TypeName::UnsignedShort
        | TypeName::Long
        | TypeName::UnsignedLong
        | TypeName::Hyper
        | TypeName::UnsignedHyper
        | TypeName::Str
        | TypeName::Kind
        | TypeName::Any
        | TypeName::Sequence(_) => Ok(()),
    }
}

/// Adds the place of a name, where it is a typedef's.
fn push_if_typedef(entities: &[Entity], name: &str, row: &mut Vec<u32>) -> Result<(), NoMemory>
    requires { IsRising (entities_of entities.now) }
    ensures { OnOk result (row.new.items ≡ row.old.items ++ places_of (entities_of entities.now) (filter (is_there (entities_of entities.now) is_typedef) (name.now ∷ []))) }
{
    if !is_typedef_there(entities, name) {
        return Ok(());
    }
    push_name(entities, name, row)
}

fn is_typedef_there(entities: &[Entity], name: &str) -> bool
    requires { IsRising (entities_of entities.now) }
    ensures { result ≡ is_there (entities_of entities.now) is_typedef name.now }
{
    match place_in(entities, name) {
        Ok(place) => is_typedef(&entities[place].body),
        Err(_) => false,
    }
}

fn is_typedef(body: &Body) -> bool
    ensures { result ≡ is_typedef (body_of body.now) }
{
    matches!(body, Body::Typedef { .. })
}
