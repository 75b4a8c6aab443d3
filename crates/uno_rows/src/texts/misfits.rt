//! Registries that no text says: that of the file, and an entity of words besides.
//!
//! `struct: t.S; base: t.Known; a: long; b: struct/t.None` is a struct with a base and two members, the second of a type of `made`.
//! `interface: t.X; base: t.XKnown; rw: c; ro: d; method: get:c` is an interface with two attributes and a method.
ghost use Rattle.uno_model.specs.Registry.{IsRising};
ghost use Rattle.uno_model.specs.Sound.{IsSound};
ghost use Rattle.uno_entities.specs.Entities.{entities_of};

use crate::spelling::cut;
use crate::texts::answer::Answer;
use crate::texts::entities::members;
use crate::texts::made::type_made;
use entity_rules::has_no_circles;
use registry_rules::first_with_wrong_base;
use rules_over_bases::first_with_twins;
use std::alloc::Global;
use uno_types::{Attribute, Base, Body, Entity, Field, Member, Method, Name, Registry, TypeName};

/// `with WORDS`: whether the registry is sound, which of its entities is the first with two members of one name, and the first members of
/// the one that is added.
pub(crate) fn with(registry: &Registry, words: &str, answer: &mut Answer)
    requires { IsSound registry.now }
{
    match entity(registry, words) {
        Some(entity) => add(registry, entity, words, answer),
        None => answer.word("no entity"),
    }
}

fn add(registry: &Registry, entity: Entity, words: &str, answer: &mut Answer) {
    match registry.copy() {
        Ok(mut all) => {
            add_to(&mut all, entity, answer);
            judge(&all, name_of(words), answer);
            drop(all);
        }
        Err(error) => {
            drop(entity);
            answer.show(&error);
        }
    }
}

fn add_to(all: &mut Registry, entity: Entity, answer: &mut Answer) {
    if let Err(error) = all.add(entity) {
        answer.show(&error);
    }
}

fn judge(all: &Registry, name: &str, answer: &mut Answer) {
    match all.is_sound() {
        Ok(true) => answer.word("sound,"),
        Ok(false) => answer.word("not sound,"),
        Err(error) => answer.show(&error),
    }
    put_twins(all.allocator(), all.entities(), answer);
    members(all, name, answer);
}

/// Where a rule before this one is broken, it is not asked.
fn put_twins(alloc: Global, entities: &[Entity], answer: &mut Answer)
    requires { IsRising (entities_of entities.now) }
{
    if first_with_wrong_base(entities).is_some() {
        return answer.word("not asked,");
    }
    match has_no_circles(alloc, entities) {
        Ok(true) => match first_with_twins(alloc, entities) {
            Ok(Some(place)) => put_name(entities.get(place), answer),
            Ok(None) => answer.word("no twins,"),
            Err(error) => answer.show(&error),
        },
        Ok(false) => answer.word("not asked,"),
        Err(error) => answer.show(&error),
    }
}

fn put_name(entity: Option<&Entity>, answer: &mut Answer) {
    if let Some(entity) = entity {
        answer.word("twins in");
        answer.word(entity.name.as_str());
        answer.put(b",");
    }
}

fn name_of(words: &str) -> &str {
    cut(cut(words, "; ").0, ": ").1
}

fn entity(registry: &Registry, words: &str) -> Option<Entity>
    requires { IsSound registry.now }
{
    match Name::of(registry.allocator(), name_of(words)) {
        Ok(name) => Some(Entity {
            name,
            published: false,
            body: body(registry, words),
        }),
        Err(_) => None,
    }
}

fn body(registry: &Registry, words: &str) -> Body
    requires { IsSound registry.now }
{
    let (front, parts) = cut(words, "; ");
    match cut(front, ": ").0 {
        "struct" => structure(registry, parts),
        _ => interface(registry.allocator(), parts),
    }
}

fn structure(registry: &Registry, parts: &str) -> Body
    requires { IsSound registry.now }
{
    let (front, rest) = cut(parts, "; ");
    match front.strip_prefix("base: ") {
        Some(base) => Body::Struct {
            base: Name::of(registry.allocator(), base).ok(),
            members: fields(registry, rest),
        },
        None => Body::Struct {
            base: None,
            members: fields(registry, parts),
        },
    }
}

fn fields(registry: &Registry, parts: &str) -> Vec<Field>
    requires { IsSound registry.now }
{
    let mut fields = Vec::new(registry.allocator());
    for part in parts.split("; ") {
        let (name, word) = cut(part, ": ");
        if let Some(kind) = type_made(registry, word) {
            push_field(registry.allocator(), &mut fields, name, kind);
        }
    }
    fields
}

fn push_field(alloc: Global, fields: &mut Vec<Field>, name: &str, kind: TypeName) {
    match Name::of(alloc, name) {
        Ok(name) => {
            fields.push(Field { name, kind }).ok();
        }
        Err(_) => drop(kind),
    }
}

fn interface(alloc: Global, parts: &str) -> Body {
    let mut bases = Vec::new(alloc);
    let mut members = Vec::new(alloc);
    for part in parts.split("; ") {
        let (what, name) = cut(part, ": ");
        match what {
            "base" => push_base(alloc, &mut bases, name),
            _ => push_member(alloc, &mut members, what, name),
        }
    }
    Body::Interface { bases, members }
}

fn push_base(alloc: Global, bases: &mut Vec<Base>, name: &str) {
    if let Ok(name) = Name::of(alloc, name) {
        bases
            .push(Base {
                optional: false,
                name,
            })
            .ok();
    }
}

fn push_member(alloc: Global, members: &mut Vec<Member>, what: &str, name: &str) {
    if let Ok(name) = Name::of(alloc, name) {
        members.push(member(alloc, what, name)).ok();
    }
}

fn member(alloc: Global, what: &str, name: Name) -> Member {
    match what {
        "method" => Member::Method(Method {
            name,
            oneway: false,
            result: TypeName::Void,
            params: Vec::new(alloc),
            raises: Vec::new(alloc),
        }),
        _ => Member::Attribute(Attribute {
            name,
            read_only: what == "ro",
            kind: TypeName::Long,
            get_raises: Vec::new(alloc),
            set_raises: Vec::new(alloc),
        }),
    }
}
