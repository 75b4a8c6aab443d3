//! Whether a value of one type may stand where another is asked.
ghost use Rattle.std.specs.Prelude.{◌≡◌, ◌↔◌, ◌<◌, ◌&&◌, Some, length, map, IfOk, IsTrue};
ghost use Rattle.std.specs.List.{list_any};
ghost use Rattle.std.specs.Str.{bytes_eq};
ghost use Rattle.uno_model.specs.BuiltIn.{x_interface_name, HasBuiltIn};
ghost use Rattle.uno_model.specs.Reaches.{reaches_within};
ghost use Rattle.uno_model.specs.Registry.{IsRising, IsBaseOf, Assignable, stands_on_body, mandatory_bases, at_most_one};
ghost use Rattle.uno_model.specs.Sound.{IsSound, is_interface, is_there};
ghost use Rattle.uno_entities.specs.Entities.{entity_of, entities_of, base_of};
ghost use Rattle.uno_entities.specs.Finding.{IsBaseAt};
ghost use Rattle.uno_entities.specs.TypeNames.{kind_of};

use crate::near_bases::near_base;
use crate::{Base, Body, Entity, Name, Registry, TypeClass, TypeName};
use entity_rules::{Wanted, is_there};
use std::alloc::Global;
use uno_base::NoMemory;
use uno_entities::{X_INTERFACE, bases_of, place_in};

impl Registry {
    /// Whether a value of the one type may stand where the other is asked.
    pub fn assignable(&self, to: &TypeName, from: &TypeName) -> bool
        requires { IsSound self.now }
        ensures { IsTrue result ↔ Assignable self.now (kind_of to.now) (kind_of from.now) }
    {
        is_assignable(self.allocator(), self, to, from)
    }

    /// Whether the one entity is the other, or the other stands on it by any number of bases that are not optional. A name that
    /// is not there is a base of itself alone.
    pub fn has_base(&self, base: &str, name: &str) -> bool
        requires { IsSound self.now }
        ensures { IsTrue result ↔ IsBaseOf self.now base.now name.now }
    {
        is_base_of(self.allocator(), self, base, name)
    }
}

/// Types of two classes never; two interfaces, structs or exceptions by their bases, and others where they are the same.
pub(crate) fn is_assignable(
    alloc: Global,
    registry: &Registry,
    to: &TypeName,
    from: &TypeName,
) -> bool
    requires { IsSound registry.now }
    ensures { IsTrue result ↔ Assignable registry.now (kind_of to.now) (kind_of from.now) }
{
    let class = to.class();
    if class != from.class() {
        return false;
    }
    match class {
        TypeClass::Interface | TypeClass::Struct | TypeClass::Exception => {
            is_base_of(alloc, registry, to.front(), from.front())
        }
        _ => from.is(to),
    }
}

/// At once for the interface on which all stand, by a walk near by, which takes no memory, and else by marks. A name that is not there is a base of itself alone.
fn is_base_of(alloc: Global, registry: &Registry, to: &str, from: &str) -> bool
    requires { IsSound registry.now }
    ensures { IsTrue result ↔ IsBaseOf registry.now to.now from.now }
{
    if is_root_over(registry, to, from) {
        return true;
    }
    match near_base(registry, to, from) {
        Some(is) => is,
        None => is_far_base_of(alloc, registry, to, from),
    }
}

/// Whether the one is the interface on which all stand, and the other an interface.
fn is_root_over(registry: &Registry, to: &str, from: &str) -> bool
    ensures is { result ≡ (bytes_eq to.now x_interface_name && is_there registry.now is_interface from.now) }
    ensures built_in { HasBuiltIn registry.now }
{
    let entities = registry.entities();
    to == X_INTERFACE && is_there(entities, Wanted::Interface, from)
}

/// By a mark for each entity; where there is no room for them, by a walk that takes none and may take long.
fn is_far_base_of(alloc: Global, registry: &Registry, to: &str, from: &str) -> bool
    requires { IsSound registry.now }
    ensures { IsTrue result ↔ IsBaseOf registry.now to.now from.now }
{
    let entities = registry.entities();
    let Ok(source) = place_in(entities, from) else {
        return from == to;
    };
    let Ok(target) = place_in(entities, to) else {
        return from == to;
    };
    match is_marked(alloc, entities, source, target) {
        Ok(is) => is,
        Err(_) => reaches(registry, to, from, entities.len()),
    }
}

/// Whether the entity at the one place is among those on which the one at the other stands.
fn is_marked(
    alloc: Global,
    entities: &[Entity],
    source: usize,
    target: usize,
) -> Result<bool, NoMemory>
    requires rising { IsRising (entities_of entities.now) }
    requires source { source < length entities.now }
    requires target { target < length entities.now }
    ensures { IfOk result (λ b. IsBaseAt (entities_of entities.now) source target b) }
{
    let marks = bases_of(alloc, entities, source)?;
    Ok(marks[target])
}

/// Keeps nothing of where it was: it goes each way over bases anew, and as deep as the longest of them.
#[cycle(reach)]
#[tactic(auto, using(crate::proofs::AssignableLemmas::levels))]
fn reaches(registry: &Registry, to: &str, from: &str, levels: usize) -> bool
    ensures { result ≡ reaches_within levels registry.now to.now from.now }
{
    if from == to {
        return true;
    }
    if levels == 0 {
        return false;
    }
    match registry.find(from) {
        Some(entity) => bases_reach(registry, to, entity, levels - 1),
        None => false,
    }
}

/// Whether something on which the entity stands reaches it.
#[cycle(reach)]
fn bases_reach(registry: &Registry, to: &str, entity: &Entity, levels: usize) -> bool
    ensures { result ≡ list_any (reaches_within levels registry.now to.now) (stands_on_body (Some (entity_of entity.now))) }
{
    match &entity.body {
        Body::Interface { bases, .. } => required_reach(registry, to, bases, levels),
        Body::Struct { base, .. } | Body::Exception { base, .. } => {
            base_reaches(registry, to, base, levels)
        }
        _ => false,
    }
}

/// Whether a base of an interface that is not optional reaches it.
#[cycle(reach)]
fn required_reach(registry: &Registry, to: &str, bases: &[Base], levels: usize) -> bool
    ensures { result ≡ list_any (reaches_within levels registry.now to.now) (mandatory_bases (map base_of bases.now)) }
{
    for base in bases {
        if !base.optional && reaches(registry, to, base.name.as_str(), levels) {
            return true;
        }
    }
    false
}

/// Whether the base of a struct or an exception reaches it.
#[cycle(reach)]
fn base_reaches(registry: &Registry, to: &str, base: &Option<Name>, levels: usize) -> bool
    ensures { result ≡ list_any (reaches_within levels registry.now to.now) (at_most_one base.now) }
{
    match base {
        Some(name) => reaches(registry, to, name.as_str(), levels),
        None => false,
    }
}
