//! The functions that an interface declares itself: those of its attributes, and then its methods.
ghost use Rattle.std.specs.Prelude.{◌≡◌, ◌++◌, length, map, option_map, slice_get, OnOk};
ghost use Rattle.std.specs.List.{flat_map};
ghost use Rattle.uno_model.specs.Functions.{declared_by, declared_in};
ghost use Rattle.uno_model.specs.Registry.{find_entity};
ghost use Rattle.uno_entities.specs.Entities.{body_of, member_of};
ghost use Rattle.type_registry.specs.Own.{Seeks, functions_in, functions_by, one_or_none};
ghost use Rattle.type_registry.specs.Functions.{functions_at, lent_function};
ghost use Rattle.type_registry.specs.Met.{names_at};

use crate::{Function, FunctionRef};
use std::alloc::Global;
use uno_base::NoMemory;
use uno_types::{Body, Entity, Member, Name, Registry};

/// Which of an interface's own functions.
#[derive(Clone, Copy)]
pub(crate) enum Group {
    Accessors,
    Methods,
}

/// What was found at a number: a function, or how far the number lies past all that were counted.
#[derive(Clone, Copy)]
pub(crate) enum Sought<'a> {
    Found(FunctionRef<'a>),
    Past(usize),
}

/// How many functions of a group a member is.
fn count(group: Group, member: &Member) -> usize
    ensures { (owner : _) → result ≡ length (functions_in group owner (member_of member.now)) }
{
    match (group, member) {
        (Group::Accessors, Member::Attribute(attribute)) => {
            if attribute.read_only { 1 } else { 2 }
        }
        (Group::Methods, Member::Method(_)) => 1,
        _ => 0,
    }
}

/// The function of a group that a member is, at a place among those of this member.
fn function_at<'a>(
    group: Group,
    owner: &'a Name,
    member: &'a Member,
    place: usize,
) -> Option<FunctionRef<'a>>
    ensures { option_map lent_function result ≡ slice_get (functions_in group owner.now (member_of member.now)) place }
{
    if place >= count(group, member) {
        return None;
    }
    match member {
        Member::Attribute(attribute) => {
            if place == 0 {
                return Some(FunctionRef::Getter { owner, attribute });
            }
            Some(FunctionRef::Setter { owner, attribute })
        }
        Member::Method(method) => Some(FunctionRef::Method { owner, method }),
    }
}

/// The function at a number among those of a group.
fn seek_members<'a>(
    group: Group,
    owner: &'a Name,
    members: &'a [Member],
    number: usize,
) -> Sought<'a>
    ensures { Seeks (flat_map (functions_in group owner.now) (map member_of members.now)) number result }
{
    let mut left = number;
    for member in members {
        if let Some(function) = function_at(group, owner, member, left) {
            return Sought::Found(function);
        }
        left -= count(group, member);
    }
    Sought::Past(left)
}

/// The function at a number among those that an entity declares itself.
pub(crate) fn seek_declared(entity: &Entity, number: usize) -> Sought<'_>
    ensures { Seeks (declared_in entity.now.name (body_of entity.now.body)) number result }
{
    let Body::Interface { bases: _, members } = &entity.body else {
        return Sought::Past(number);
    };
    match seek_members(Group::Accessors, &entity.name, members, number) {
        Sought::Found(function) => Sought::Found(function),
        Sought::Past(left) => seek_members(Group::Methods, &entity.name, members, left),
    }
}

/// The function at a number among those that the entity of a name declares itself.
pub(crate) fn seek_named<'a>(registry: &'a Registry, owner: &str, number: usize) -> Sought<'a>
    ensures { Seeks (declared_by owner.now (find_entity owner.now registry.now)) number result }
{
    match registry.find(owner) {
        Some(entity) => seek_declared(entity, number),
        None => Sought::Past(number),
    }
}

/// The function at a number among those that these interfaces declare themselves, one after the other.
pub(crate) fn seek_owners<'a>(
    registry: &'a Registry,
    owners: &[&str],
    number: usize,
) -> Option<FunctionRef<'a>>
    ensures { option_map lent_function result ≡ slice_get (functions_by registry.now (names_at owners.now)) number }
{
    let mut left = number;
    for place in 0..owners.len() {
        match seek_named(registry, owners[place], left) {
            Sought::Found(function) => return Some(function),
            Sought::Past(behind) => left = behind,
        }
    }
    None
}

/// Copies of all that the entity of a name declares itself, behind those that are there.
pub(crate) fn push_named(
    table: &mut Vec<Function>,
    alloc: Global,
    registry: &Registry,
    owner: &str,
) -> Result<(), NoMemory>
    ensures { OnOk result (functions_at table.new.items ≡ functions_at table.old.items ++ declared_by owner.now (find_entity owner.now registry.now)) }
{
    match registry.find(owner) {
        Some(entity) => push_declared(table, alloc, entity),
        None => Ok(()),
    }
}

fn push_declared(table: &mut Vec<Function>, alloc: Global, entity: &Entity) -> Result<(), NoMemory>
    ensures { OnOk result (functions_at table.new.items ≡ functions_at table.old.items ++ declared_in entity.now.name (body_of entity.now.body)) }
{
    let Body::Interface { bases: _, members } = &entity.body else {
        return Ok(());
    };
    push_members(table, alloc, Group::Accessors, &entity.name, members)?;
    push_members(table, alloc, Group::Methods, &entity.name, members)
}

fn push_members(
    table: &mut Vec<Function>,
    alloc: Global,
    group: Group,
    owner: &Name,
    members: &[Member],
) -> Result<(), NoMemory>
    ensures { OnOk result (functions_at table.new.items ≡ functions_at table.old.items ++ flat_map (functions_in group owner.now) (map member_of members.now)) }
{
    for member in members {
        push_member(table, alloc, group, owner, member)?;
    }
    Ok(())
}

fn push_member(
    table: &mut Vec<Function>,
    alloc: Global,
    group: Group,
    owner: &Name,
    member: &Member,
) -> Result<(), NoMemory>
    ensures { OnOk result (functions_at table.new.items ≡ functions_at table.old.items ++ functions_in group owner.now (member_of member.now)) }
{
    push_at(table, alloc, group, owner, member, 0)?;
    push_at(table, alloc, group, owner, member, 1)
}

/// The function at a place, where there is one.
fn push_at(
    table: &mut Vec<Function>,
    alloc: Global,
    group: Group,
    owner: &Name,
    member: &Member,
    place: usize,
) -> Result<(), NoMemory>
    ensures { OnOk result (functions_at table.new.items ≡ functions_at table.old.items ++ one_or_none (slice_get (functions_in group owner.now (member_of member.now)) place)) }
{
    let Some(function) = function_at(group, owner, member, place) else {
        return Ok(());
    };
    table.push(function.copy(alloc)?)?;
    Ok(())
}
