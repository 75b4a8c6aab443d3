//! Values with the values in them (URP specification, marshalling of any, structs, exceptions and sequences).
ghost use Rattle.std.specs.Prelude.{◌≡◌, map, IfSome};
ghost use Rattle.uno_model.specs.Fits.{member_kinds};
ghost use Rattle.uno_model.specs.Kinds as kd;
ghost use Rattle.uno_model.specs.Sound.{IsSound};
ghost use Rattle.uno_types.specs.Members.{fields_at};
ghost use Rattle.uno_entities.specs.TypeNames.{kind_of};
ghost use Rattle.uno_values.specs.Values.{plain_of};
ghost use Rattle.urp_model.specs.NamedKinds.{is_any, is_byte};
ghost use Rattle.urp_model.specs.Reading.{elements_at, members_at, list_at, tuple_at, value_step, value_at};
ghost use Rattle.urp_model.specs.Tables.{Tables};
ghost use Rattle.urp_wire.specs.Gives.{Gives, tables_of};
ghost use Rattle.urp_wire.specs.Levels.{too_deep};

use super::parts::{length, raw};
use super::{flat, read_kind};
use crate::{Reason, WireError};
use std::alloc::Global;
use uno_types::{Field, Name, Registry, TypeName};
use uno_values::{AnyValue, Value};
use urp_cache::ReadCaches;

/// A value of a type in which at most so many levels stand in one another.
#[cycle(read)]
#[tactic(auto, using(urp_model::proofs::Levels::levels))]
pub fn value_within<'a>(
    alloc: Global,
    registry: &Registry,
    caches: &mut ReadCaches,
    kind: &TypeName,
    levels: u32,
    bytes: &'a [u8],
) -> Result<(Value, &'a [u8]), WireError>
    requires { IsSound registry.now }
    ensures { Gives (λ x. (plain_of x.0, tables_of caches.new, x.1.now)) result (value_at levels registry.now (kind_of kind.now) (tables_of caches.old) bytes.now) }
{
    if levels == 0 {
        return Err(WireError::Bad(Reason::Deep));
    }
    level_of(alloc, registry, caches, kind, levels - 1, bytes)
}

/// A value, of which what stands in it has at most so many levels.
#[cycle(read)]
fn level_of<'a>(
    alloc: Global,
    registry: &Registry,
    caches: &mut ReadCaches,
    kind: &TypeName,
    levels: u32,
    bytes: &'a [u8],
) -> Result<(Value, &'a [u8]), WireError>
    requires { IsSound registry.now }
    ensures { Gives (λ x. (plain_of x.0, tables_of caches.new, x.1.now)) result (value_step registry.now (value_at levels registry.now) (kind_of kind.now) (tables_of caches.old) bytes.now) }
{
    match kind {
        TypeName::Void => flat::void(bytes),
        TypeName::Char => flat::char_value(bytes),
        TypeName::Boolean => flat::boolean(bytes),
        TypeName::Byte => flat::byte_value(bytes),
        TypeName::Short => flat::short(bytes),
        TypeName::UnsignedShort => flat::unsigned_short(bytes),
        TypeName::Long => flat::long(bytes),
        TypeName::UnsignedLong => flat::unsigned_long(bytes),
        TypeName::Hyper => flat::hyper(bytes),
        TypeName::UnsignedHyper => flat::unsigned_hyper(bytes),
        TypeName::Str => flat::string(alloc, bytes),
        TypeName::Kind => flat::kind(alloc, registry, caches, bytes),
        TypeName::Any => any_value(alloc, registry, caches, levels, bytes),
        TypeName::Enum(name) => flat::item(name, bytes),
        TypeName::Struct(name) | TypeName::Exception(name) => {
            tuple_value(alloc, registry, caches, name, levels, bytes)
        }
        TypeName::Interface(face) => flat::reference(alloc, caches, face, bytes),
        TypeName::Sequence(element) => {
            sequence_value(alloc, registry, caches, element, levels, bytes)
        }
    }
}

/// A type other than any, and a value of it.
#[cycle(read)]
#[tactic(auto, unfolding(urp_model::specs::Reading::value_step, urp_model::specs::Reading::any_at, urp_model::specs::Reading::content_at))]
fn any_value<'a>(
    alloc: Global,
    registry: &Registry,
    caches: &mut ReadCaches,
    levels: u32,
    bytes: &'a [u8],
) -> Result<(Value, &'a [u8]), WireError>
    requires { IsSound registry.now }
    ensures { Gives (λ x. (plain_of x.0, tables_of caches.new, x.1.now)) result (value_step registry.now (value_at levels registry.now) kd.any (tables_of caches.old) bytes.now) }
{
    let (kind, rest) = read_kind(alloc, registry, &mut caches.types, bytes)?;
    if is_any(&kind) {
        drop(kind);
        return Err(WireError::Bad(Reason::BadAny));
    }
    match value_within(alloc, registry, caches, &kind, levels, rest) {
        Ok((value, rest)) => {
            let any = Box::new(alloc, AnyValue { kind, value })?;
            Ok((Value::Any(any), rest))
        }
        Err(error) => {
            drop(kind);
            Err(error)
        }
    }
}

fn is_any(kind: &TypeName) -> bool
    ensures { result ≡ is_any (kind_of kind.now) }
{
    matches!(kind, TypeName::Any)
}

/// A struct or an exception.
#[cycle(read)]
#[tactic(auto, unfolding(urp_model::specs::Reading::value_step))]
fn tuple_value<'a>(
    alloc: Global,
    registry: &Registry,
    caches: &mut ReadCaches,
    name: &Name,
    levels: u32,
    bytes: &'a [u8],
) -> Result<(Value, &'a [u8]), WireError>
    requires { IsSound registry.now }
    ensures structs { Gives (λ x. (plain_of x.0, tables_of caches.new, x.1.now)) result (value_step registry.now (value_at levels registry.now) (kd.struct name.now) (tables_of caches.old) bytes.now) }
    ensures exceptions { Gives (λ x. (plain_of x.0, tables_of caches.new, x.1.now)) result (value_step registry.now (value_at levels registry.now) (kd.exception name.now) (tables_of caches.old) bytes.now) }
{
    let fields = registry.members(alloc, name.as_str())?;
    tuple_of(alloc, registry, caches, name, &fields, levels, bytes)
}

/// A struct or an exception of which these are the members, those of its bases first.
#[cycle(read)]
#[tactic(auto, unfolding(urp_model::specs::Reading::tuple_at))]
fn tuple_of<'a>(
    alloc: Global,
    registry: &Registry,
    caches: &mut ReadCaches,
    name: &Name,
    fields: &[&Field],
    levels: u32,
    bytes: &'a [u8],
) -> Result<(Value, &'a [u8]), WireError>
    requires { IsSound registry.now }
    ensures { Gives (λ x. (plain_of x.0, tables_of caches.new, x.1.now)) result (tuple_at (value_at levels registry.now) (map (λ f. f.kind) (fields_at fields.now)) name.now (tables_of caches.old) bytes.now) }
{
    let (members, rest) = members_of(alloc, registry, caches, fields, levels, bytes)?;
    let name = name.copy()?;
    Ok((Value::Tuple(name, members), rest))
}

/// A value for each of these members.
#[cycle(read)]
#[tactic(auto, unfolding(urp_model::specs::Reading::members_at))]
fn members_of<'a>(
    alloc: Global,
    registry: &Registry,
    caches: &mut ReadCaches,
    fields: &[&Field],
    levels: u32,
    bytes: &'a [u8],
) -> Result<(Vec<Value>, &'a [u8]), WireError>
    requires { IsSound registry.now }
    ensures { Gives (λ x. (map plain_of x.0.items, tables_of caches.new, x.1.now)) result (members_at (value_at levels registry.now) (map (λ f. f.kind) (fields_at fields.now)) (tables_of caches.old) bytes.now) }
{
    let mut members = Vec::new(alloc);
    let mut rest = bytes;
    for field in fields {
        let (member, behind) = value_within(alloc, registry, caches, &field.kind, levels, rest)?;
        members.push(member)?;
        rest = behind;
    }
    Ok((members, rest))
}

/// A sequence: its bytes as they are, which are copied only where all are there; or the count of its elements and each of them.
#[cycle(read)]
#[tactic(auto, unfolding(urp_model::specs::Reading::value_step, urp_model::specs::Reading::bytes_at))]
fn sequence_value<'a>(
    alloc: Global,
    registry: &Registry,
    caches: &mut ReadCaches,
    element: &TypeName,
    levels: u32,
    bytes: &'a [u8],
) -> Result<(Value, &'a [u8]), WireError>
    requires { IsSound registry.now }
    ensures { Gives (λ x. (plain_of x.0, tables_of caches.new, x.1.now)) result (value_step registry.now (value_at levels registry.now) (kd.sequence (kind_of element.now)) (tables_of caches.old) bytes.now) }
{
    if is_byte(element) {
        let (raw, rest) = raw(bytes)?;
        return Ok((Value::Bytes(Vec::from_slice(alloc, raw)?), rest));
    }
    list_value(alloc, registry, caches, element, levels, bytes)
}

fn is_byte(kind: &TypeName) -> bool
    ensures { result ≡ is_byte (kind_of kind.now) }
{
    matches!(kind, TypeName::Byte)
}

/// Elements behind their count.
#[cycle(read)]
#[tactic(auto, unfolding(urp_model::specs::Reading::list_at))]
fn list_value<'a>(
    alloc: Global,
    registry: &Registry,
    caches: &mut ReadCaches,
    element: &TypeName,
    levels: u32,
    bytes: &'a [u8],
) -> Result<(Value, &'a [u8]), WireError>
    requires { IsSound registry.now }
    ensures { Gives (λ x. (plain_of x.0, tables_of caches.new, x.1.now)) result (list_at (value_at levels registry.now (kind_of element.now)) (kind_of element.now) (tables_of caches.old) bytes.now) }
{
    let (count, rest) = length(bytes)?;
    let (elements, rest) = elements_of(alloc, registry, caches, element, levels, count, rest)?;
    let kind = element.copy(alloc)?;
    Ok((Value::List(kind, elements), rest))
}

/// So many elements. Each takes room when it is read, and none before, since the count may be any number.
#[cycle(read)]
fn elements_of<'a>(
    alloc: Global,
    registry: &Registry,
    caches: &mut ReadCaches,
    element: &TypeName,
    levels: u32,
    count: u32,
    bytes: &'a [u8],
) -> Result<(Vec<Value>, &'a [u8]), WireError>
    requires { IsSound registry.now }
    ensures { Gives (λ x. (map plain_of x.0.items, tables_of caches.new, x.1.now)) result (elements_at (value_at levels registry.now (kind_of element.now)) count (tables_of caches.old) bytes.now) }
{
    if levels == 0 {
        return no_elements(alloc, count, bytes);
    }
    match name_of_struct(element) {
        Some(name) => structs_of(alloc, registry, caches, name, levels - 1, count, bytes),
        None => others_of(alloc, registry, caches, element, levels, count, bytes),
    }
}

/// The name of a struct.
fn name_of_struct(kind: &TypeName) -> Option<&Name>
    ensures { IfSome result (λ name. kind_of kind.now ≡ kd.struct name.now) }
{
    match kind {
        TypeName::Struct(name) => Some(name),
        _ => None,
    }
}

/// Elements where no level is left for one.
#[tactic(auto, unfolding(urp_model::specs::Reading::elements_at))]
fn no_elements(alloc: Global, count: u32, bytes: &[u8]) -> Result<(Vec<Value>, &[u8]), WireError>
    ensures { (s : Tables) → Gives (λ x. (map plain_of x.0.items, s, x.1.now)) result (elements_at too_deep count s bytes.now) }
{
    if count > 0 {
        return Err(WireError::Bad(Reason::Deep));
    }
    Ok((Vec::new(alloc), bytes))
}

/// So many structs, whose members are found once.
#[cycle(read)]
fn structs_of<'a>(
    alloc: Global,
    registry: &Registry,
    caches: &mut ReadCaches,
    name: &Name,
    levels: u32,
    count: u32,
    bytes: &'a [u8],
) -> Result<(Vec<Value>, &'a [u8]), WireError>
    requires { IsSound registry.now }
    ensures { Gives (λ x. (map plain_of x.0.items, tables_of caches.new, x.1.now)) result
        (elements_at (tuple_at (value_at levels registry.now) (member_kinds registry.now name.now) name.now) count (tables_of caches.old) bytes.now) }
{
    let fields = registry.members(alloc, name.as_str())?;
    tuples_of(alloc, registry, caches, name, &fields, levels, count, bytes)
}

/// So many structs of which these are the members.
#[cycle(read)]
#[tactic(auto, unfolding(urp_model::specs::Reading::elements_at))]
fn tuples_of<'a>(
    alloc: Global,
    registry: &Registry,
    caches: &mut ReadCaches,
    name: &Name,
    fields: &[&Field],
    levels: u32,
    count: u32,
    bytes: &'a [u8],
) -> Result<(Vec<Value>, &'a [u8]), WireError>
    requires { IsSound registry.now }
    ensures { Gives (λ x. (map plain_of x.0.items, tables_of caches.new, x.1.now)) result
        (elements_at (tuple_at (value_at levels registry.now) (map (λ f. f.kind) (fields_at fields.now)) name.now) count (tables_of caches.old) bytes.now) }
{
    let mut elements = Vec::new(alloc);
    let mut rest = bytes;
    for place in 0..count {
        let (value, behind) = tuple_of(alloc, registry, caches, name, fields, levels, rest)?;
        elements.push(value)?;
        rest = behind;
    }
    Ok((elements, rest))
}

/// So many elements, each by its type.
#[cycle(read)]
#[tactic(auto, unfolding(urp_model::specs::Reading::elements_at))]
fn others_of<'a>(
    alloc: Global,
    registry: &Registry,
    caches: &mut ReadCaches,
    element: &TypeName,
    levels: u32,
    count: u32,
    bytes: &'a [u8],
) -> Result<(Vec<Value>, &'a [u8]), WireError>
    requires { IsSound registry.now }
    ensures { Gives (λ x. (map plain_of x.0.items, tables_of caches.new, x.1.now)) result (elements_at (value_at levels registry.now (kind_of element.now)) count (tables_of caches.old) bytes.now) }
{
    let mut elements = Vec::new(alloc);
    let mut rest = bytes;
    for place in 0..count {
        let (value, behind) = value_within(alloc, registry, caches, element, levels, rest)?;
        elements.push(value)?;
        rest = behind;
    }
    Ok((elements, rest))
}
