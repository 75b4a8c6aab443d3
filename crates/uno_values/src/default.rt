//! The default of a type.
ghost use Rattle.std.specs.Prelude.{◌≡◌, IfOk, map};
ghost use Rattle.uno_model.specs.Codes.{same_kind};
ghost use Rattle.uno_model.specs.Defaults.{default_of_kind, first_number, items_of};
ghost use Rattle.uno_model.specs.Kinds as kd;
ghost use Rattle.uno_model.specs.Registry.{find_entity};
ghost use Rattle.uno_model.specs.Sound.{IsSound};
ghost use Rattle.uno_model.specs.Values.{any, void};
ghost use Rattle.uno_entities.specs.TypeNames.{kind_of};
ghost use Rattle.uno_values.specs.Fitting.{kinds_at};
ghost use Rattle.uno_values.specs.Values.{plain_of};

use crate::value::{any_holding, item_of, list_of, tuple_of};
use crate::{AnyValue, Reference, Value};
use std::alloc::Global;
use uno_base::NoMemory;
use uno_types::{Body, Field, Name, Registry, Text, TypeName};

/// How deep a default may be nested: the stack that it takes, also to let it go, is memory too.
const DEEPEST: u32 = 1024;

/// The default of a type: 0, false, the empty text, the type void, an any of void, no elements, null, the first item of an enum,
/// and of a struct or an exception the defaults of all members. A default that is nested more than 1,024 deep is `NoMemory`.
pub fn default_of(alloc: Global, registry: &Registry, kind: &TypeName) -> Result<Value, NoMemory>
    requires { IsSound registry.now }
    ensures { IfOk result (λ v. plain_of v ≡ default_of_kind registry.now (kind_of kind.now)) }
{
    default_within(alloc, registry, kind, DEEPEST)
}

/// The same, at most so deep.
#[cycle(default)]
#[tactic(auto, unfolding(uno_model::specs::Defaults::default_of_kind, uno_model::specs::Defaults::default_within))]
fn default_within(
    alloc: Global,
    registry: &Registry,
    kind: &TypeName,
    depth: u32,
) -> Result<Value, NoMemory>
    requires { IsSound registry.now }
    ensures { IfOk result (λ v. plain_of v ≡ default_of_kind registry.now (kind_of kind.now)) }
{
    match kind {
        TypeName::Void => Ok(Value::Void),
        TypeName::Char => Ok(Value::Char(0)),
        TypeName::Boolean => Ok(Value::Boolean(false)),
        TypeName::Byte => Ok(Value::Byte(0)),
        TypeName::Short => Ok(Value::Short(0)),
        TypeName::UnsignedShort => Ok(Value::UnsignedShort(0)),
        TypeName::Long => Ok(Value::Long(0)),
        TypeName::UnsignedLong => Ok(Value::UnsignedLong(0)),
        TypeName::Hyper => Ok(Value::Hyper(0)),
        TypeName::UnsignedHyper => Ok(Value::UnsignedHyper(0)),
        TypeName::Str => Ok(Value::Str(Text::of(alloc, "")?)),
        TypeName::Kind => Ok(Value::Kind(TypeName::Void)),
        TypeName::Any => default_any(alloc),
        TypeName::Enum(name) => item_of(name, first_number(registry, name.as_str())),
        TypeName::Struct(name) => default_tuple(alloc, registry, name, depth),
        TypeName::Exception(name) => default_tuple(alloc, registry, name, depth),
        TypeName::Interface(_) => Ok(Value::Ref(Reference::Null)),
        TypeName::Sequence(inner) => default_sequence(alloc, registry, inner),
    }
}

/// An any of void.
fn default_any(alloc: Global) -> Result<Value, NoMemory>
    ensures { IfOk result (λ v. plain_of v ≡ any kd.void void) }
{
    let any = AnyValue {
        kind: TypeName::Void,
        value: Value::Void,
    };
    any_holding(alloc, any)
}

/// A sequence of no elements.
#[tactic(auto, unfolding(uno_model::specs::Defaults::default_of_kind, uno_model::specs::Defaults::default_within))]
fn default_sequence(alloc: Global, registry: &Registry, inner: &TypeName) -> Result<Value, NoMemory>
    ensures { IfOk result (λ v. plain_of v ≡ default_of_kind registry.now (kd.sequence (kind_of inner.now))) }
{
    if is_byte(inner) {
        return Ok(Value::Bytes(Vec::new(alloc)));
    }
    list_of(alloc, inner, Vec::new(alloc))
}

#[tactic(auto, unfolding(uno_model::specs::Codes::same_kind))]
fn is_byte(kind: &TypeName) -> bool
    ensures { result ≡ same_kind (kind_of kind.now) kd.byte }
{
    matches!(kind, TypeName::Byte)
}

/// The number of the first item that the enum of this name has.
fn first_number(registry: &Registry, name: &str) -> i32
    ensures { result ≡ first_number (items_of (find_entity name.now registry.now)) }
{
    let Some(entity) = registry.find(name) else {
        return 0
    };
    let Body::Enum { items } = &entity.body else {
        return 0
    };
    match items.first() {
        Some(item) => item.number,
        None => 0,
    }
}

/// A struct or an exception of the defaults of its members.
#[cycle(default)]
fn default_tuple(
    alloc: Global,
    registry: &Registry,
    name: &Name,
    depth: u32,
) -> Result<Value, NoMemory>
    requires { IsSound registry.now }
    ensures structs { IfOk result (λ v. plain_of v ≡ default_of_kind registry.now (kd.struct name.now)) }
    ensures exceptions { IfOk result (λ v. plain_of v ≡ default_of_kind registry.now (kd.exception name.now)) }
{
    let Some(inner) = depth.checked_sub(1) else {
        return Err(NoMemory)
    };
    let fields = registry.members(alloc, name.as_str())?;
    let members = defaults_of(alloc, registry, &fields, inner)?;
    Ok(tuple_of(name, members)?)
}

/// The default of each member.
#[cycle(default)]
fn defaults_of(
    alloc: Global,
    registry: &Registry,
    fields: &[&Field],
    depth: u32,
) -> Result<Vec<Value>, NoMemory>
    requires { IsSound registry.now }
    ensures { IfOk result (λ vs. map plain_of vs.items ≡ map (default_of_kind registry.now) (kinds_at fields.now)) }
{
    let mut values = Vec::new(alloc);
    for field in fields {
        values.push(default_within(alloc, registry, &field.kind, depth)?)?;
    }
    Ok(values)
}
