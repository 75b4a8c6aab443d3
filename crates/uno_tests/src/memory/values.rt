//! Defaults, weights, references and copies.
ghost use Rattle.uno_model.specs.Sound.{IsSound};

use std::alloc::Global;
use uno_base::NoMemory;
use uno_model::the_built_in_entities_are_sound;
use uno_types::{Name, Registry, Text, TypeName};
use uno_values::{AnyValue, Reference, Value, default_of, refs_of, weight};
use value_text::print_value;

/// An any of an exception with a text and an object.
const THROWN: &str = "(t.Bad){\"no\",@\"a\"<t.XBase>}";

fn members(alloc: Global) -> Result<Vec<Value>, NoMemory> {
    let text = Text::of(alloc, "no")?;
    let oid = Text::of(alloc, "a")?;
    let face = Name::of(alloc, "t.XBase")?;
    let mut members = Vec::with_capacity(alloc, 2)?;
    members.push(Value::Str(text)).ok();
    members
        .push(Value::Ref(Reference::Remote { oid, face }))
        .ok();
    Ok(members)
}

fn thrown(alloc: Global) -> Result<AnyValue, NoMemory> {
    let kind = Name::of(alloc, "t.Bad")?;
    let name = Name::of(alloc, "t.Bad")?;
    let value = Value::Tuple(name, members(alloc)?);
    Ok(AnyValue {
        kind: TypeName::Exception(kind),
        value,
    })
}

/// Whether a value is printed so.
fn prints(
    alloc: Global,
    registry: &Registry,
    value: &Value,
    literal: &str,
) -> Result<bool, NoMemory> {
    let text = print_value(alloc, registry, value)?;
    Ok(text.as_slice() == literal.as_bytes())
}

/// The same of a value that was made, where it was.
fn made_prints(
    alloc: Global,
    registry: &Registry,
    made: &Result<Value, NoMemory>,
    literal: &str,
) -> Result<bool, NoMemory> {
    match made {
        Ok(value) => prints(alloc, registry, value, literal),
        Err(NoMemory) => Err(NoMemory),
    }
}

/// Whether a copy is printed as what was copied.
fn is_copied(alloc: Global, registry: &Registry, value: &Value) -> Result<bool, NoMemory> {
    let copy = value.copy(alloc);
    let right = made_prints(alloc, registry, &copy, THROWN);
    drop(copy);
    right
}

/// Whether the one reference is that of the peer's object.
fn has_refs(alloc: Global, value: &Value) -> Result<bool, NoMemory> {
    match &refs_of(alloc, value) {
        Ok(found) => Ok(found.len() == 1 && is_peer(found.first())),
        Err(NoMemory) => Err(NoMemory),
    }
}

fn is_peer(reference: Option<&Reference>) -> bool {
    match reference {
        Some(Reference::Remote { oid, .. }) => oid.as_str() == "a",
        _ => false,
    }
}

fn has_parts(alloc: Global, registry: &Registry, value: &Value) -> Result<bool, NoMemory> {
    Ok(
        weight(registry, value) == 16
            && prints(alloc, registry, value, THROWN)?
            && has_refs(alloc, value)?
            && is_copied(alloc, registry, value)?,
    )
}

/// Whether the weight, the references and the copy of the any are right.
fn thrown_is_right(alloc: Global, registry: &Registry) -> Result<bool, NoMemory> {
    let value = Value::Any(Box::new(alloc, thrown(alloc)?)?);
    let right = has_parts(alloc, registry, &value);
    drop(value);
    right
}

/// Whether the default of an exception is right.
fn default_is_right(alloc: Global, registry: &Registry) -> Result<bool, NoMemory>
    requires { IsSound registry.now }
{
    let kind = TypeName::Exception(Name::of(alloc, "com.sun.star.uno.Exception")?);
    let value = default_of(alloc, registry, &kind);
    drop(kind);
    let right = made_prints(alloc, registry, &value, "{\"\",null}");
    drop(value);
    right
}

fn both_are_right(alloc: Global, registry: &Registry) -> Result<bool, NoMemory>
    requires { IsSound registry.now }
{
    Ok(default_is_right(alloc, registry)? && thrown_is_right(alloc, registry)?)
}

pub(super) fn are_right(alloc: Global) -> Result<bool, NoMemory> {
    the_built_in_entities_are_sound();
    match &Registry::new(alloc) {
        Ok(registry) => both_are_right(alloc, registry),
        Err(NoMemory) => Err(NoMemory),
    }
}
