//! The value of tokens at a type.
ghost use Rattle.std.specs.Prelude.{◌≡◌, map, length, true};
ghost use Rattle.uno_model.specs.Fits.{member_kinds};
ghost use Rattle.uno_model.specs.Kinds as kd;
ghost use Rattle.literal_model.specs.Readings.{value_within, value_step, any_of, held_by, is_void, sequence_of, elements_on, tuple_of, members_on, only_token, single};
ghost use Rattle.literal_model.specs.Shapes.{on_ok};
ghost use Rattle.uno_model.specs.Values as plain;
ghost use Rattle.uno_model.specs.Values.{plains};
ghost use Rattle.uno_entities.specs.TypeNames.{kind_of};
ghost use Rattle.uno_values.specs.Values.{plain_of};
ghost use Rattle.literal_reading.specs.Scanning.{all_placed};
ghost use Rattle.literal_reading.specs.Typing.{Gives, before, kinds_at, with_firsts};

mod bytes;
mod expect;

use crate::single::token_value;
use crate::stop::{Read, Stop};
use crate::token::{Placed, Token};
use bytes::bytes_of;
use expect::{Mark, comma_at, expect, is_mark, left_at};
use std::alloc::Global;
use uno_types::{Field, Name, Registry, TypeName};
use uno_values::{AnyValue, Value};

/// The value in front, nested at most so many levels deep, and the tokens behind it.
#[cycle(typed)]
#[tactic(auto, using(crate::proofs::TypedLemmas::levels))]
pub(crate) fn value_within<'a>(
    alloc: Global,
    registry: &Registry,
    levels: u32,
    kind: &TypeName,
    tokens: &'a [Placed],
) -> Read<'a, Value>
    ensures { Gives (λ x. (plain_of x.0, all_placed x.1.now)) result (value_within levels registry.now (kind_of kind.now) (all_placed tokens.now)) }
{
    if levels == 0 {
        return Err(Stop::NoMemory);
    }
    if !registry.has_type(kind) {
        return Err(Stop::Bad(left_at(tokens)));
    }
    value_step(alloc, registry, levels - 1, kind, tokens)
}

/// The value of a type, with the values inside one level further in.
#[cycle(typed)]
#[tactic(auto, unfolding(literal_model::specs::Readings::value_step))]
fn value_step<'a>(
    alloc: Global,
    registry: &Registry,
    inner: u32,
    kind: &TypeName,
    tokens: &'a [Placed],
) -> Read<'a, Value>
    ensures { Gives (λ x. (plain_of x.0, all_placed x.1.now)) result (value_step registry.now (value_within inner registry.now) (kind_of kind.now) (all_placed tokens.now)) }
{
    match kind {
        TypeName::Any => any_of(alloc, registry, inner, tokens),
        TypeName::Sequence(element) => sequence_of(alloc, registry, inner, element, tokens),
        TypeName::Struct(name) | TypeName::Exception(name) => {
            tuple_of(alloc, registry, inner, name, tokens)
        }
        _ => only_token(alloc, registry, kind, tokens),
    }
}

/// A value of one token.
fn only_token<'a>(
    alloc: Global,
    registry: &Registry,
    kind: &TypeName,
    tokens: &'a [Placed],
) -> Read<'a, Value>
    ensures { Gives (λ x. (plain_of x.0, all_placed x.1.now)) result (only_token (single registry.now (kind_of kind.now)) (all_placed tokens.now)) }
{
    let Some((first, rest)) = tokens.split_first() else {
        return Err(Stop::Bad(0));
    };
    match token_value(alloc, registry, kind, &first.token)? {
        Some(value) => Ok((value, rest)),
        None => Err(Stop::Bad(first.left)),
    }
}

/// A type, and a value of it where it is not void.
#[cycle(typed)]
fn any_of<'a>(
    alloc: Global,
    registry: &Registry,
    inner: u32,
    tokens: &'a [Placed],
) -> Read<'a, Value>
    ensures { Gives (λ x. (plain_of x.0, all_placed x.1.now)) result (any_of (value_within inner registry.now) (all_placed tokens.now)) }
{
    let Some((first, rest)) = tokens.split_first() else {
        return Err(Stop::Bad(0));
    };
    let Token::Cast(kind) = &first.token else {
        return Err(Stop::Bad(first.left));
    };
    held_by(alloc, registry, inner, kind, rest)
}

#[cycle(typed)]
fn held_by<'a>(
    alloc: Global,
    registry: &Registry,
    inner: u32,
    kind: &TypeName,
    tokens: &'a [Placed],
) -> Read<'a, Value>
    ensures { Gives (λ x. (plain_of x.0, all_placed x.1.now)) result (held_by (value_within inner registry.now) (kind_of kind.now) (all_placed tokens.now)) }
{
    if is_void(kind) {
        return any_before(alloc, kind, Value::Void, tokens);
    }
    let (value, rest) = value_within(alloc, registry, inner, kind, tokens)?;
    any_before(alloc, kind, value, rest)
}

fn is_void(kind: &TypeName) -> bool
    ensures { result ≡ is_void (kind_of kind.now) }
{
    matches!(kind, TypeName::Void)
}

/// An any of a value, and the tokens behind it.
fn any_before<'a>(
    alloc: Global,
    kind: &TypeName,
    value: Value,
    rest: &'a [Placed],
) -> Read<'a, Value>
    ensures { Gives (λ x. (plain_of x.0, all_placed x.1.now)) result (before (plain.any (kind_of kind.now) (plain_of value)) (all_placed rest.now)) }
{
    let Ok(kind) = kind.copy(alloc) else {
        drop(value);
        return Err(Stop::NoMemory);
    };
    let any = Box::new(alloc, AnyValue { kind, value })?;
    Ok((Value::Any(any), rest))
}

/// Elements in square brackets; those of a sequence of bytes are kept as bytes.
#[cycle(typed)]
#[tactic(auto, unfolding(literal_model::specs::Readings::value_step))]
fn sequence_of<'a>(
    alloc: Global,
    registry: &Registry,
    inner: u32,
    element: &TypeName,
    tokens: &'a [Placed],
) -> Read<'a, Value>
    ensures { Gives (λ x. (plain_of x.0, all_placed x.1.now)) result (value_step registry.now (value_within inner registry.now) (kd.sequence (kind_of element.now)) (all_placed tokens.now)) }
{
    if let TypeName::Byte = element {
        let (bytes, rest) = bytes_of(alloc, tokens)?;
        return Ok((Value::Bytes(bytes), rest));
    }
    let (elements, rest) = elements_of(alloc, registry, inner, element, tokens)?;
    list_before(alloc, element, elements, rest)
}

/// A sequence of elements, and the tokens behind it.
fn list_before<'a>(
    alloc: Global,
    element: &TypeName,
    elements: Vec<Value>,
    rest: &'a [Placed],
) -> Read<'a, Value>
    ensures { Gives (λ x. (plain_of x.0, all_placed x.1.now)) result (before (plain.list (kind_of element.now) (plains (map plain_of elements.items))) (all_placed rest.now)) }
{
    let Ok(element) = element.copy(alloc) else {
        drop(elements);
        return Err(Stop::NoMemory);
    };
    Ok((Value::List(element, elements), rest))
}

#[cycle(typed)]
fn elements_of<'a>(
    alloc: Global,
    registry: &Registry,
    inner: u32,
    element: &TypeName,
    tokens: &'a [Placed],
) -> Read<'a, Vec<Value>>
    ensures { Gives (λ x. (map plain_of x.0.items, all_placed x.1.now)) result (sequence_of (value_within inner registry.now (kind_of element.now)) (all_placed tokens.now)) }
{
    let left = left_at(tokens);
    let rest = expect(left, Mark::OpensSquare, tokens)?;
    let Some((first, behind)) = rest.split_first() else {
        return Err(Stop::Bad(left));
    };
    let mut elements = Vec::new(alloc);
    if is_mark(Mark::ClosesSquare, &first.token) {
        return Ok((elements, behind));
    }
    match elements_on(alloc, registry, inner, element, left, rest, &mut elements) {
        Ok(rest) => Ok((elements, rest)),
        Err(stop) => {
            drop(elements);
            Err(stop)
        }
    }
}

/// The elements from the first one on, behind those that are there. There are no more of them than tokens.
#[cycle(typed)]
fn elements_on<'a>(
    alloc: Global,
    registry: &Registry,
    inner: u32,
    element: &TypeName,
    left: usize,
    tokens: &'a [Placed],
    elements: &mut Vec<Value>,
) -> Result<&'a [Placed], Stop>
    ensures { Gives (λ rest. (map plain_of elements.new.items, all_placed rest.now)) result
        (with_firsts (map plain_of elements.old.items) (elements_on (length (all_placed tokens.now)) left (value_within inner registry.now (kind_of element.now)) (all_placed tokens.now))) }
{
    let mut rest = tokens;
    for _ in 0..tokens.len() {
        let (value, behind) = value_within(alloc, registry, inner, element, rest)?;
        elements.push(value)?;
        let Some((next, after)) = behind.split_first() else {
            return Err(Stop::Bad(left));
        };
        if is_mark(Mark::ClosesSquare, &next.token) {
            return Ok(after);
        }
        if !is_mark(Mark::Comma, &next.token) {
            return Err(Stop::Bad(left));
        }
        rest = after;
    }
    Err(Stop::NoMemory)
}

/// A struct or an exception: its members in curly brackets, those of its bases first.
#[cycle(typed)]
#[tactic(auto, unfolding(literal_model::specs::Readings::value_step))]
fn tuple_of<'a>(
    alloc: Global,
    registry: &Registry,
    inner: u32,
    name: &Name,
    tokens: &'a [Placed],
) -> Read<'a, Value>
    ensures { Gives (λ x. (plain_of x.0, all_placed x.1.now)) result (value_step registry.now (value_within inner registry.now) (kd.struct name.now) (all_placed tokens.now)) }
{
    let left = left_at(tokens);
    let rest = expect(left, Mark::OpensCurly, tokens)?;
    let fields = registry.members(alloc, name.as_str())?;
    let mut members = Vec::new(alloc);
    let read = members_on(alloc, registry, inner, &fields, left, rest, &mut members);
    drop(fields);
    match read {
        Ok(rest) => tuple_before(name, members, rest),
        Err(stop) => {
            drop(members);
            Err(stop)
        }
    }
}

/// A tuple of members, and the tokens behind it.
fn tuple_before<'a>(name: &Name, members: Vec<Value>, rest: &'a [Placed]) -> Read<'a, Value>
    ensures { Gives (λ x. (plain_of x.0, all_placed x.1.now)) result (before (plain.tuple name.now (plains (map plain_of members.items))) (all_placed rest.now)) }
{
    let Ok(name) = name.copy() else {
        drop(members);
        return Err(Stop::NoMemory);
    };
    Ok((Value::Tuple(name, members), rest))
}

/// The members of these fields and the bracket behind them, behind those that are there.
#[cycle(typed)]
fn members_on<'a>(
    alloc: Global,
    registry: &Registry,
    inner: u32,
    fields: &[&Field],
    left: usize,
    tokens: &'a [Placed],
    members: &mut Vec<Value>,
) -> Result<&'a [Placed], Stop>
    ensures { Gives (λ rest. (map plain_of members.new.items, all_placed rest.now)) result
        (with_firsts (map plain_of members.old.items) (members_on (value_within inner registry.now) left true (kinds_at fields.now) (all_placed tokens.now))) }
{
    let mut rest = tokens;
    let mut is_first = true;
    for field in fields {
        let front = comma_at(is_first, left, rest)?;
        let (value, behind) = value_within(alloc, registry, inner, &field.kind, front)?;
        members.push(value)?;
        is_first = false;
        rest = behind;
    }
    expect(left, Mark::ClosesCurly, rest)
}
