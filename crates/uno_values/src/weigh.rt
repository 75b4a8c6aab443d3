//! The weight of a value: the bytes that it takes on the wire with each name written out.
ghost use Rattle.std.specs.Prelude.{◌≡◌, ◌+◌, ◌^◌, ◌-◌, min};
ghost use Rattle.uno_model.specs.Weights.{weight, weights, count, compressed_weight, text_weight, kind_weight, ref_weight};
ghost use Rattle.uno_entities.specs.TypeNames.{kind_of};
ghost use Rattle.uno_values.specs.References.{ref_of};
ghost use Rattle.uno_values.specs.Values.{plain_of, plains_of};

use crate::{AnyValue, Reference, Value};
use uno_types::{Registry, TypeName};

/// How many bytes the value takes on the wire where each name in it is written out with its slot (URP specification,
/// marshalling of values), or 2^64 - 1 where they are more. A value names all its types, so the registry is not looked into.
pub fn weight(_registry: &Registry, value: &Value) -> u64
    ensures { result ≡ min (weight (plain_of value.now)) (2 ^ 64 - 1) }
{
    weight_of(value)
}

#[cycle(weigh)]
#[tactic(auto, unfolding(uno_model::specs::Weights::weight, uno_model::specs::Weights::weights))]
fn weight_of(value: &Value) -> u64
    ensures { result ≡ min (weight (plain_of value.now)) (2 ^ 64 - 1) }
{
    match value {
        Value::Void => 0,
        Value::Boolean(_) | Value::Byte(_) => 1,
        Value::Char(_) | Value::Short(_) | Value::UnsignedShort(_) => 2,
        Value::Long(_) | Value::UnsignedLong(_) | Value::Enum(_, _) => 4,
        Value::Hyper(_) | Value::UnsignedHyper(_) => 8,
        Value::Str(text) => counted(text.as_str().len() as u64),
        Value::Kind(kind) => kind_weight(kind),
        Value::Any(any) => any_weight(any),
        Value::Tuple(_, members) => weights(members),
        Value::List(_, elements) => list_weight(elements),
        Value::Bytes(bytes) => counted(bytes.len() as u64),
        Value::Ref(reference) => ref_weight(reference),
    }
}

/// The type, and what the any holds.
#[cycle(weigh)]
#[tactic(auto, unfolding(uno_model::specs::Weights::weight, uno_model::specs::Weights::weights))]
pub fn any_weight(any: &AnyValue) -> u64
    ensures { result ≡ min (kind_weight (kind_of any.now.kind) + weight (plain_of any.now.value)) (2 ^ 64 - 1) }
{
    kind_weight(&any.kind).saturating_add(weight_of(&any.value))
}

/// Elements behind their count.
#[cycle(weigh)]
#[tactic(auto, using(crate::proofs::Parts::count_of))]
fn list_weight(elements: &[Value]) -> u64
    ensures { result ≡ min (compressed_weight (count (plains_of elements.now)) + weights (plains_of elements.now)) (2 ^ 64 - 1) }
{
    compressed(elements.len() as u64).saturating_add(weights(elements))
}

/// All of them together.
#[cycle(weigh)]
#[tactic(auto, unfolding(uno_model::specs::Weights::weight, uno_model::specs::Weights::weights))]
pub fn weights(values: &[Value]) -> u64
    ensures { result ≡ min (weights (plains_of values.now)) (2 ^ 64 - 1) }
{
    let mut total: u64 = 0;
    for value in values {
        total = total.saturating_add(weight_of(value));
    }
    total
}

/// A compressed number.
fn compressed(count: u64) -> u64
    ensures { result ≡ compressed_weight count }
{
    if count < 255 { 1 } else { 5 }
}

/// So many bytes behind their count.
fn counted(count: u64) -> u64
    ensures { result ≡ min (compressed_weight count + count) (2 ^ 64 - 1) }
{
    compressed(count).saturating_add(count)
}

/// A class, and for what is no simple type a slot of two bytes and the name.
fn kind_weight(kind: &TypeName) -> u64
    ensures { result ≡ min (kind_weight (kind_of kind.now)) (2 ^ 64 - 1) }
{
    match kind {
        TypeName::Void
        | TypeName::Char
        | TypeName::Boolean
        | TypeName::Byte
        | TypeName::Short
        | TypeName::UnsignedShort
        | TypeName::Long
        | TypeName::UnsignedLong
        | TypeName::Hyper
        | TypeName::UnsignedHyper
        | TypeName::Str
        | TypeName::Kind
        | TypeName::Any => 1,
        TypeName::Enum(_)
        | TypeName::Struct(_)
        | TypeName::Exception(_)
        | TypeName::Interface(_)
        | TypeName::Sequence(_) => counted(kind.name_len()).saturating_add(3),
    }
}

/// An identity, which is empty for null, and a slot of two bytes.
fn ref_weight(reference: &Reference) -> u64
    ensures { result ≡ min (ref_weight (ref_of reference.now)) (2 ^ 64 - 1) }
{
    match reference {
        Reference::Null => 3,
        Reference::Local { oid, face: _ } => {
            counted(oid.as_str().len() as u64).saturating_add(2)
        }
        Reference::Remote { oid, face: _ } => {
            counted(oid.as_str().len() as u64).saturating_add(2)
        }
    }
}
