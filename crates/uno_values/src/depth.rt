//! How deep a value is nested.
ghost use Rattle.std.specs.Prelude.{◌≡◌, ◌+◌, ◌^◌, ◌-◌, min};
ghost use Rattle.uno_model.specs.Values.{depth, depth_in};
ghost use Rattle.uno_values.specs.Values.{plain_of, plains_of};

use crate::{AnyValue, Value};

/// How deep a value is nested, or 2^64 - 1 where it is more: the outermost has depth 1, and elements, members and what an any
/// holds are one deeper. The bytes of a sequence of byte are no values of their own.
pub fn depth_of(value: &Value) -> u64
    ensures { result ≡ min (depth (plain_of value.now)) (2 ^ 64 - 1) }
{
    depth(value)
}

#[cycle(depth)]
#[tactic(auto, unfolding(uno_model::specs::Values::depth))]
fn depth(value: &Value) -> u64
    ensures { result ≡ min (depth (plain_of value.now)) (2 ^ 64 - 1) }
{
    match value {
        Value::Any(any) => depth_inside(any),
        Value::Tuple(_, members) => deepest(members).saturating_add(1),
        Value::List(_, elements) => deepest(elements).saturating_add(1),
        Value::Void
        | Value::Char(_)
        | Value::Boolean(_)
        | Value::Byte(_)
        | Value::Short(_)
        | Value::UnsignedShort(_)
        | Value::Long(_)
        | Value::UnsignedLong(_)
        | Value::Hyper(_)
        | Value::UnsignedHyper(_)
        | Value::Str(_)
        | Value::Kind(_)
        | Value::Enum(_, _)
        | Value::Bytes(_)
        | Value::Ref(_) => 1,
    }
}

/// An any is one deeper than what it holds.
#[cycle(depth)]
fn depth_inside(any: &AnyValue) -> u64
    ensures { result ≡ min (depth (plain_of any.now.value) + 1) (2 ^ 64 - 1) }
{
    depth(&any.value).saturating_add(1)
}

/// The greatest depth among them, or 0 where there are none.
#[cycle(depth)]
#[tactic(auto, unfolding(uno_model::specs::Values::depth_in))]
fn deepest(values: &[Value]) -> u64
    ensures { result ≡ min (depth_in (plains_of values.now)) (2 ^ 64 - 1) }
{
    let mut deepest: u64 = 0;
    for value in values {
        deepest = deepest.max(depth(value));
    }
    deepest
}
