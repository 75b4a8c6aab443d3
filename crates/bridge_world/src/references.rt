//! Whether a value has a reference.
ghost use Rattle.std.specs.Prelude.{◌≡◌, is_some};
ghost use Rattle.plan_model.specs.Roots.{next_loose};
ghost use Rattle.uno_model.specs.Values.{object_in, refs, refs_in};
ghost use Rattle.uno_values.specs.References.{ref_of};
ghost use Rattle.uno_values.specs.Values.{plain_of, plains_of};

use uno_values::{AnyValue, Reference, Value};

/// Whether there is a reference in a value that is not null.
#[cycle(refs)]
#[tactic(auto, unfolding(uno_model::specs::Values::refs, uno_model::specs::Values::refs_in))]
fn has_reference(value: &Value) -> bool
    ensures { result ≡ is_some (next_loose (refs (plain_of value.now))) }
{
    match value {
        Value::Any(any) => any_has_reference(any),
        Value::Tuple(_, members) => some_has_reference(members),
        Value::List(_, elements) => some_has_reference(elements),
        Value::Ref(reference) => is_some(reference),
        Value::Void
        | Value::Char(_)
        | Value::Boolean(_)
        | Value::Byte(_)
        | Value::Short(_)
        | Value::UnsignedShort(_)
        | Value::Long(_)
        | Value::UnsignedLong(_)
        | Value::Hyper(_)
        | Value::UnsignedHyper(_)
        | Value::Str(_)
        | Value::Kind(_)
        | Value::Enum(_, _)
        | Value::Bytes(_) => false,
    }
}

#[cycle(refs)]
fn any_has_reference(any: &AnyValue) -> bool
    ensures { result ≡ is_some (next_loose (refs (plain_of any.now.value))) }
{
    has_reference(&any.value)
}

/// Whether there is one in any of these values.
#[cycle(refs)]
#[tactic(auto, unfolding(uno_model::specs::Values::refs_in))]
pub(crate) fn some_has_reference(values: &[Value]) -> bool
    ensures { result ≡ is_some (next_loose (refs_in (plains_of values.now))) }
{
    for value in values {
        if has_reference(value) {
            return true;
        }
    }
    false
}

/// Whether a reference is not null.
fn is_some(reference: &Reference) -> bool
    ensures { result ≡ is_some (next_loose (object_in (ref_of reference.now))) }
{
    match reference {
        Reference::Null => false,
        Reference::Local { .. } | Reference::Remote { .. } => true,
    }
}
