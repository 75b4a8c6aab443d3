//! The references in a value.
ghost use Rattle.std.specs.Prelude.{◌≡◌, ◌++◌, IfOk, OnOk, map};
ghost use Rattle.uno_model.specs.Values.{refs, refs_in, object_in};
ghost use Rattle.uno_values.specs.References.{ref_of};
ghost use Rattle.uno_values.specs.Values.{plain_of, plains_of};

use crate::{AnyValue, Reference, Value};
use std::alloc::Global;
use uno_base::NoMemory;

/// The references that are not null, from left to right.
pub fn refs_of(alloc: Global, value: &Value) -> Result<Vec<Reference>, NoMemory>
    ensures { IfOk result (λ found. map ref_of found.items ≡ refs (plain_of value.now)) }
{
    let mut found = Vec::new(alloc);
    push_refs(&mut found, value)?;
    Ok(found)
}

#[cycle(refs)]
#[tactic(auto, unfolding(uno_model::specs::Values::refs, uno_model::specs::Values::refs_in))]
fn push_refs(found: &mut Vec<Reference>, value: &Value) -> Result<(), NoMemory>
    ensures { OnOk result (map ref_of found.new.items ≡ map ref_of found.old.items ++ refs (plain_of value.now)) }
{
    match value {
        Value::Any(any) => push_any(found, any),
        Value::Tuple(_, members) => push_all(found, members),
        Value::List(_, elements) => push_all(found, elements),
        Value::Ref(reference) => push_held(found, reference),
        Value::Void
        | Value::Char(_)
        | Value::Boolean(_)
        | Value::Byte(_)
        | Value::Short(_)
        | Value::UnsignedShort(_)
        | Value::Long(_)
        | Value::UnsignedLong(_)
        | Value::Hyper(_)
        | Value::UnsignedHyper(_)
        | Value::Str(_)
        | Value::Kind(_)
        | Value::Enum(_, _)
        | Value::Bytes(_) => Ok(()),
    }
}

#[cycle(refs)]
#[tactic(auto, unfolding(uno_model::specs::Values::refs, uno_model::specs::Values::refs_in))]
fn push_any(found: &mut Vec<Reference>, any: &AnyValue) -> Result<(), NoMemory>
    ensures { OnOk result (map ref_of found.new.items ≡ map ref_of found.old.items ++ refs (plain_of any.now.value)) }
{
    push_refs(found, &any.value)
}

#[cycle(refs)]
#[tactic(auto, unfolding(uno_model::specs::Values::refs, uno_model::specs::Values::refs_in))]
fn push_all(found: &mut Vec<Reference>, values: &[Value]) -> Result<(), NoMemory>
    ensures { OnOk result (map ref_of found.new.items ≡ map ref_of found.old.items ++ refs_in (plains_of values.now)) }
{
    for value in values {
        push_refs(found, value)?;
    }
    Ok(())
}

/// The reference itself, where it is not null.
fn push_held(found: &mut Vec<Reference>, reference: &Reference) -> Result<(), NoMemory>
    ensures { OnOk result (map ref_of found.new.items ≡ map ref_of found.old.items ++ object_in (ref_of reference.now)) }
{
    if matches!(reference, Reference::Null) {
        return Ok(());
    }
    let copy = reference.copy()?;
    found.push(copy)?;
    Ok(())
}
