//! Each value is one that code can hold: its numbers are in range, and its texts are UTF-8.
ghost use Rattle.std.specs.Str.{IsUtf8};
ghost use Rattle.uno_model.specs.Spellable.{AreBytes, AreSpellable, IsSpellable, IsSpellableRef};
ghost use Rattle.uno_values.specs.References.{ref_of};
ghost use Rattle.uno_values.specs.Values.{plain_of, plains_of};

use crate::{Reference, Value};
use uno_types::Text;

/// A law: the function does nothing, and its clause is the law. It takes the time of a walk through the value.
#[cycle(spellable)]
#[tactic(auto, unfolding(uno_model::specs::Spellable::IsSpellable))]
pub fn every_value_is_spellable(value: &Value)
    ensures { IsSpellable (plain_of value.now) }
{
    match value {
        Value::Void | Value::Boolean(_) | Value::Kind(_) => {}
        Value::Char(number) => drop(*number),
        Value::Byte(number) => drop(*number),
        Value::Short(number) => drop(*number),
        Value::UnsignedShort(number) => drop(*number),
        Value::Long(number) | Value::Enum(_, number) => drop(*number),
        Value::UnsignedLong(number) => drop(*number),
        Value::Hyper(number) => drop(*number),
        Value::UnsignedHyper(number) => drop(*number),
        Value::Str(text) => text_is_utf8(text),
        Value::Any(any) => every_value_is_spellable(&any.value),
        Value::Tuple(_, values) | Value::List(_, values) => all_values_are_spellable(values),
        Value::Bytes(bytes) => all_are_bytes(bytes),
        Value::Ref(reference) => every_reference_is_spellable(reference),
    }
}

#[cycle(spellable)]
#[tactic(auto, unfolding(uno_model::specs::Spellable::AreSpellable))]
fn all_values_are_spellable(values: &[Value])
    ensures { AreSpellable (plains_of values.now) }
{
    for value in values {
        every_value_is_spellable(value);
    }
}

fn every_reference_is_spellable(reference: &Reference)
    ensures { IsSpellableRef (ref_of reference.now) }
{
    match reference {
        Reference::Null => {}
        Reference::Local { oid, face: _ } | Reference::Remote { oid, face: _ } => text_is_utf8(oid),
    }
}

fn text_is_utf8(text: &Text)
    ensures { IsUtf8 text.now }
{
    let _text = text.as_str();
}

fn all_are_bytes(bytes: &[u8])
    ensures { AreBytes bytes.now }
{}
