//! Values (URP specification, marshalling of values).
ghost use Rattle.std.specs.Prelude.{◌≡◌, ◌<◌, ◌^◌, ◌++◌, length, OnOk};
ghost use Rattle.std.specs.Str.{IsUtf8};
ghost use Rattle.uno_model.specs.Kinds.{name_of};
ghost use Rattle.uno_model.specs.Weights.{count};
ghost use Rattle.uno_model.specs.Spellable.{AreBytes, IsSpellable, IsSpellableRef, AreSpellable};
ghost use Rattle.uno_entities.specs.TypeNames.{kind_of};
ghost use Rattle.uno_values.specs.References.{ref_of};
ghost use Rattle.uno_values.specs.Values.{plain_of, plains_of};
ghost use Rattle.urp_model.specs.Writing.{compressed, measured, spelling, spellings, after, afters, kind_spelling, kind_after, holding_types, ref_spelling, ref_after};
ghost use Rattle.urp_wire.specs.Written.{names_of, IsWritable, AreWritable, IsWritableRef};

use crate::parts::{
    put_byte, put_eight_bytes, put_four_bytes, put_length, put_measured, put_two_bytes,
};
use crate::{write_kind, write_oid};
use std::alloc::Global;
use uno_base::NoMemory;
use uno_types::Text;
use uno_values::{AnyValue, Reference, Value};
use urp_cache::{SendCache, SendCaches};

/// A value, whose parts have lengths of four bytes.
#[cycle(write)]
#[tactic(auto, unfolding(urp_model::specs::Writing::spelling, urp_model::specs::Writing::spellings, urp_model::specs::Writing::after, urp_model::specs::Writing::afters, uno_model::specs::Spellable::IsSpellable, uno_model::specs::Spellable::AreSpellable, crate::specs::Written::IsWritable, crate::specs::Written::AreWritable))]
pub fn put_value(
    alloc: Global,
    caches: &mut SendCaches,
    value: &Value,
    to: &mut Vec<u8>,
) -> Result<(), NoMemory>
    requires { IsWritable (plain_of value.now) }
    ensures bytes { OnOk result (to.new.items ≡ to.old.items ++ spelling (plain_of value.now) (names_of caches.old)) }
    ensures names { OnOk result (names_of caches.new ≡ after (plain_of value.now) (names_of caches.old)) }
    ensures ranges { OnOk result (IsSpellable (plain_of value.now)) }
{
    match value {
        Value::Void => Ok(()),
        Value::Char(unit) => put_two_bytes(*unit, to),
        Value::Boolean(truth) => put_byte(u8::from(*truth), to),
        Value::Byte(number) => put_byte(number.cast_unsigned(), to),
        Value::Short(number) => put_two_bytes(number.cast_unsigned(), to),
        Value::UnsignedShort(number) => put_two_bytes(*number, to),
        Value::Long(number) => put_four_bytes(number.cast_unsigned(), to),
        Value::UnsignedLong(number) => put_four_bytes(*number, to),
        Value::Hyper(number) => put_eight_bytes(number.cast_unsigned(), to),
        Value::UnsignedHyper(number) => put_eight_bytes(*number, to),
        Value::Str(text) => put_text(text, to),
        Value::Kind(kind) => write_kind(alloc, &mut caches.types, kind, to),
        Value::Any(any) => put_any(alloc, caches, any, to),
        Value::Enum(_, number) => put_four_bytes(number.cast_unsigned(), to),
        Value::Tuple(_, members) => put_all(alloc, caches, members, to),
        Value::List(_, elements) => put_list(alloc, caches, elements, to),
        Value::Bytes(bytes) => put_bytes(bytes, to),
        Value::Ref(reference) => put_reference(&mut caches.oids, reference, to),
    }
}

fn put_text(text: &Text, to: &mut Vec<u8>) -> Result<(), NoMemory>
    requires { length text.now < 2 ^ 32 }
    ensures bytes { OnOk result (to.new.items ≡ to.old.items ++ measured text.now) }
    ensures text { IsUtf8 text.now }
{
    put_measured(text.as_str().as_bytes(), to)
}

fn put_bytes(bytes: &[u8], to: &mut Vec<u8>) -> Result<(), NoMemory>
    requires { length bytes.now < 2 ^ 32 }
    ensures bytes { OnOk result (to.new.items ≡ to.old.items ++ measured bytes.now) }
    ensures ranges { AreBytes bytes.now }
{
    put_measured(bytes, to)
}

/// The type, and what the any holds.
#[cycle(write)]
pub fn put_any(
    alloc: Global,
    caches: &mut SendCaches,
    any: &AnyValue,
    to: &mut Vec<u8>,
) -> Result<(), NoMemory>
    requires name { length (name_of (kind_of any.now.kind)) < 2 ^ 32 }
    requires value { IsWritable (plain_of any.now.value) }
    ensures bytes { OnOk result (to.new.items ≡ to.old.items ++ (kind_spelling (kind_of any.now.kind) caches.old.types
        ++ spelling (plain_of any.now.value) (holding_types (names_of caches.old) (kind_after (kind_of any.now.kind) caches.old.types)))) }
    ensures names { OnOk result (names_of caches.new ≡ after (plain_of any.now.value) (holding_types (names_of caches.old) (kind_after (kind_of any.now.kind) caches.old.types))) }
    ensures ranges { OnOk result (IsSpellable (plain_of any.now.value)) }
{
    write_kind(alloc, &mut caches.types, &any.kind, to)?;
    put_value(alloc, caches, &any.value, to)
}

/// Elements behind their count.
#[cycle(write)]
#[tactic(auto, using(uno_values::proofs::Parts::count_of))]
fn put_list(
    alloc: Global,
    caches: &mut SendCaches,
    elements: &[Value],
    to: &mut Vec<u8>,
) -> Result<(), NoMemory>
    requires count { count (plains_of elements.now) < 2 ^ 32 }
    requires elements { AreWritable (plains_of elements.now) }
    ensures bytes { OnOk result (to.new.items ≡ to.old.items ++ (compressed (count (plains_of elements.now)) ++ spellings (plains_of elements.now) (names_of caches.old))) }
    ensures names { OnOk result (names_of caches.new ≡ afters (plains_of elements.now) (names_of caches.old)) }
    ensures ranges { OnOk result (AreSpellable (plains_of elements.now)) }
{
    put_length(elements.len(), to)?;
    put_all(alloc, caches, elements, to)?;
    Ok(())
}

/// One after the other.
#[cycle(write)]
#[tactic(auto, unfolding(urp_model::specs::Writing::spelling, urp_model::specs::Writing::spellings, urp_model::specs::Writing::after, urp_model::specs::Writing::afters, uno_model::specs::Spellable::IsSpellable, uno_model::specs::Spellable::AreSpellable, crate::specs::Written::IsWritable, crate::specs::Written::AreWritable))]
pub fn put_all(
    alloc: Global,
    caches: &mut SendCaches,
    values: &[Value],
    to: &mut Vec<u8>,
) -> Result<(), NoMemory>
    requires { AreWritable (plains_of values.now) }
    ensures bytes { OnOk result (to.new.items ≡ to.old.items ++ spellings (plains_of values.now) (names_of caches.old)) }
    ensures names { OnOk result (names_of caches.new ≡ afters (plains_of values.now) (names_of caches.old)) }
    ensures ranges { OnOk result (AreSpellable (plains_of values.now)) }
{
    for value in values {
        put_value(alloc, caches, value, to)?;
    }
    Ok(())
}

/// The identity of an object, or the empty name and a slot that is none; its interface is not written.
fn put_reference(
    oids: &mut SendCache,
    reference: &Reference,
    to: &mut Vec<u8>,
) -> Result<(), NoMemory>
    requires { IsWritableRef (ref_of reference.now) }
    ensures bytes { OnOk result (to.new.items ≡ to.old.items ++ ref_spelling (ref_of reference.now) oids.old) }
    ensures names { OnOk result (oids.new ≡ ref_after (ref_of reference.now) oids.old) }
    ensures text { IsSpellableRef (ref_of reference.now) }
{
    match reference {
        Reference::Null => Ok(to.extend_from_slice(NULL)?),
        Reference::Local { oid, face: _ } | Reference::Remote { oid, face: _ } => {
            write_oid(oids, oid, to)
        }
    }
}

/// The empty name, and the number that says that there is no slot.
const NULL: &[u8] = b"\x00\xFF\xFF";
