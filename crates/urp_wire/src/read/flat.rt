//! Values that hold no other values (URP specification, marshalling of simple types, enums, strings, types and interface references).
ghost use Rattle.std.specs.Prelude.{◌≡◌, List, IfOk};
ghost use Rattle.uno_model.specs.Entities.{Entity};
ghost use Rattle.uno_model.specs.Kinds.{Kind};
ghost use Rattle.uno_model.specs.Kinds as kd;
ghost use Rattle.uno_model.specs.Sound.{IsSound};
ghost use Rattle.uno_values.specs.References.{ref_of};
ghost use Rattle.uno_values.specs.Values.{plain_of};
ghost use Rattle.urp_model.specs.Reading.{Reads, value_step};
ghost use Rattle.urp_model.specs.Reading.{ref_of as peer_of};
ghost use Rattle.urp_model.specs.Tables.{Tables};
ghost use Rattle.urp_wire.specs.Gives.{Gives, tables_of};

use super::parts::{byte, eight_bytes, four_bytes, text, two_bytes};
use super::{read_kind, read_oid};
use crate::{Reason, WireError};
use std::alloc::Global;
use uno_base::NoMemory;
use uno_types::{Name, Registry, Text};
use uno_values::{Reference, Value};
use urp_cache::ReadCaches;

/// The byte of the truth value true.
const TRUE: u8 = 1;

/// No value, which has no bytes.
#[tactic(auto, unfolding(urp_model::specs::Reading::value_step))]
pub fn void(bytes: &[u8]) -> Result<(Value, &[u8]), WireError>
    ensures { (reg : List Entity) (r : Kind → Reads) (s : Tables) → Gives (λ x. (plain_of x.0, s, x.1.now)) result (value_step reg r kd.void s bytes.now) }
{
    Ok((Value::Void, bytes))
}

/// A character: a unit of UTF-16.
#[tactic(auto, unfolding(urp_model::specs::Reading::value_step))]
pub fn char_value(bytes: &[u8]) -> Result<(Value, &[u8]), WireError>
    ensures { (reg : List Entity) (r : Kind → Reads) (s : Tables) → Gives (λ x. (plain_of x.0, s, x.1.now)) result (value_step reg r kd.char s bytes.now) }
{
    let (number, rest) = two_bytes(bytes)?;
    Ok((Value::Char(number), rest))
}

/// A truth value: a byte that is 0 or 1.
#[tactic(auto, unfolding(urp_model::specs::Reading::value_step))]
pub fn boolean(bytes: &[u8]) -> Result<(Value, &[u8]), WireError>
    ensures { (reg : List Entity) (r : Kind → Reads) (s : Tables) → Gives (λ x. (plain_of x.0, s, x.1.now)) result (value_step reg r kd.boolean s bytes.now) }
{
    let (truth, rest) = byte(bytes)?;
    if truth > TRUE {
        return Err(WireError::Bad(Reason::BadBoolean));
    }
    Ok((Value::Boolean(truth == TRUE), rest))
}

/// A byte, which is signed.
#[tactic(auto, unfolding(urp_model::specs::Reading::value_step))]
pub fn byte_value(bytes: &[u8]) -> Result<(Value, &[u8]), WireError>
    ensures { (reg : List Entity) (r : Kind → Reads) (s : Tables) → Gives (λ x. (plain_of x.0, s, x.1.now)) result (value_step reg r kd.byte s bytes.now) }
{
    let (number, rest) = byte(bytes)?;
    Ok((Value::Byte(number.cast_signed()), rest))
}

#[tactic(auto, unfolding(urp_model::specs::Reading::value_step))]
pub fn short(bytes: &[u8]) -> Result<(Value, &[u8]), WireError>
    ensures { (reg : List Entity) (r : Kind → Reads) (s : Tables) → Gives (λ x. (plain_of x.0, s, x.1.now)) result (value_step reg r kd.short s bytes.now) }
{
    let (number, rest) = two_bytes(bytes)?;
    Ok((Value::Short(number.cast_signed()), rest))
}

#[tactic(auto, unfolding(urp_model::specs::Reading::value_step))]
pub fn unsigned_short(bytes: &[u8]) -> Result<(Value, &[u8]), WireError>
    ensures { (reg : List Entity) (r : Kind → Reads) (s : Tables) → Gives (λ x. (plain_of x.0, s, x.1.now)) result (value_step reg r kd.unsigned_short s bytes.now) }
{
    let (number, rest) = two_bytes(bytes)?;
    Ok((Value::UnsignedShort(number), rest))
}

#[tactic(auto, unfolding(urp_model::specs::Reading::value_step))]
pub fn long(bytes: &[u8]) -> Result<(Value, &[u8]), WireError>
    ensures { (reg : List Entity) (r : Kind → Reads) (s : Tables) → Gives (λ x. (plain_of x.0, s, x.1.now)) result (value_step reg r kd.long s bytes.now) }
{
    let (number, rest) = four_bytes(bytes)?;
    Ok((Value::Long(number.cast_signed()), rest))
}

#[tactic(auto, unfolding(urp_model::specs::Reading::value_step))]
pub fn unsigned_long(bytes: &[u8]) -> Result<(Value, &[u8]), WireError>
    ensures { (reg : List Entity) (r : Kind → Reads) (s : Tables) → Gives (λ x. (plain_of x.0, s, x.1.now)) result (value_step reg r kd.unsigned_long s bytes.now) }
{
    let (number, rest) = four_bytes(bytes)?;
    Ok((Value::UnsignedLong(number), rest))
}

#[tactic(auto, unfolding(urp_model::specs::Reading::value_step))]
pub fn hyper(bytes: &[u8]) -> Result<(Value, &[u8]), WireError>
    ensures { (reg : List Entity) (r : Kind → Reads) (s : Tables) → Gives (λ x. (plain_of x.0, s, x.1.now)) result (value_step reg r kd.hyper s bytes.now) }
{
    let (number, rest) = eight_bytes(bytes)?;
    Ok((Value::Hyper(number.cast_signed()), rest))
}

#[tactic(auto, unfolding(urp_model::specs::Reading::value_step))]
pub fn unsigned_hyper(bytes: &[u8]) -> Result<(Value, &[u8]), WireError>
    ensures { (reg : List Entity) (r : Kind → Reads) (s : Tables) → Gives (λ x. (plain_of x.0, s, x.1.now)) result (value_step reg r kd.unsigned_hyper s bytes.now) }
{
    let (number, rest) = eight_bytes(bytes)?;
    Ok((Value::UnsignedHyper(number), rest))
}

#[tactic(auto, unfolding(urp_model::specs::Reading::value_step))]
pub fn string(alloc: Global, bytes: &[u8]) -> Result<(Value, &[u8]), WireError>
    ensures { (reg : List Entity) (r : Kind → Reads) (s : Tables) → Gives (λ x. (plain_of x.0, s, x.1.now)) result (value_step reg r kd.str s bytes.now) }
{
    let (text, rest) = text(bytes)?;
    Ok((Value::Str(Text::of(alloc, text)?), rest))
}

/// A type.
#[tactic(auto, unfolding(urp_model::specs::Reading::value_step))]
pub fn kind<'a>(
    alloc: Global,
    registry: &Registry,
    caches: &mut ReadCaches,
    bytes: &'a [u8],
) -> Result<(Value, &'a [u8]), WireError>
    requires { IsSound registry.now }
    ensures { (r : Kind → Reads) → Gives (λ x. (plain_of x.0, tables_of caches.new, x.1.now)) result (value_step registry.now r kd.kind (tables_of caches.old) bytes.now) }
{
    let (kind, rest) = read_kind(alloc, registry, &mut caches.types, bytes)?;
    Ok((Value::Kind(kind), rest))
}

/// An item of an enum: any number, whether one of its items has it or not.
#[tactic(auto, unfolding(urp_model::specs::Reading::value_step))]
pub fn item<'a>(name: &Name, bytes: &'a [u8]) -> Result<(Value, &'a [u8]), WireError>
    ensures { (reg : List Entity) (r : Kind → Reads) (s : Tables) → Gives (λ x. (plain_of x.0, s, x.1.now)) result (value_step reg r (kd.enum name.now) s bytes.now) }
{
    let (number, rest) = four_bytes(bytes)?;
    Ok((Value::Enum(name.copy()?, number.cast_signed()), rest))
}

/// A reference.
#[tactic(auto, unfolding(urp_model::specs::Reading::value_step))]
pub fn reference<'a>(
    alloc: Global,
    caches: &mut ReadCaches,
    face: &Name,
    bytes: &'a [u8],
) -> Result<(Value, &'a [u8]), WireError>
    ensures { (reg : List Entity) (r : Kind → Reads) → Gives (λ x. (plain_of x.0, tables_of caches.new, x.1.now)) result (value_step reg r (kd.interface face.now) (tables_of caches.old) bytes.now) }
{
    let (oid, rest) = read_oid(alloc, &mut caches.oids, bytes)?;
    Ok((Value::Ref(reference_to(oid, face)?), rest))
}

/// The reference to an object of the peer's, or null.
fn reference_to(oid: Option<Text>, face: &Name) -> Result<Reference, NoMemory>
    ensures { IfOk result (λ reference. ref_of reference ≡ peer_of oid face.now) }
{
    let Some(oid) = oid else {
        return Ok(Reference::Null);
    };
    let face = face.copy()?;
    Ok(Reference::Remote { oid, face })
}
