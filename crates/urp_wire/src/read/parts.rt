//! The parts of a value from the front of bytes, each judged when it is whole (URP specification, marshalling of simple types).
ghost use Rattle.std.specs.Prelude.{◌≡◌, ◌<◌, Option, Some, None, option_map, if◌then◌else◌};
ghost use Rattle.std.specs.Int.{w16, w32, w64};
ghost use Rattle.std.specs.Str.{is_utf8};
ghost use Rattle.urp_model.specs.Parts.{part, byte_at, number_at, length_at, raw_at, text_at, name_at, text_name_at, slot_at, is_slot};
ghost use Rattle.urp_wire.specs.Gives.{Gives};

use crate::{Reason, WireError};

/// The byte in front of a length of four bytes.
const LONG_FORM: u8 = 0xFF;

/// How many slots there are.
pub const SLOTS: u16 = 256;

/// The number in the place of a slot that says that there is none.
pub const NO_SLOT: u16 = 0xFFFF;

/// How many bytes the name of a type or the identity of an object may have.
const MOST_BYTES: u32 = 4096;

/// The next byte.
#[tactic(auto, unfolding(urp_model::specs::Parts::byte_at))]
pub fn byte(bytes: &[u8]) -> Result<(u8, &[u8]), WireError>
    ensures { Gives (λ x. (x.0, x.1.now)) result (byte_at bytes.now) }
{
    match bytes.split_first() {
        Some((first, rest)) => Ok((*first, rest)),
        None => Err(WireError::Short),
    }
}

/// A number of two bytes.
#[tactic(auto, unfolding(urp_model::specs::Parts::number_at))]
pub fn two_bytes(bytes: &[u8]) -> Result<(u16, &[u8]), WireError>
    ensures { Gives (λ x. (x.0, x.1.now)) result (number_at w16 bytes.now) }
{
    match bytes.split_first_chunk::<2>() {
        Some((front, rest)) => Ok((u16::from_be_bytes(*front), rest)),
        None => Err(WireError::Short),
    }
}

/// A number of four bytes.
#[tactic(auto, unfolding(urp_model::specs::Parts::number_at))]
pub fn four_bytes(bytes: &[u8]) -> Result<(u32, &[u8]), WireError>
    ensures { Gives (λ x. (x.0, x.1.now)) result (number_at w32 bytes.now) }
{
    match bytes.split_first_chunk::<4>() {
        Some((front, rest)) => Ok((u32::from_be_bytes(*front), rest)),
        None => Err(WireError::Short),
    }
}

/// A number of eight bytes.
#[tactic(auto, unfolding(urp_model::specs::Parts::number_at))]
pub fn eight_bytes(bytes: &[u8]) -> Result<(u64, &[u8]), WireError>
    ensures { Gives (λ x. (x.0, x.1.now)) result (number_at w64 bytes.now) }
{
    match bytes.split_first_chunk::<8>() {
        Some((front, rest)) => Ok((u64::from_be_bytes(*front), rest)),
        None => Err(WireError::Short),
    }
}

/// A compressed number, by either form.
#[tactic(auto, unfolding(urp_model::specs::Parts::length_at))]
pub fn length(bytes: &[u8]) -> Result<(u32, &[u8]), WireError>
    ensures { Gives (λ x. (x.0, x.1.now)) result (length_at bytes.now) }
{
    let (first, rest) = byte(bytes)?;
    if first != LONG_FORM {
        return Ok((first as u32, rest));
    }
    four_bytes(rest)
}

/// So many bytes, which are taken only where they are all there.
fn part(bytes: &[u8], count: u32) -> Result<(&[u8], &[u8]), WireError>
    ensures { Gives (λ x. (x.0.now, x.1.now)) result (part count bytes.now) }
{
    if bytes.len() < count as usize {
        return Err(WireError::Short);
    }
    Ok(bytes.split_at(count as usize))
}

/// A length, and that many bytes.
#[tactic(auto, unfolding(urp_model::specs::Parts::raw_at))]
pub fn raw(bytes: &[u8]) -> Result<(&[u8], &[u8]), WireError>
    ensures { Gives (λ x. (x.0.now, x.1.now)) result (raw_at bytes.now) }
{
    let (length, rest) = length(bytes)?;
    part(rest, length)
}

/// Bytes as a text.
#[tactic(auto, using(crate::proofs::Texts::text_is, crate::proofs::Texts::no_text_is))]
pub fn text_of(bytes: &[u8]) -> Option<&str>
    ensures { option_map (λ text. text.now) result ≡ (if is_utf8 bytes.now then Some bytes.now else None) }
{
    match std::str::from_utf8(bytes) {
        Ok(text) => Some(text),
        Err(_) => None,
    }
}

/// A text.
#[tactic(auto, unfolding(urp_model::specs::Parts::text_at))]
pub fn text(bytes: &[u8]) -> Result<(&str, &[u8]), WireError>
    ensures { Gives (λ x. (x.0.now, x.1.now)) result (text_at bytes.now) }
{
    let (raw, rest) = raw(bytes)?;
    match text_of(raw) {
        Some(text) => Ok((text, rest)),
        None => Err(WireError::Bad(Reason::BadText)),
    }
}

/// A name of at most so many bytes, whose length is judged before its bytes are there.
#[tactic(auto, unfolding(urp_model::specs::Parts::name_at))]
pub fn name(bytes: &[u8], most: u32) -> Result<(&[u8], &[u8]), WireError>
    ensures { Gives (λ x. (x.0.now, x.1.now)) result (name_at most bytes.now) }
{
    let (length, rest) = length(bytes)?;
    if length > most {
        return Err(WireError::Bad(Reason::LongName));
    }
    part(rest, length)
}

/// The name of a type, or the identity of an object.
#[tactic(auto, unfolding(urp_model::specs::Parts::text_name_at))]
pub fn text_name(bytes: &[u8]) -> Result<(&str, &[u8]), WireError>
    ensures { Gives (λ x. (x.0.now, x.1.now)) result (text_name_at bytes.now) }
{
    let (raw, rest) = name(bytes, MOST_BYTES)?;
    match text_of(raw) {
        Some(text) => Ok((text, rest)),
        None => Err(WireError::Bad(Reason::BadText)),
    }
}

/// Whether the number is one of the slots, or says that there is none.
pub fn is_slot(number: u16) -> bool
    ensures { result ≡ is_slot number }
{
    number < SLOTS || number == NO_SLOT
}

/// A slot.
#[tactic(auto, unfolding(urp_model::specs::Parts::slot_at))]
pub fn slot(bytes: &[u8]) -> Result<(u16, &[u8]), WireError>
    ensures { Gives (λ x. (x.0, x.1.now)) result (slot_at bytes.now) }
{
    let (number, rest) = two_bytes(bytes)?;
    if !is_slot(number) {
        return Err(WireError::Bad(Reason::BadSlot));
    }
    Ok((number, rest))
}
