//! The header of a request that is written: what of it is new, and whether it can be short (URP specification, messages).
ghost use Rattle.std.specs.Prelude.{◌≡◌, ◌≤◌, ◌*◌, nat_lt, ◌++◌, [], ◌∷◌, Some, option_map, OnOk};
ghost use Rattle.std.specs.Int.{from_bool};
ghost use Rattle.std.specs.Str.{IsUtf8};
ghost use Rattle.message_model.specs.Headers.{wide_flag};
ghost use Rattle.message_model.specs.WritingMessages.{is_new, is_new_face, is_long, long_flags, if_new, function_bytes, short_bytes, opening_spelling};
ghost use Rattle.uno_entities.specs.TypeNames.{kind_of};
ghost use Rattle.urp_message.specs.Messages.{last_of};
ghost use Rattle.urp_message.specs.Speaking.{heading_of};

use crate::flags::{MORE, NEW_OID, NEW_TID, NEW_TYPE, WIDE};
use crate::remembered::Last;
use uno_base::NoMemory;
use uno_types::{Name, Text, Tid, TypeName};

/// Whom a request calls, and whether it is sent as one that has an answer though its function is one-way.
#[derive(Clone, Copy)]
pub(crate) struct Heading<'a> {
    pub(crate) function: u16,
    pub(crate) answered: bool,
    pub(crate) tid: &'a Tid,
    pub(crate) oid: &'a Text,
    pub(crate) face: &'a Name,
}

/// The two high bits of a long header's first byte, and of the second byte that says that an answer comes.
const LONG: u8 = 0xC0;

const ANSWERED: u8 = 0xC0;

/// The largest functions of one byte, of a short header, and of a short header of one byte; what one of two bytes is above its function.
const ONE_BYTE: u16 = 255;

const SHORT: u16 = 16_383;

const SHORT_ONE_BYTE: u16 = 63;

const TWO_BYTES_MARK: u16 = 0x4000;

/// Whether an object is not the one that was named last.
pub(crate) fn is_new_oid(oid: &Text, last: &Option<Text>) -> bool
    ensures new { result ≡ is_new oid.now last.now }
    ensures text { IsUtf8 oid.now }
{
    let name = oid.as_str();
    match last {
        None => true,
        Some(last) => name.as_bytes() != last.as_str().as_bytes(),
    }
}

/// Whether a thread is not the one that was named last.
pub(crate) fn is_new_tid(tid: &Tid, last: &Option<Tid>) -> bool
    ensures { result ≡ is_new tid.now last.now }
{
    match last {
        None => true,
        Some(last) => tid.as_bytes() != last.as_bytes(),
    }
}

/// Whether an interface is not the type that was named last.
pub(crate) fn is_new_face(face: &Name, last: &Option<TypeName>) -> bool
    ensures { result ≡ is_new_face face.now (option_map kind_of last.now) }
{
    match last {
        None => true,
        Some(last) => is_other(face, last),
    }
}

/// Whether a type is another one than an interface.
fn is_other(face: &Name, kind: &TypeName) -> bool
    ensures { result ≡ is_new_face face.now (Some (kind_of kind.now)) }
{
    match kind {
        TypeName::Interface(last) => face.as_str().as_bytes() != last.as_str().as_bytes(),
        TypeName::Void
        | TypeName::Char
        | TypeName::Boolean
        | TypeName::Byte
        | TypeName::Short
        | TypeName::UnsignedShort
        | TypeName::Long
        | TypeName::UnsignedLong
        | TypeName::Hyper
        | TypeName::UnsignedHyper
        | TypeName::Str
        | TypeName::Kind
        | TypeName::Any
        | TypeName::Enum(_)
        | TypeName::Struct(_)
        | TypeName::Exception(_)
        | TypeName::Sequence(_) => true,
    }
}

/// Whether a header cannot be short.
fn is_long(heading: &Heading, last: &Last) -> bool
    ensures { result ≡ is_long (heading_of heading.now) (last_of last.now) }
{
    is_new_face(heading.face, &last.kind)
        || is_new_oid(heading.oid, &last.oid)
        || is_new_tid(heading.tid, &last.tid)
        || heading.answered
        || is_above_short(heading.function)
}

/// Whether a function is above those of a short header.
fn is_above_short(function: u16) -> bool
    ensures { result ≡ nat_lt 16383 function }
{
    function > SHORT
}

/// Whether a function is above those of one byte.
fn is_wide(function: u16) -> bool
    ensures { result ≡ nat_lt 255 function }
{
    function > ONE_BYTE
}

/// The first byte of a long header.
fn long_flags(heading: &Heading, last: &Last) -> u8
    ensures { result ≡ long_flags (heading_of heading.now) (last_of last.now) }
{
    let new_type = u8::from(is_new_face(heading.face, &last.kind)) * NEW_TYPE;
    let new_oid = u8::from(is_new_oid(heading.oid, &last.oid)) * NEW_OID;
    let new_tid = u8::from(is_new_tid(heading.tid, &last.tid)) * NEW_TID;
    let wide = wide_flag(heading.function);
    let more = u8::from(heading.answered) * MORE;
    LONG + (new_type + (new_oid + (new_tid + (wide + more))))
}

/// The flag that says that the function has two bytes.
fn wide_flag(function: u16) -> u8
    ensures { result ≡ from_bool (nat_lt 255 function) * wide_flag }
{
    u8::from(is_wide(function)) * WIDE
}

/// How a request begins.
#[tactic(auto, unfolding(message_model::specs::WritingMessages::opening_spelling))]
pub(crate) fn put_opening(heading: &Heading, last: &Last, to: &mut Vec<u8>) -> Result<(), NoMemory>
    ensures { OnOk result (to.new.items ≡ to.old.items ++ opening_spelling (heading_of heading.now) (last_of last.now)) }
{
    if !is_long(heading, last) {
        return put_short(heading.function, to);
    }
    to.push(long_flags(heading, last))?;
    put_answered(heading.answered, to)?;
    put_function(heading.function, to)
}

/// A second byte of flags, where an answer comes to a one-way call.
fn put_answered(answered: bool, to: &mut Vec<u8>) -> Result<(), NoMemory>
    ensures { OnOk result (to.new.items ≡ to.old.items ++ if_new answered (0xC0 ∷ [])) }
{
    if !answered {
        return Ok(());
    }
    to.push(ANSWERED)?;
    Ok(())
}

/// A function in two bytes where it is above 255.
fn put_function(function: u16, to: &mut Vec<u8>) -> Result<(), NoMemory>
    ensures { OnOk result (to.new.items ≡ to.old.items ++ function_bytes function) }
{
    if is_wide(function) {
        to.extend_from_slice(&function.to_be_bytes())?;
        return Ok(());
    }
    to.push(function as u8)?;
    Ok(())
}

/// A short header.
fn put_short(function: u16, to: &mut Vec<u8>) -> Result<(), NoMemory>
    requires { function ≤ 16383 }
    ensures { OnOk result (to.new.items ≡ to.old.items ++ short_bytes function) }
{
    if function > SHORT_ONE_BYTE {
        to.extend_from_slice(&(TWO_BYTES_MARK + function).to_be_bytes())?;
        return Ok(());
    }
    to.push(function as u8)?;
    Ok(())
}
