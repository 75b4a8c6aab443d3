//! How a request begins: a short header, or flags and a function (URP specification, messages).
ghost use Rattle.std.specs.Prelude.{◌≡◌, ◌≤◌};
ghost use Rattle.message_model.specs.Headers.{has};
ghost use Rattle.message_model.specs.ReadingMessages.{opens_reply, function_at, answered_at, long_opening_at, two_byte_opening_at, opening_at, short_opening};
ghost use Rattle.urp_message.specs.Headers.{opening_of};
ghost use Rattle.urp_wire.specs.Gives.{Gives};

use crate::flags::{MORE, NEW_OID, NEW_TID, NEW_TYPE, WIDE, has};
use urp_wire::{Reason, WireError, read_byte, read_two_bytes};

/// The function of a request, whether it is sent as one that has an answer, and which parts of its header are new.
#[derive(Clone, Copy)]
pub(crate) struct Opening {
    pub(crate) function: u16,
    pub(crate) answered: bool,
    pub(crate) new_type: bool,
    pub(crate) new_oid: bool,
    pub(crate) new_tid: bool,
}

/// The least first byte of a short header of two bytes, of a reply, and of a long header.
const TWO_BYTES: u8 = 0x40;

const REPLY: u8 = 0x80;

const LONG: u8 = 0xC0;

/// What a short header of two bytes is above its function.
const TWO_BYTES_MARK: u16 = 0x4000;

/// Whether a message with this first byte is a reply.
pub(crate) fn opens_reply(first: u8) -> bool
    ensures { result ≡ opens_reply first }
{
    REPLY <= first && first < LONG
}

/// How a request with this first byte begins, and the bytes behind it.
#[tactic(auto, unfolding(message_model::specs::ReadingMessages::opening_at))]
pub(crate) fn read_opening(first: u8, bytes: &[u8]) -> Result<(Opening, &[u8]), WireError>
    ensures { Gives (λ x. (opening_of x.0, x.1.now)) result (opening_at first bytes.now) }
{
    if first < TWO_BYTES {
        return Ok((short(first as u16), bytes));
    }
    if first < REPLY {
        return two_byte_opening(first, bytes);
    }
    long_opening(first, bytes)
}

/// A short header, in which nothing is new.
fn short(function: u16) -> Opening
    ensures { opening_of result ≡ short_opening function }
{
    Opening {
        function,
        answered: false,
        new_type: false,
        new_oid: false,
        new_tid: false,
    }
}

#[tactic(auto, unfolding(message_model::specs::ReadingMessages::two_byte_opening_at))]
fn two_byte_opening(first: u8, bytes: &[u8]) -> Result<(Opening, &[u8]), WireError>
    requires { 0x40 ≤ first }
    ensures { Gives (λ x. (opening_of x.0, x.1.now)) result (two_byte_opening_at first bytes.now) }
{
    let (second, rest) = read_byte(bytes)?;
    Ok((
        short(u16::from_be_bytes([first, second]) - TWO_BYTES_MARK),
        rest,
    ))
}

#[tactic(auto, unfolding(message_model::specs::ReadingMessages::long_opening_at))]
fn long_opening(flags: u8, bytes: &[u8]) -> Result<(Opening, &[u8]), WireError>
    ensures { Gives (λ x. (opening_of x.0, x.1.now)) result (long_opening_at flags bytes.now) }
{
    let (answered, rest) = answered(has(MORE, flags), bytes)?;
    let (function, rest) = function(has(WIDE, flags), rest)?;
    let opening = Opening {
        function,
        answered,
        new_type: has(NEW_TYPE, flags),
        new_oid: has(NEW_OID, flags),
        new_tid: has(NEW_TID, flags),
    };
    Ok((opening, rest))
}

/// The two high bits of the second byte of flags, where there is one, are both set or neither is.
#[tactic(auto, unfolding(message_model::specs::ReadingMessages::answered_at))]
fn answered(follows: bool, bytes: &[u8]) -> Result<(bool, &[u8]), WireError>
    ensures { Gives (λ x. (x.0, x.1.now)) result (answered_at follows bytes.now) }
{
    if !follows {
        return Ok((false, bytes));
    }
    let (flags, rest) = read_byte(bytes)?;
    if flags < TWO_BYTES {
        return Ok((false, rest));
    }
    if flags < LONG {
        return Err(WireError::Bad(Reason::BadFlags));
    }
    Ok((true, rest))
}

#[tactic(auto, unfolding(message_model::specs::ReadingMessages::function_at))]
fn function(is_wide: bool, bytes: &[u8]) -> Result<(u16, &[u8]), WireError>
    ensures { Gives (λ x. (x.0, x.1.now)) result (function_at is_wide bytes.now) }
{
    if is_wide {
        return read_two_bytes(bytes);
    }
    let (function, rest) = read_byte(bytes)?;
    Ok((function as u16, rest))
}
