//! The elements of a sequence of bytes.
ghost use Rattle.std.specs.Prelude.{◌≡◌, length};
ghost use Rattle.literal_model.specs.Readings.{only_token, byte_in, sequence_of, elements_in, elements_on};
ghost use Rattle.literal_reading.specs.Scanning.{all_placed};
ghost use Rattle.literal_reading.specs.Typing.{Gives, with_firsts};

use super::expect::{Mark, expect, is_mark, left_at};
use crate::single::bits_in;
use crate::stop::{Read, Stop};
use crate::token::Placed;
use std::alloc::Global;

/// Bytes in square brackets.
pub(crate) fn bytes_of(alloc: Global, tokens: &[Placed]) -> Read<'_, Vec<u8>>
    ensures { Gives (λ x. (x.0.items, all_placed x.1.now)) result (sequence_of (only_token byte_in) (all_placed tokens.now)) }
{
    let left = left_at(tokens);
    let rest = expect(left, Mark::OpensSquare, tokens)?;
    bytes_in(alloc, left, rest)
}

fn bytes_in(alloc: Global, left: usize, tokens: &[Placed]) -> Read<'_, Vec<u8>>
    ensures { Gives (λ x. (x.0.items, all_placed x.1.now)) result (elements_in left (only_token byte_in) (all_placed tokens.now)) }
{
    let Some((first, rest)) = tokens.split_first() else {
        return Err(Stop::Bad(left));
    };
    let mut bytes = Vec::new(alloc);
    if is_mark(Mark::ClosesSquare, &first.token) {
        return Ok((bytes, rest));
    }
    match bytes_on(left, tokens, &mut bytes) {
        Ok(rest) => Ok((bytes, rest)),
        Err(stop) => {
            drop(bytes);
            Err(stop)
        }
    }
}

fn byte_at(tokens: &[Placed]) -> Read<'_, u8>
    ensures { Gives (λ x. (x.0, all_placed x.1.now)) result (only_token byte_in (all_placed tokens.now)) }
{
    let Some((first, rest)) = tokens.split_first() else {
        return Err(Stop::Bad(0));
    };
    match bits_in(&first.token) {
        Some(byte) => Ok((byte, rest)),
        None => Err(Stop::Bad(first.left)),
    }
}

/// The bytes from the first one on, behind those that are there. There are no more of them than tokens.
fn bytes_on<'a>(
    left: usize,
    tokens: &'a [Placed],
    bytes: &mut Vec<u8>,
) -> Result<&'a [Placed], Stop>
    ensures { Gives (λ rest. (bytes.new.items, all_placed rest.now)) result
        (with_firsts bytes.old.items (elements_on (length (all_placed tokens.now)) left (only_token byte_in) (all_placed tokens.now))) }
{
    let mut rest = tokens;
    for _ in 0..tokens.len() {
        let (byte, behind) = byte_at(rest)?;
        bytes.push(byte)?;
        let Some((next, after)) = behind.split_first() else {
            return Err(Stop::Bad(left));
        };
        if is_mark(Mark::ClosesSquare, &next.token) {
            return Ok(after);
        }
        if !is_mark(Mark::Comma, &next.token) {
            return Err(Stop::Bad(left));
        }
        rest = after;
    }
    Err(Stop::NoMemory)
}
