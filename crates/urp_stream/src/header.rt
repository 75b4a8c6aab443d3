//! The first eight bytes of a block (URP specification, blocks): the size of its body, and the count of its messages.
ghost use Rattle.std.specs.Prelude.{◌≡◌, ℕ, ◌+◌, ◌<◌, ◌≤◌, ◌↔◌, [], ◌++◌, length, IfOk, Err, MatchOption};
ghost use Rattle.urp_stream.specs.Headers.{size_said, SaysTooLarge, SaysNoMessages};
ghost use Rattle.urp_stream.specs.HeaderParts.{IsSaid, IsBodySize};

use crate::StreamError;
use std::marker::Model;

/// How many bytes a header has.
pub const HEADER_SIZE: usize = 8;

/// The most bytes that the body of a block may have.
const LARGEST_SIZE: u32 = 16_777_216;

/// The count of messages that no block may have.
const NO_MESSAGES: u32 = 0;

/// The bytes of a header as far as they came.
#[derive(Drop)]
pub struct Header {
    bytes: [u8; 8],
    filled: usize,
}

impl Model for Header {
    ghost use Rattle.std.specs.Prelude.{ℕ, ◌≤◌, List, take};

    ghost Value = { List ℕ };

    ghost view = { λ h. take h.filled h.bytes };

    ghost invariant = { λ h. h.filled ≤ 8 };
}

/// What a whole header says.
#[derive(Clone, Copy)]
pub struct Numbers {
    pub size: u32,
    pub count: u32,
}

impl Header {
    /// A header of which nothing came.
    pub fn new() -> Header
        ensures { result ≡ [] }
    {
        Header {
            bytes: [0; 8],
            filled: 0,
        }
    }

    /// How many bytes of it came.
    pub fn len(&self) -> usize
        ensures len { result ≡ length self.now }
        ensures bound { result ≤ 8 }
    {
        self.filled
    }

    /// The header with these bytes behind those that came.
    pub fn followed_by(&self, front: &[u8]) -> Header
        requires { length self.now + length front.now ≤ 8 }
        ensures { result ≡ self.now ++ front.now }
    {
        let mut bytes = self.bytes;
        let filled = self.filled + front.len();
        bytes[self.filled..filled].copy_from_slice(front);
        Header { bytes, filled }
    }

    /// What it says, where all of it came.
    pub fn numbers(&self) -> Option<Numbers>
        ensures { MatchOption result (length self.now < 8) (λ n. IsSaid self.now n.size n.count) }
    {
        numbers_in(&self.bytes[..self.filled])
    }

    /// How many bytes the body has: 0 before all of the header came. The size is judged before the count.
    pub fn body_size(&self) -> Result<usize, StreamError>
        ensures size { IfOk result (λ size. IsBodySize self.now size) }
        ensures too_large { (size : ℕ) → (result ≡ Err (StreamError.TooLarge size)) ↔ SaysTooLarge self.now size }
        ensures no_messages { (result ≡ Err StreamError.NoMessages) ↔ SaysNoMessages self.now }
    {
        let Some(said) = self.numbers() else {
            return Ok(0);
        };
        if said.size > LARGEST_SIZE {
            return Err(StreamError::TooLarge(said.size));
        }
        if said.count == NO_MESSAGES {
            return Err(StreamError::NoMessages);
        }
        Ok(said.size as usize)
    }
}

/// Two numbers of four bytes, the high byte first.
fn numbers_in(header: &[u8]) -> Option<Numbers>
    requires { length header.now ≤ 8 }
    ensures { MatchOption result (length header.now < 8) (λ n. IsSaid header.now n.size n.count) }
{
    let (size, behind) = header.split_first_chunk::<4>()?;
    let (count, _) = behind.split_first_chunk::<4>()?;
    Some(Numbers {
        size: u32::from_be_bytes(*size),
        count: u32::from_be_bytes(*count),
    })
}
