//! Bytes that come in pieces of any size, as the blocks that they are.
ghost use Rattle.std.specs.Prelude.{◌≡◌, ℕ, ◌+◌, ◌-◌, ◌^◌, ◌<◌, ◌↔◌, ◌++◌, length, take, drop, IsTrue, IsSome, IfNone, IfSome, IfOk, OnErr, Err};
ghost use Rattle.urp_model.specs.Blocks.{BeginsWhole};
ghost use Rattle.urp_stream.specs.Headers.{SaysTooLarge, SaysNoMessages};
ghost use Rattle.urp_stream.specs.Standing.{BeginsBad, IsRefusedAt};
ghost use Rattle.urp_stream.specs.Streams.{nothing_yet, IsStream};
ghost use Rattle.urp_stream.specs.Calls.{Took, Gave};

use crate::header::{HEADER_SIZE, Header};
use crate::{Block, StreamError};
use std::alloc::Global;
use std::marker::Model;
use std::mem;

/// A stream as far as it came: the place of the block that has begun, and its bytes. The body takes room for the bytes that came, and
/// never for those that the header announces.
#[derive(Drop)]
pub struct Blocks {
    alloc: Global,
    place: u64,
    header: Header,
    body: Vec<u8>,
}

impl Model for Blocks {
    ghost use Rattle.std.specs.Prelude.{◌++◌};
    ghost use Rattle.urp_stream.specs.Streams.{Stream, AreParts};

    ghost Value = { Stream };

    ghost view = { λ b. record { place = b.place; held = b.header ++ b.body.items } };

    ghost invariant = { λ b. AreParts b.place b.header b.body.items };
}

impl Blocks {
    /// A stream of which nothing came.
    pub fn new(alloc: Global) -> Blocks
        ensures { result ≡ nothing_yet }
    {
        Blocks {
            alloc,
            place: 0,
            header: Header::new(),
            body: Vec::new(alloc),
        }
    }

    /// Takes the fewest bytes at the front of a piece that complete a block, or all of them, and tells how many. A header is judged
    /// where its eighth byte came (URP specification, blocks). `holds_block`, `place` and `rest` test what is required.
    pub fn feed(&mut self, piece: &[u8]) -> Result<usize, StreamError>
        requires no_block { ¬ BeginsWhole self.old.held }
        requires places_fit { self.old.place + length self.old.held + length piece.now < 2 ^ 64 }
        ensures took { IfOk result (λ n. Took self.old piece.now n self.new) }
        ensures too_large { (size : ℕ)
            → (result ≡ Err (StreamError.TooLarge size)) ↔ SaysTooLarge (self.old.held ++ piece.now) size }
        ensures no_messages { (result ≡ Err StreamError.NoMessages) ↔ SaysNoMessages (self.old.held ++ piece.now) }
        ensures refused { OnErr result (self.new ≡ self.old) }
        ensures refused_at { BeginsBad (self.old.held ++ piece.now)
            → IsRefusedAt self.old.held piece.now (8 - length self.old.held) }
    {
        let (front, behind) = parted(piece, HEADER_SIZE - self.header.len());
        let header = self.header.followed_by(front);
        let size = header.body_size()?;
        let (part, _) = parted(behind, size - self.body.len());
        self.body.extend_from_slice(part)?;
        self.header = header;
        Ok(front.len() + part.len())
    }

    /// The block that is held, if all of it came. It takes no memory.
    pub fn next_block(&mut self) -> Option<Block>
        ensures some { IsSome result ↔ BeginsWhole self.old.held }
        ensures gave { IfSome result (λ b.
            Gave self.old (record { place = b.place; count = b.count; body = b.body.items }) self.new) }
        ensures kept { IfNone result (self.new ≡ self.old) }
    {
        let said = self.header.numbers()?;
        if self.body.len() < said.size as usize {
            return None;
        }
        let body = mem::replace(&mut self.body, Vec::new(self.alloc));
        let place = self.place;
        self.place += HEADER_SIZE as u64 + body.len() as u64;
        self.header = Header::new();
        Some(Block {
            place,
            count: said.count,
            body,
        })
    }

    /// Whether a whole block is held.
    pub fn holds_block(&self) -> bool
        ensures { IsTrue result ↔ BeginsWhole self.now.held }
    {
        match self.header.numbers() {
            Some(said) => said.size as usize <= self.body.len(),
            None => false,
        }
    }

    /// The place of the first byte that is held, counted from 0 in all bytes of the stream.
    pub fn place(&self) -> u64
        ensures { result ≡ self.now.place }
    {
        self.place
    }

    /// How many bytes complete the header of the block that has begun. Where `feed` refuses a header, as many of the piece do.
    pub fn header_wants(&self) -> usize
        ensures { result ≡ 8 - length self.now.held }
    {
        HEADER_SIZE - self.header.len()
    }

    /// How many bytes are held.
    pub fn rest(&self) -> usize
        ensures rest { result ≡ length self.now.held }
        ensures bounds { IsStream self.now }
    {
        self.header.len() + self.body.len()
    }
}

/// The front of a piece, of at most so many bytes, and what stands behind it.
fn parted(piece: &[u8], most: usize) -> (&[u8], &[u8])
    ensures front { result.0.now ≡ take most piece.now }
    ensures behind { result.1.now ≡ drop most piece.now }
{
    piece.split_at(most.min(piece.len()))
}
