//! A source in memory, which tells its contents.
ghost use Rattle.std.specs.Prelude.{◌≡◌, ◌↔◌, ◌<◌, ◌≤◌, ◌+◌, ◌-◌, ◌++◌, min, take, drop, [], All, Contains, length, IfOk, IsOk, IsErr, OnErr, Some};
ghost use Rattle.std.specs.Io.{ReadsAtMost};
ghost use Rattle.std.specs.Io.KnownBytes.{ReadConsumes};
ghost use Rattle.uno_base.specs.Causes.{HasCause};
ghost use Rattle.uno_io.specs.MemSource.{fresh, piece_len, gave, missed};

use crate::failing::Failing;
use crate::sizes::Sizes;
use crate::{Failed, Source};
use std::marker::Model;

/// Bytes in memory that come in pieces, and fail where they are told to.
#[derive(Drop)]
pub struct MemSource {
    bytes: Vec<u8>,
    given: usize,
    sizes: Sizes,
    failing: Failing,
}

impl Model for MemSource {
    ghost use Rattle.std.specs.Prelude.{length, ◌≤◌, drop};
    ghost use Rattle.uno_io.specs.MemSource.{Supply};

    ghost Value = { Supply };

    ghost view = { λ s. record {
      left = drop s.given s.bytes.items;
      sizes = s.sizes;
      failing = s.failing.failing;
      calls = s.failing.calls;
      faults = s.failing.faults;
    } };

    ghost invariant = { λ s. s.given ≤ length s.bytes.items };
}

impl MemSource {
    /// A source of the bytes, in pieces of at most these sizes, round and round; no sizes set no length.
    /// The calls that have these numbers, from 0, will fail.
    pub fn new(bytes: Vec<u8>, sizes: Vec<usize>, failing: Vec<u64>) -> MemSource
        requires { All (λ n. 0 < n) sizes.items }
        ensures { result ≡ fresh bytes.items sizes.items failing.items }
    {
        MemSource {
            bytes,
            given: 0,
            sizes: Sizes::new(sizes),
            failing: Failing::new(failing),
        }
    }

    /// Gives the next piece, and says how long it is.
    fn next_piece(&mut self, into: &mut [u8]) -> usize
        requires { 0 < length into.old }
        ensures whole { result ≡ piece_len self.old (length into.old) }
        ensures front { self.old.left ≡ take result into.new ++ self.new.left }
        ensures end { result ≡ 0 → self.new.left ≡ [] }
        ensures given { self.new ≡ gave self.old result }
    {
        let most = self.sizes.limit(into.len());
        let len = give(&self.bytes, self.given, into, most);
        self.given += len;
        self.sizes.turn();
        self.failing.pass();
        len
    }
}

/// Puts the bytes behind those that were given over the front of `into`, and says how many.
fn give(bytes: &[u8], given: usize, into: &mut [u8], most: usize) -> usize
    requires within { given ≤ length bytes.now }
    requires room { most ≤ length into.old }
    requires some { 0 < most }
    ensures whole { result ≡ min most (length bytes.now - given) }
    ensures front { drop given bytes.now ≡ take result into.new ++ drop (given + result) bytes.now }
    ensures end { result ≡ 0 → drop (given + result) bytes.now ≡ [] }
{
    let (_, rest) = bytes.split_at(given);
    let len = most.min(rest.len());
    let (piece, _) = rest.split_at(len);
    into[..len].copy_from_slice(piece);
    len
}

impl Source for MemSource {
    ghost left = { λ s. Some s.left };

    ghost faults = { λ s. s.faults };

    fn read(&mut self, into: &mut [u8]) -> Result<usize, Failed>
        requires { 0 < length into.old }
        ensures bound { ReadsAtMost result into.new }
        ensures bytes { ReadConsumes (Some self.old.left) (Some self.new.left) result into.new }
        ensures cause { HasCause self.old.faults self.new.faults result }
        ensures listed { IsErr result ↔ (Contains self.old.failing self.old.calls) }
        ensures unfailing { self.old.failing ≡ [] → IsOk result }
        ensures whole { IfOk result (λ n. n ≡ piece_len self.old (length into.old)) }
        ensures given { IfOk result (λ n. self.new ≡ gave self.old n) }
        ensures missed { OnErr result (self.new ≡ missed self.old) }
    {
        if self.failing.is_next() {
            self.failing.fail();
            return Err(Failed);
        }
        Ok(self.next_piece(into))
    }
}
