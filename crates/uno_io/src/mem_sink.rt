//! A sink in memory, which tells what it took.
ghost use Rattle.std.specs.Prelude.{◌≡◌, ◌<◌, ◌≤◌, ◌+◌, ◌++◌, [], true, false, Contains, length, take, IsTrue, IfOk, IsOk, IsErr, OnOk, OnErr, Some};
ghost use Rattle.std.specs.Bool.{OnTrue};
ghost use Rattle.std.specs.Io.{WritesAtMost};
ghost use Rattle.std.specs.Io.KnownBytes.{WriteAppends, Keeps};
ghost use Rattle.uno_base.specs.Causes.{HasCause};
ghost use Rattle.uno_io.specs.MemSink.{empty, MayFail, Took, Refused};

use crate::failing::Failing;
use crate::{Failed, Sink};
use std::alloc::Global;
use std::marker::Model;
use uno_base::NoMemory;

/// Bytes in memory that grow by each piece, and fail where they are told to.
#[derive(Drop)]
pub struct MemSink {
    taken: Vec<u8>,
    failing: Failing,
    closed: bool,
}

impl Model for MemSink {
    ghost use Rattle.std.specs.Vec.{vec_capacity};
    ghost use Rattle.uno_io.specs.MemSink.{Store};

    ghost Value = { Store };

    ghost view = { λ s. record {
      taken = s.taken.items;
      room = vec_capacity s.taken;
      closed = s.closed;
      failing = s.failing.failing;
      calls = s.failing.calls;
      faults = s.failing.faults;
    } };
}

impl MemSink {
    /// An open sink with no room yet. The calls that have these numbers, from 0, will fail.
    pub fn new(alloc: Global, failing: Vec<u64>) -> MemSink
        ensures { result ≡ empty 0 failing.items }
    {
        MemSink {
            taken: Vec::new(alloc),
            failing: Failing::new(failing),
            closed: false,
        }
    }

    /// An open sink that can hold this many bytes without asking for memory again.
    pub fn with_room(alloc: Global, room: usize, failing: Vec<u64>) -> Result<MemSink, NoMemory>
        ensures { IfOk result (λ sink. sink ≡ empty room failing.items) }
    {
        let taken = Vec::with_capacity(alloc, room)?;
        Ok(MemSink {
            taken,
            failing: Failing::new(failing),
            closed: false,
        })
    }

    /// All that was taken, in order.
    pub fn as_bytes(&self) -> &[u8]
        ensures { result.now ≡ self.now.taken }
    {
        self.taken.as_slice()
    }

    /// Takes all of the piece, if the sink is open, this call is not to fail, and there is memory.
    fn takes(&mut self, piece: &[u8]) -> bool
        ensures open { IsTrue result → self.old.closed ≡ false }
        ensures unlisted { IsTrue result → Contains self.old.failing self.old.calls → ⊥ }
        ensures grown { IsTrue result → self.new.taken ≡ self.old.taken ++ piece.now }
        ensures kept { result ≡ false → self.new.taken ≡ self.old.taken }
        ensures why { result ≡ false → MayFail self.old (length piece.now) }
        ensures room { self.old.room ≤ self.new.room }
        ensures rest { self.new ≡ record self.old { taken = self.new.taken; room = self.new.room } }
    {
        if self.closed {
            return false;
        }
        if self.failing.is_next() {
            return false;
        }
        self.taken.extend_from_slice(piece).is_ok()
    }
}

impl Sink for MemSink {
    ghost taken = { λ s. Some s.taken };

    ghost faults = { λ s. s.faults };

    ghost closed = { λ s. s.closed };

    fn write(&mut self, piece: &[u8]) -> Result<usize, Failed>
        requires { 0 < length piece.now }
        ensures some { IfOk result (λ n. 0 < n) }
        ensures bound { WritesAtMost result piece.now }
        ensures bytes { WriteAppends (Some self.old.taken) (Some self.new.taken) result piece.now }
        ensures cause { HasCause self.old.faults self.new.faults result }
        ensures shut { OnTrue self.old.closed (IsErr result) }
        ensures stays { self.new.closed ≡ self.old.closed }
        ensures whole { IfOk result (λ n. n ≡ length piece.now) }
        ensures listed { Contains self.old.failing self.old.calls → IsErr result }
        ensures why { OnErr result (MayFail self.old (length piece.now)) }
        ensures unfailing { self.old.failing ≡ [] → self.old.closed ≡ false
            → length self.old.taken + length piece.now ≤ self.old.room → IsOk result }
        ensures took { OnOk result (Took self.old self.new piece.now) }
        ensures refused { OnErr result (Refused self.old self.new) }
    {
        if !self.takes(piece) {
            self.failing.fail();
            return Err(Failed);
        }
        self.failing.pass();
        Ok(piece.len())
    }

    fn close(&mut self)
        ensures bytes { Keeps (Some self.old.taken) (Some self.new.taken) }
        ensures no_fault { self.new.faults ≡ self.old.faults }
        ensures shut { self.new.closed ≡ true }
        ensures rest { self.new ≡ record self.old { closed = true } }
    {
        self.closed = true;
    }
}
