//! A pipe of bytes.
ghost use Rattle.std.specs.Prelude.{◌≡◌, ◌+◌, ◌==◌, ◌≤◌, [], ◌++◌, IfOk, OnOk, drop, length};
ghost use Rattle.circular_buffer.specs.Buffer.{buffer};
ghost use Rattle.std.specs.Borrow.{sem};
ghost use Rattle.byte_pipe.specs.Lending.{lends_bytes};

use circular_buffer::HeapCircularBuffer;
use std::alloc::Global;
use std::marker::Model;
use uno_base::NoMemory;

/// For how many bytes there is room at first.
const FIRST_ROOM: usize = 4_096;

/// Bytes that were put in and not taken yet, first come first.
#[derive(Drop)]
pub struct Pipe {
    ring: HeapCircularBuffer<u8>,
}

impl Model for Pipe {
    ghost use Rattle.circular_buffer.specs.Buffer.{Buffer, buffer_code};
    ghost use Rattle.std.specs.Coded.{coded_ℕ};
    ghost use Rattle.std.specs.Prelude.{ℕ};

    ghost Value = { Buffer ℕ };

    ghost coded = { buffer_code coded_ℕ };

    ghost view = { λ p. p.ring };
}

impl Pipe {
    /// A pipe with nothing in it.
    pub fn new(alloc: Global) -> Result<Pipe, NoMemory>
        ensures { IfOk result (λ pipe. pipe.items ≡ []) }
    {
        let ring = HeapCircularBuffer::with_capacity(alloc, FIRST_ROOM)?;
        Ok(Pipe { ring })
    }

    /// Whether nothing is in it.
    pub fn is_empty(&self) -> bool
        ensures { result ≡ (length self.now.items == 0) }
    {
        self.ring.is_empty()
    }

    /// Takes room for so many bytes more: twice as much as there was where there is too little, or as much as is wanted where that is too little too.
    pub fn reserve(&mut self, count: usize) -> Result<(), NoMemory>
        ensures same { self.new.items ≡ self.old.items }
        ensures room { OnOk result (length self.new.items + count ≤ self.new.capacity) }
    {
        let Some(wanted) = self.ring.len().checked_add(count) else {
            return Err(NoMemory);
        };
        let capacity = self.ring.capacity();
        if wanted <= capacity {
            return Ok(());
        }
        self.ring.resize(capacity.saturating_mul(2).max(wanted))?;
        Ok(())
    }

    /// Puts bytes behind those that are there, in room that was taken for them.
    pub fn put(&mut self, bytes: &[u8])
        requires { length self.old.items + length bytes.now ≤ self.old.capacity }
        ensures { self.new ≡ buffer (self.old.items ++ bytes.now) self.old.capacity }
    {
        self.ring.fill_from_slice(bytes);
    }

    /// All its bytes, in one piece.
    pub fn in_one_piece(&mut self) -> &mut [u8]
        ensures* writes_back { sem 𝓛 (lends_bytes self.entry result) }
        ensures value { result.now ≡ self.old.items }
    {
        self.ring.make_contiguous()
    }

    /// Takes so many bytes away, or all where there are fewer.
    pub fn skip(&mut self, count: usize)
        ensures { self.new ≡ buffer (drop count self.old.items) self.old.capacity }
    {
        let left = self.ring.len().saturating_sub(count);
        self.ring.truncate_front(left);
    }
}
