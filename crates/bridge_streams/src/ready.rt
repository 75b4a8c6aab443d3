//! The bytes that are spelled and not drained.
ghost use Rattle.std.specs.Prelude.{◌≡◌, ◌≤◌, [], ◌++◌, length, take, drop, IfOk, OnOk};

use std::alloc::Global;
use std::marker::Model;
use std::mem;
use uno_base::NoMemory;

/// Bytes that go in at the back and out at the front. Those that went out stand in front of the others until as many went out as are left:
/// so a byte is moved once at most for each that goes out.
#[derive(Drop)]
pub(crate) struct Ready {
    alloc: Global,
    bytes: Vec<u8>,
    front: usize,
}

impl Model for Ready {
    ghost use Rattle.std.specs.Prelude.{ℕ, ◌≤◌, List, drop};
    ghost use Rattle.std.specs.Vec.{vec_len};

    ghost Value = { List ℕ };

    ghost view = { λ r. drop r.front r.bytes.items };

    ghost invariant = { λ r. r.front ≤ vec_len r.bytes };
}

impl Ready {
    /// No bytes.
    pub(crate) fn new(alloc: Global) -> Ready
        ensures { result ≡ [] }
    {
        Ready {
            alloc,
            bytes: Vec::new(alloc),
            front: 0,
        }
    }

    /// How many bytes there are.
    pub(crate) fn len(&self) -> usize
        ensures { result ≡ length self.now }
    {
        self.bytes.len() - self.front
    }

    /// Puts a block behind the others. Where there is no other it stays where it is.
    pub(crate) fn push(&mut self, block: Vec<u8>) -> Result<(), NoMemory>
        ensures { OnOk result (self.new ≡ self.old ++ block.items) }
    {
        if self.len() > 0 {
            return self.push_copy(&block);
        }
        self.bytes = block;
        self.front = 0;
        Ok(())
    }

    /// Takes so many bytes from the front. All of them, where none went out before, stay where they are.
    pub(crate) fn take(&mut self, count: usize) -> Result<Vec<u8>, NoMemory>
        requires { count ≤ length self.old }
        ensures taken { IfOk result (λ bytes. bytes.items ≡ take count self.old) }
        ensures left { OnOk result (self.new ≡ drop count self.old) }
    {
        if self.front == 0 && count == self.bytes.len() {
            return Ok(mem::replace(&mut self.bytes, Vec::new(self.alloc)));
        }
        self.take_copy(count)
    }

    /// Puts a copy of bytes behind the others.
    fn push_copy(&mut self, block: &[u8]) -> Result<(), NoMemory>
        ensures { OnOk result (self.new ≡ self.old ++ block.now) }
    {
        if self.front >= self.bytes.len() - self.front {
            self.compact();
        }
        self.bytes.extend_from_slice(block)?;
        Ok(())
    }

    /// Takes a copy of so many bytes from the front.
    fn take_copy(&mut self, count: usize) -> Result<Vec<u8>, NoMemory>
        requires { count ≤ length self.old }
        ensures taken { IfOk result (λ bytes. bytes.items ≡ take count self.old) }
        ensures left { OnOk result (self.new ≡ drop count self.old) }
    {
        let end = self.front + count;
        let bytes = Vec::from_slice(self.alloc, &self.bytes[self.front..end])?;
        self.front = end;
        Ok(bytes)
    }

    /// Lets go the bytes that went out.
    fn compact(&mut self)
        ensures { self.new ≡ self.old }
    {
        self.bytes.drain(..self.front);
        self.front = 0;
    }
}
