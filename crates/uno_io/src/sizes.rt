//! The greatest lengths of the pieces of a stream in memory.
ghost use Rattle.std.specs.Prelude.{◌≡◌, ◌<◌, ◌≤◌, All};
ghost use Rattle.uno_io.specs.Sizes.{limit, turned};

use std::marker::Model;

/// Lengths in bytes that are used round and round, each at least 1.
#[derive(Drop)]
pub struct Sizes {
    lengths: Vec<usize>,
    turn: usize,
}

impl Model for Sizes {
    ghost use Rattle.std.specs.Prelude.{ℕ, List, ◌++◌, ◌<◌, take, drop, length, All};

    ghost Value = { List ℕ };

    ghost view = { λ s. drop s.turn s.lengths.items ++ take s.turn s.lengths.items };

    ghost invariant = { λ s. All (λ n. 0 < n) s.lengths.items × (0 < length s.lengths.items → s.turn < length s.lengths.items) };
}

impl Sizes {
    /// Begins with the first length.
    pub fn new(lengths: Vec<usize>) -> Sizes
        requires { All (λ n. 0 < n) lengths.items }
        ensures { result ≡ lengths.items }
    {
        Sizes { lengths, turn: 0 }
    }

    /// The most that the next piece may have, of what there is room for.
    pub fn limit(&self, room: usize) -> usize
        ensures limit { result ≡ limit self.now room }
        ensures some { 0 < room → 0 < result }
    {
        match self.lengths.get(self.turn) {
            Some(size) => room.min(*size),
            None => room,
        }
    }

    /// Uses up the length whose turn it is.
    pub fn turn(&mut self)
        ensures { self.new ≡ turned self.old }
    {
        let last = self.lengths.len().saturating_sub(1);
        if self.turn < last {
            self.turn += 1;
        } else {
            self.turn = 0;
        }
    }
}
