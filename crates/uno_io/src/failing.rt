//! The calls of a stream in memory: which are to fail, and how many there were.
ghost use Rattle.std.specs.Prelude.{◌≡◌, ◌≤◌, IsTrue, ◌↔◌, Contains};
ghost use Rattle.uno_io.specs.Calls.{passed, failed};

use std::marker::Model;

/// The list of the calls that are to fail, with the counts of calls and of faults.
#[derive(Drop)]
pub struct Failing {
    numbers: Vec<u64>,
    calls: u64,
    faults: u64,
}

impl Model for Failing {
    ghost use Rattle.uno_io.specs.Calls.{Calls};

    ghost Value = { Calls };

    ghost view = { λ f. record { failing = f.numbers.items; calls = f.calls; faults = f.faults } };
}

impl Failing {
    /// Before the first call, whose number is 0.
    pub fn new(numbers: Vec<u64>) -> Failing
        ensures { result ≡ record { failing = numbers.items; calls = 0; faults = 0 } }
    {
        Failing {
            numbers,
            calls: 0,
            faults: 0,
        }
    }

    /// Whether the next call is to fail.
    pub fn is_next(&self) -> bool
        ensures { IsTrue result ↔ (Contains self.now.failing self.now.calls) }
    {
        self.numbers.contains(&self.calls)
    }

    /// Counts a call that did what was asked.
    pub fn pass(&mut self)
        ensures { self.new ≡ passed self.old }
    {
        self.calls = self.calls.saturating_add(1);
    }

    /// Counts a call that failed.
    pub fn fail(&mut self)
        ensures counted { self.new ≡ failed self.old }
        ensures later { self.old.faults ≤ self.new.faults }
    {
        self.calls = self.calls.saturating_add(1);
        self.faults = self.faults.saturating_add(1);
    }
}
