//! Values that are taken one after the other.
ghost use Rattle.std.specs.Prelude.{◌≡◌, drop, map, option_map, slice_get};
ghost use Rattle.frame_variables.specs.Given.{left};
ghost use Rattle.uno_values.specs.Values.{plain_of};

use std::mem;
use uno_values::Value;

/// Values, and how many of them are taken.
#[derive(Drop)]
pub struct Given {
    values: Vec<Value>,
    taken: usize,
}

impl Given {
    /// None of them is taken.
    pub fn new(values: Vec<Value>) -> Given
        ensures { left result ≡ map plain_of values.items }
    {
        Given { values, taken: 0 }
    }

    /// Takes the next one, where one is left.
    pub fn next(&mut self) -> Option<Value>
        ensures first { option_map plain_of result ≡ slice_get (left self.old) 0 }
        ensures rest { left self.new ≡ drop 1 (left self.old) }
    {
        let place = self.taken;
        if place >= self.values.len() {
            return None;
        }
        self.taken = place + 1;
        Some(mem::replace(&mut self.values[place], Value::Void))
    }
}
