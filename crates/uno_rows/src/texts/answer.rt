//! What a row is answered.

use std::alloc::Global;
use std::fmt::Debug;
use uno_types::Registry;
use uno_values::Value;
use value_text::print_value;

/// The answer as far as it is written. What finds no memory is left out, so that the row is wrong.
#[derive(Drop)]
pub(crate) struct Answer {
    bytes: Vec<u8>,
}

impl Answer {
    pub(crate) fn new(alloc: Global) -> Answer {
        Answer {
            bytes: Vec::new(alloc),
        }
    }

    /// Its bytes.
    pub(crate) fn bytes(&self) -> &[u8] {
        self.bytes.as_slice()
    }

    /// Puts bytes behind it.
    pub(crate) fn put(&mut self, bytes: &[u8]) {
        self.bytes.extend_from_slice(bytes).ok();
    }

    /// Puts a word behind it, with a blank between.
    pub(crate) fn word(&mut self, word: &str) {
        if !self.bytes.is_empty() {
            self.put(b" ");
        }
        self.put(word.as_bytes());
    }

    /// Puts a number or a refusal behind it as a word, as `{:?}` has it.
    pub(crate) fn show<T: Debug>(&mut self, shown: &T) {
        if let Ok(word) = format!(in *self.bytes.allocator(); "{shown:?}") {
            self.word(&word);
        }
    }

    pub(crate) fn yes_or_no(&mut self, yes: bool) {
        self.word(if yes { "yes" } else { "no" });
    }

    /// Puts the literal of a value behind it as a word.
    pub(crate) fn value(&mut self, registry: &Registry, value: &Value) {
        match print_value(*self.bytes.allocator(), registry, value) {
            Ok(literal) => {
                self.word("");
                self.put(&literal);
            }
            Err(error) => self.show(&error),
        }
    }
}
