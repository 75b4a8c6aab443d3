//! What a row shows, word by word.
use std::alloc::Global;
use std::fmt::Debug;
use std::process::Abort;
use uno_base::NoMemory;
use uno_types::Registry;
use uno_values::{AnyValue, Value, weight};
use value_text::{push_any, push_value};

/// The most that a value weighs whose literal is shown.
const MOST_SHOWN: u64 = 1_000_000;

/// Words, each behind a blank. What finds no memory is left out, so that its row fails.
#[derive(Drop)]
pub(crate) struct Shown {
    alloc: Global,
    pub(crate) text: String,
}

impl Shown {
    pub(crate) fn new(alloc: Global) -> Shown {
        Shown {
            alloc,
            text: String::new(alloc),
        }
    }

    pub(crate) fn as_str(&self) -> &str {
        self.text.as_str()
    }

    /// Puts a piece of a word behind the others.
    pub(crate) fn put(&mut self, piece: &str) {
        self.text.push_str(piece).ok();
    }

    pub(crate) fn word(&mut self, word: &str) {
        self.put(" ");
        self.put(word);
    }

    pub(crate) fn put_long(&mut self, number: i32) {
        match number.to_string(self.alloc) {
            Ok(digits) => self.put(&digits),
            Err(_) => self.put("no memory"),
        }
    }

    pub(crate) fn put_number(&mut self, number: u64) {
        match number.to_string(self.alloc) {
            Ok(digits) => self.put(&digits),
            Err(_) => self.put("no memory"),
        }
    }

    pub(crate) fn number(&mut self, number: u64) {
        self.put(" ");
        self.put_number(number);
    }

    pub(crate) fn number_or_none(&mut self, number: Option<u64>) {
        match number {
            Some(number) => self.number(number),
            None => self.word("-"),
        }
    }

    pub(crate) fn yes(&mut self, answer: bool) {
        self.word(if answer { "y" } else { "n" });
    }

    /// The same of an answer that may be a refusal.
    pub(crate) fn yes_or_refused(&mut self, answer: Option<bool>) {
        match answer {
            Some(answer) => self.yes(answer),
            None => self.word("!"),
        }
    }

    /// Shows of a call that answers nothing else whether it found memory.
    pub(crate) fn done(&mut self, done: Result<(), NoMemory>) {
        if done.is_err() {
            self.word("no memory");
        }
    }

    /// Puts an answer by the names of its variants.
    pub(crate) fn tell(&mut self, answer: &impl Debug) {
        write!(self.text, "{answer:?}").ok();
    }

    pub(crate) fn tell_or_none(&mut self, answer: Option<impl Debug + Drop>) {
        match answer {
            Some(answer) => self.tell(&answer),
            None => self.put("-"),
        }
    }

    /// Puts three answers with a blank between them.
    pub(crate) fn tell_three(&mut self, answers: &[impl Debug; 3]) {
        let [first, second, third] = answers;
        write!(self.text, "{first:?} {second:?} {third:?}").ok();
    }

    /// Puts the digits of bytes.
    pub(crate) fn bytes(&mut self, bytes: &[u8]) {
        for byte in bytes {
            write!(self.text, "{byte:02X}").ok();
        }
    }

    /// Puts the literal of a value; one that weighs much is shown by its weight.
    pub(crate) fn put_value(&mut self, registry: &Registry, value: &Value) {
        let weight = weight(registry, value);
        if weight > MOST_SHOWN {
            self.put("weighing ");
            self.put_number(weight);
            return;
        }
        push_value(self.alloc, &mut self.text, registry, value).ok();
    }

    pub(crate) fn put_any(&mut self, registry: &Registry, any: &AnyValue) {
        push_any(self.alloc, &mut self.text, registry, any).ok();
    }

    /// Puts the literal of a value behind a blank.
    pub(crate) fn value(&mut self, registry: &Registry, value: &Value) {
        self.put(" ");
        self.put_value(registry, value);
    }

    pub(crate) fn values(&mut self, registry: &Registry, values: &[Value]) {
        for value in values {
            self.value(registry, value);
        }
    }

    /// Sees that a row shows what it should.
    pub(crate) fn see(&self, rt: &impl Abort, row: &str, wanted: &str) {
        assert_eq!(rt; self.text.as_str(), wanted, "at {row}");
    }
}

/// Sees that a row of a talk shows what it should.
pub(crate) fn see(rt: &impl Abort, shown: &Shown, wanted: &Shown, row: &str, table: &str) {
    assert_eq!(rt;
        shown.text.as_str(),
        wanted.text.as_str(),
        "at {row} of {table}"
    );
}

/// What stands before the mark, and what behind it; without a mark, nothing.
pub(crate) fn cut(text: &str, mark: char) -> (&str, &str) {
    match text.split_once(mark) {
        Some(both) => both,
        None => (text, ""),
    }
}

/// The number that a word is; there is one in each row that asks for it.
pub(crate) fn number_in(word: &str) -> u32 {
    word.parse::<u32>().unwrap_or(0)
}
