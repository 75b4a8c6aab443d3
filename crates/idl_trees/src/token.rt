//! The tokens of a file: its words, numbers and marks, each with its place.

ghost use Rattle.std.specs.Prelude.{◌≡◌};
ghost use Rattle.idl_model.specs.PlacedTokens.{is_terminal};
ghost use Rattle.idl_text_model.specs.Tokens as plain;
ghost use Rattle.idl_trees.specs.Tokens.{word_of};

use crate::Place;
use uno_entities::{Name, Text};

/// What a token says.
pub enum Word {
    Identifier(Name),
    Number(u64),
    /// A word that is no identifier: of the grammar, of a simple type, of a truth.
    Quoted(Text),
    Mark(Text),
}

/// A word, the place of its first byte, and how many bytes it has.
#[derive(Drop)]
pub struct Token {
    pub word: Word,
    pub place: Place,
    pub length: u32,
}

impl Drop for Word {
    fn drop(self) {
        match self {
            Word::Number(_) => {}
            Word::Identifier(name) => drop(name),
            Word::Quoted(text) | Word::Mark(text) => drop(text),
        }
    }
}

impl Word {
    /// Whether it is this word of the grammar.
    pub fn is_quoted(&self, word: &str) -> bool
        ensures { result ≡ is_terminal (plain.quoted word.now) (word_of self.now) }
    {
        let Word::Quoted(text) = self else {
            return false;
        };
        word == text.as_str()
    }

    /// Whether it is this mark.
    pub fn is_mark(&self, mark: &str) -> bool
        ensures { result ≡ is_terminal (plain.mark mark.now) (word_of self.now) }
    {
        let Word::Mark(text) = self else {
            return false;
        };
        mark == text.as_str()
    }
}
