//! Guesses which token says the same as some bytes: each is tried, so that nothing rests on it.
ghost use Rattle.std.specs.Bool.{OnTrue};
ghost use Rattle.std.specs.Prelude.{◌≡◌, true, IfOk, IfSome, IsTrue};
ghost use Rattle.std.specs.List.{list_all};
ghost use Rattle.idl_text_model.specs.Tokens as plain;
ghost use Rattle.uno_model.specs.Names.{goes_on_identifier};
ghost use Rattle.idl_trees.specs.Tokens.{tokens_of, word_of};
ghost use Rattle.idl_lex.specs.Lexing.{has_its_word, says_its_word};
ghost use Rattle.idl_lex.specs.Runs.{is_ascii};

use crate::Token;
use crate::run::as_text;
use idl_trees::Word;
use std::alloc::Global;
use uno_base::NoMemory;
use uno_entities::{Name, Text, is_identifier};

/// How many slots marks have: one for each byte below it.
const MARKS: usize = 128;

/// How many slots words have, and how far a mixture of 32 bits is shifted for one of them.
const WORDS: usize = 4_096;

const WORD_SHIFT: u32 = 20;

/// What mixes how many bytes a word has with some of them, and all of that.
const PRIME: u32 = 0x0100_0193;

const MIX: u32 = 0x9e37_79b1;

/// For each slot the number of a token that had it, or 0.
#[derive(Drop)]
pub(crate) struct Guesses {
    tokens: Vec<usize>,
}

impl Guesses {
    pub(crate) fn none(alloc: Global) -> Result<Guesses, NoMemory> {
        let tokens = vec![in alloc; 0usize; MARKS + WORDS]?;
        Ok(Guesses { tokens })
    }

    /// What letters, digits and `_` say; where a token is guessed that says it, its text is shared.
    pub(crate) fn word(
        &mut self,
        alloc: Global,
        tokens: &[Token],
        spelled: &[u8],
    ) -> Result<Word, NoMemory>
        requires words { IsTrue (list_all has_its_word (tokens_of tokens.now)) }
        requires letters { IsTrue (list_all goes_on_identifier spelled.now) }
        ensures { IfOk result (λ w. word_of w ≡ plain.word_named spelled.now) }
    {
        let slot = word_slot(spelled);
        if let Some(word) = self.guessed_word(tokens, slot, spelled) {
            return copy_of(word);
        }
        self.note(slot, tokens.len());
        word_named(alloc, as_text(spelled))
    }

    /// This mark; where a token is guessed that is it, its text is shared.
    pub(crate) fn mark(
        &mut self,
        alloc: Global,
        tokens: &[Token],
        spelled: &[u8],
    ) -> Result<Word, NoMemory>
        requires { IsTrue (list_all is_ascii spelled.now) }
        ensures { IfOk result (λ w. word_of w ≡ plain.mark spelled.now) }
    {
        let slot = mark_slot(spelled);
        if let Some(word) = self.guessed_mark(tokens, slot, spelled) {
            return copy_of(word);
        }
        self.note(slot, tokens.len());
        Ok(Word::Mark(Text::of(alloc, as_text(spelled))?))
    }

    fn guessed_word<'t>(&self, tokens: &'t [Token], slot: usize, spelled: &[u8]) -> Option<&'t Word>
        requires { IsTrue (list_all has_its_word (tokens_of tokens.now)) }
        ensures { IfSome result (λ w. word_of w.now ≡ plain.word_named spelled.now) }
    {
        let word = self.guessed(tokens, slot)?;
        if is_word(word, spelled) {
            return Some(word);
        }
        None
    }

    fn guessed_mark<'t>(&self, tokens: &'t [Token], slot: usize, spelled: &[u8]) -> Option<&'t Word>
        ensures { IfSome result (λ w. word_of w.now ≡ plain.mark spelled.now) }
    {
        let word = self.guessed(tokens, slot)?;
        if is_mark(word, spelled) {
            return Some(word);
        }
        None
    }

    /// The word of the token that is guessed.
    fn guessed<'t>(&self, tokens: &'t [Token], slot: usize) -> Option<&'t Word>
        ensures { IfSome result (λ w. IsTrue (list_all has_its_word (tokens_of tokens.now)) → says_its_word (word_of w.now) ≡ true) }
    {
        let place = self.tokens.get(slot)?;
        let token = tokens.get(*place)?;
        Some(&token.word)
    }

    fn note(&mut self, slot: usize, token: usize) {
        if let Some(place) = self.tokens.get_mut(slot) {
            *place = token;
        }
    }
}

/// Whether the word says what the letters, digits and `_` do.
fn is_word(word: &Word, spelled: &[u8]) -> bool
    requires { says_its_word (word_of word.now) ≡ true }
    ensures { OnTrue result (word_of word.now ≡ plain.word_named spelled.now) }
{
    match word {
        Word::Identifier(name) => name.as_str().as_bytes() == spelled,
        Word::Quoted(text) => text.as_str().as_bytes() == spelled,
        _ => false,
    }
}

/// Whether the word is this mark.
fn is_mark(word: &Word, spelled: &[u8]) -> bool
    ensures { OnTrue result (word_of word.now ≡ plain.mark spelled.now) }
{
    let Word::Mark(text) = word else {
        return false;
    };
    text.as_str().as_bytes() == spelled
}

/// An equal word, which shares its text.
fn copy_of(word: &Word) -> Result<Word, NoMemory>
    ensures { IfOk result (λ w. word_of w ≡ word_of word.now) }
{
    match word {
        Word::Identifier(name) => Ok(Word::Identifier(name.copy()?)),
        Word::Number(number) => Ok(Word::Number(*number)),
        Word::Quoted(text) => Ok(Word::Quoted(text.copy()?)),
        Word::Mark(text) => Ok(Word::Mark(text.copy()?)),
    }
}

/// What letters, digits and `_` say.
fn word_named(alloc: Global, word: &str) -> Result<Word, NoMemory>
    ensures { IfOk result (λ w. word_of w ≡ plain.word_named word.now) }
{
    if is_identifier(word) {
        return Ok(Word::Identifier(Name::of(alloc, word)?));
    }
    Ok(Word::Quoted(Text::of(alloc, word)?))
}

/// The slot of a word: by how many bytes it has, and some of them.
fn word_slot(spelled: &[u8]) -> usize {
    let length = (spelled.len() % 256) as u32;
    let mixed = u32::from_le_bytes(ends(spelled)) ^ length.wrapping_mul(PRIME);
    (mixed.wrapping_mul(MIX) >> WORD_SHIFT) as usize + MARKS
}

/// The first byte and the last ones.
fn ends(spelled: &[u8]) -> [u8; 4] {
    match spelled {
        [first, .., third, second, last] => [*first, *third, *second, *last],
        [first, .., last] => [*first, 0, 0, *last],
        [only] => [*only, 0, 0, 0],
        [] => [0, 0, 0, 0],
    }
}

/// The slot of a mark: its byte, or how many bytes it has.
fn mark_slot(spelled: &[u8]) -> usize {
    match spelled {
        [byte] => *byte as usize,
        _ => spelled.len(),
    }
}
