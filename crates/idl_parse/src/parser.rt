//! The tokens that are left, and what is asked of the first of them.
ghost use Rattle.std.specs.Bool.{OnTrue, OnFalse};
ghost use Rattle.std.specs.Prelude.{◌≡◌, ◌<◌, ◌≤◌, drop, is_none, length, option_map, Ok, OnOk};
ghost use Rattle.grammar_model.specs.Readings.{next, optional};
ghost use Rattle.idl_model.specs.GrammarReading as model;
ghost use Rattle.idl_model.specs.PlacedTokens.{next_word};
ghost use Rattle.idl_trees.specs.Names.{place_of};
ghost use Rattle.idl_trees.specs.Tokens.{token_of, tokens_of, word_of};
ghost use Rattle.idl_parse.specs.Reading.{Gives, closed_at, unexpected_at};

use crate::stop::Stop;
use grammar_model::{Fault, Why};
use idl_trees::{Place, Token, Word};
use std::alloc::Global;
use std::marker::Model;

/// How many parentheses, modules and types with their `<` may stand open, each kind counted by itself.
pub(crate) const MOST_OPEN: u32 = 64;

/// The tokens that are left of a file.
#[derive(Drop)]
pub(crate) struct Parser<'t> {
    pub(crate) alloc: Global,
    left: &'t [Token],
}

impl<'t> Model for Parser<'t> {
    ghost use Rattle.idl_model.specs.Grammar.{Tokens};

    ghost Value = { Tokens };

    ghost use Rattle.idl_trees.specs.Tokens.{tokens_of};

    ghost view = { λ p. tokens_of p.left.now };
}

impl<'t> Parser<'t> {
    pub(crate) fn new(alloc: Global, tokens: &'t [Token]) -> Parser<'t>
        ensures { result ≡ tokens_of tokens.now }
    {
        Parser {
            alloc,
            left: tokens,
        }
    }

    /// Whether no token is left.
    pub(crate) fn is_at_end(&self) -> bool
        ensures is { result ≡ is_none (next self.now) }
        ensures some { OnFalse result (0 < length self.now) }
    {
        self.left.is_empty()
    }

    /// The next token.
    pub(crate) fn next(&self) -> Option<&'t Token>
        ensures { option_map (λ t. token_of t.now) result ≡ next self.now }
    {
        let (first, _) = self.left.split_first()?;
        Some(first)
    }

    /// The word of the next token.
    pub(crate) fn next_word(&self) -> Option<&'t Word>
        ensures { option_map (λ w. word_of w.now) result ≡ next_word (next self.now) }
    {
        let (first, _) = self.left.split_first()?;
        Some(&first.word)
    }

    /// The refusal of the next token, or of the end.
    pub(crate) fn unexpected(&self) -> Stop
        ensures { result ≡ unexpected_at self.now }
    {
        Stop::At(Fault {
            why: Why::Unexpected,
            left: self.left.len(),
        })
    }

    /// The refusal of the next token where nothing more may open: this mark would open one too many.
    pub(crate) fn closed(&self, mark: &str) -> Stop
        ensures { result ≡ closed_at (model.is_mark mark.now) self.now }
    {
        if self.is_mark(mark) {
            return Stop::At(Fault {
                why: Why::Nested,
                left: self.left.len(),
            });
        }
        self.unexpected()
    }

    /// Leaves out the next token, if there is one.
    pub(crate) fn skip(&mut self)
        ensures { self.new ≡ drop 1 self.old }
    {
        if let Some((_, behind)) = self.left.split_first() {
            self.left = behind;
        }
    }

    /// Whether the next token is this mark.
    pub(crate) fn is_mark(&self, mark: &str) -> bool
        ensures is { result ≡ model.is_mark mark.now (next self.now) }
        ensures some { OnTrue result (0 < length self.now) }
    {
        match self.next_word() {
            Some(word) => word.is_mark(mark),
            None => false,
        }
    }

    /// Whether the next token is this word of the grammar.
    pub(crate) fn is_keyword(&self, keyword: &str) -> bool
        ensures is { result ≡ model.is_keyword keyword.now (next self.now) }
        ensures some { OnTrue result (0 < length self.now) }
    {
        match self.next_word() {
            Some(word) => word.is_quoted(keyword),
            None => false,
        }
    }

    /// Whether a token stands there that is not this mark, which closes a list.
    pub(crate) fn is_open(&self, mark: &str) -> bool
        ensures is { result ≡ model.is_open mark.now (next self.now) }
        ensures some { OnTrue result (0 < length self.now) }
    {
        match self.next_word() {
            Some(word) => !word.is_mark(mark),
            None => false,
        }
    }

    /// This mark.
    pub(crate) fn mark(&mut self, mark: &str) -> Result<(), Stop>
        ensures gives { Gives (λ x. x) result self.new (model.mark mark.now self.old) }
        ensures shorter { OnOk result (length self.new < length self.old) }
    {
        if !self.is_mark(mark) {
            return Err(self.unexpected());
        }
        self.skip();
        Ok(())
    }

    /// This word of the grammar.
    pub(crate) fn keyword(&mut self, keyword: &str) -> Result<(), Stop>
        ensures gives { Gives (λ x. x) result self.new (model.keyword keyword.now self.old) }
        ensures shorter { OnOk result (length self.new < length self.old) }
    {
        if !self.is_keyword(keyword) {
            return Err(self.unexpected());
        }
        self.skip();
        Ok(())
    }

    /// This word of the grammar, by its place.
    pub(crate) fn keyword_at(&mut self, keyword: &str) -> Result<Place, Stop>
        ensures gives { Gives place_of result self.new (model.keyword_place keyword.now self.old) }
        ensures shorter { OnOk result (length self.new < length self.old) }
    {
        let Some(token) = self.next() else {
            return Err(self.unexpected());
        };
        if !token.word.is_quoted(keyword) {
            return Err(self.unexpected());
        }
        self.skip();
        Ok(token.place)
    }

    /// Takes this mark if it is next, and gives its place.
    pub(crate) fn accept_mark_at(&mut self, mark: &str) -> Option<Place>
        ensures gives { optional (model.is_mark mark.now) (model.mark_place mark.now) self.old ≡ Ok (option_map place_of result, self.new) }
        ensures shorter { length self.new ≤ length self.old }
    {
        let token = self.next()?;
        if !token.word.is_mark(mark) {
            return None;
        }
        self.skip();
        Some(token.place)
    }

    /// Takes this mark if it is next, and says whether it was.
    pub(crate) fn accept_mark(&mut self, mark: &str) -> bool
        ensures is { result ≡ model.is_mark mark.now (next self.old) }
        ensures read { OnTrue result (model.mark mark.now self.old ≡ Ok (tt, self.new)) }
        ensures shorter { OnTrue result (length self.new < length self.old) }
        ensures kept { OnFalse result (self.new ≡ self.old) }
    {
        let is_next = self.is_mark(mark);
        if is_next {
            self.skip();
        }
        is_next
    }

    /// Takes this word of the grammar if it is next, and says whether it was.
    pub(crate) fn accept_keyword(&mut self, keyword: &str) -> bool
        ensures is { result ≡ model.is_keyword keyword.now (next self.old) }
        ensures read { OnTrue result (model.keyword keyword.now self.old ≡ Ok (tt, self.new)) }
        ensures shorter { OnTrue result (length self.new < length self.old) }
        ensures kept { OnFalse result (self.new ≡ self.old) }
    {
        let is_next = self.is_keyword(keyword);
        if is_next {
            self.skip();
        }
        is_next
    }
}
