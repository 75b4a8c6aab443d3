//! Operators between operands and before one.
ghost use Rattle.std.specs.Bool.{OnTrue};
ghost use Rattle.std.specs.Prelude.{◌≡◌, ◌<◌, ◌≤◌, length, map, option_map, OnOk};
ghost use Rattle.grammar_model.specs.Readings.{next, many, one, touching};
ghost use Rattle.idl_model.specs.Grammar.{of_marks, operator_marks, shift_marks, sign_marks};
ghost use Rattle.idl_model.specs.GrammarReading.{is_mark_of, operator_at, shift_at};
ghost use Rattle.idl_model.specs.PlacedTokens.{is_terminal, touches};
ghost use Rattle.idl_model.specs.Trees.{strength};
ghost use Rattle.idl_trees.specs.Expressions.{operator_of, sign_of};
ghost use Rattle.idl_trees.specs.Tokens.{token_of, word_of};
ghost use Rattle.idl_parse.specs.Levels.{begins_operator, operator};
ghost use Rattle.idl_parse.specs.Reading.{Gives};

use crate::parser::Parser;
use crate::stop::Stop;
use idl_trees::{Operator, Sign, Token, Word};

/// The level of shifts, which have two marks.
const SHIFTS: u32 = 3;

impl<'t> Parser<'t> {
    /// Whether an operator of this level is next.
    pub(crate) fn begins_operator(&self, level: u32) -> bool
        ensures is { result ≡ begins_operator level (next self.now) }
        ensures some { OnTrue result (0 < length self.now) }
    {
        let Some(word) = self.next_word() else {
            return false;
        };
        if level == SHIFTS {
            return shift_of(word).is_some();
        }
        match operator_of(word) {
            Some(operator) => strength(operator) == level,
            None => false,
        }
    }

    /// The operator of this level; a shift is its mark twice, side by side.
    pub(crate) fn operator(&mut self, level: u32) -> Result<Operator, Stop>
        ensures gives { Gives operator_of result self.new (operator level self.old) }
        ensures shorter { OnOk result (length self.new < length self.old) }
    {
        if level == SHIFTS {
            return self.shift();
        }
        self.one_mark(level)
    }

    fn one_mark(&mut self, level: u32) -> Result<Operator, Stop>
        ensures gives { Gives operator_of result self.new (one (operator_at level) self.old) }
        ensures shorter { OnOk result (length self.new < length self.old) }
    {
        let Some(token) = self.next() else {
            return Err(self.unexpected());
        };
        let Some(operator) = operator_of(&token.word) else {
            return Err(self.unexpected());
        };
        if strength(operator) != level {
            return Err(self.unexpected());
        }
        self.skip();
        Ok(operator)
    }

    fn shift(&mut self) -> Result<Operator, Stop>
        ensures gives { Gives operator_of result self.new (touching shift_at touches self.old) }
        ensures shorter { OnOk result (length self.new < length self.old) }
    {
        let Some(first) = self.next() else {
            return Err(self.unexpected());
        };
        let Some(shift) = shift_of(&first.word) else {
            return Err(self.unexpected());
        };
        self.skip();
        let Some(second) = self.next() else {
            return Err(self.unexpected());
        };
        if !touches(first, second) {
            return Err(self.unexpected());
        }
        self.skip();
        Ok(shift)
    }

    /// All signs that are next.
    pub(crate) fn signs(&mut self) -> Result<Vec<Sign>, Stop>
        ensures gives { Gives (λ signs. map sign_of signs.items) result self.new
            (many (is_mark_of sign_marks) (one (λ t. of_marks sign_marks t.word)) self.old) }
        ensures shorter { OnOk result (length self.new ≤ length self.old) }
    {
        let mut signs = Vec::new(self.alloc);
        while self.is_sign() {
            let one = self.sign()?;
            signs.push(one)?;
        }
        Ok(signs)
    }

    fn is_sign(&self) -> bool
        ensures is { result ≡ is_mark_of sign_marks (next self.now) }
        ensures some { OnTrue result (0 < length self.now) }
    {
        let Some(word) = self.next_word() else {
            return false;
        };
        sign_of(word).is_some()
    }

    fn sign(&mut self) -> Result<Sign, Stop>
        ensures gives { Gives sign_of result self.new (one (λ t. of_marks sign_marks t.word) self.old) }
        ensures shorter { OnOk result (length self.new < length self.old) }
    {
        let Some(token) = self.next() else {
            return Err(self.unexpected());
        };
        let Some(sign) = sign_of(&token.word) else {
            return Err(self.unexpected());
        };
        self.skip();
        Ok(sign)
    }
}

/// The operator that a mark is, unless it is one of a shift.
fn operator_of(word: &Word) -> Option<Operator>
    ensures { option_map operator_of result ≡ of_marks operator_marks (word_of word.now) }
{
    let Word::Mark(mark) = word else {
        return None;
    };
    match mark.as_str() {
        "|" => Some(Operator::BitOr),
        "^" => Some(Operator::BitXor),
        "&" => Some(Operator::BitAnd),
        "+" => Some(Operator::Plus),
        "-" => Some(Operator::Minus),
        "*" => Some(Operator::Times),
        "/" => Some(Operator::DividedBy),
        "%" => Some(Operator::Remainder),
        _ => None,
    }
}

/// The shift that a mark is half of.
fn shift_of(word: &Word) -> Option<Operator>
    ensures { option_map operator_of result ≡ of_marks shift_marks (word_of word.now) }
{
    let Word::Mark(mark) = word else {
        return None;
    };
    match mark.as_str() {
        "<" => Some(Operator::ShiftLeft),
        ">" => Some(Operator::ShiftRight),
        _ => None,
    }
}

fn sign_of(word: &Word) -> Option<Sign>
    ensures { option_map sign_of result ≡ of_marks sign_marks (word_of word.now) }
{
    let Word::Mark(mark) = word else {
        return None;
    };
    match mark.as_str() {
        "+" => Some(Sign::Positive),
        "-" => Some(Sign::Negative),
        "~" => Some(Sign::Complement),
        _ => None,
    }
}

/// The levels of the operators between operands; the weakest is 0.
fn strength(operator: Operator) -> u32
    ensures { result ≡ strength (operator_of operator) }
{
    match operator {
        Operator::BitOr => 0,
        Operator::BitXor => 1,
        Operator::BitAnd => 2,
        Operator::ShiftLeft | Operator::ShiftRight => SHIFTS,
        Operator::Plus | Operator::Minus => 4,
        Operator::Times | Operator::DividedBy | Operator::Remainder => 5,
    }
}

/// Whether the second token is the same mark as the first, and begins where that one ends.
fn touches(first: &Token, second: &Token) -> bool
    ensures { result ≡ touches (token_of first.now) (token_of second.now) }
{
    is_same(&first.word, &second.word)
        && first.place.file == second.place.file
        && u64::from(first.place.byte) + u64::from(first.length) == u64::from(second.place.byte)
}

/// Whether two tokens are one mark or one word of the grammar.
fn is_same(first: &Word, second: &Word) -> bool
    ensures { result ≡ is_terminal (word_of first.now) (word_of second.now) }
{
    match first {
        Word::Quoted(text) => second.is_quoted(text.as_str()),
        Word::Mark(mark) => second.is_mark(mark.as_str()),
        _ => false,
    }
}
