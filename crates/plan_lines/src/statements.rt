//! Statements.
ghost use Rattle.std.specs.Prelude.{◌≡◌, Some, None, map, length, option_map, codes};
ghost use Rattle.plan_model.specs.Lines as plain;
ghost use Rattle.plan_reading_model.specs.LineReading as model;
ghost use Rattle.plan_reading_model.specs.Parts.{at_end, behind, export_name_at, on_some, word_at, variable_at};
ghost use Rattle.plan_reading_model.specs.TermReading.{term_at};
ghost use Rattle.plan_types.specs.Expressions.{word_of};
ghost use Rattle.plan_lines.specs.Lines.{line_of, declared_of};
ghost use Rattle.plan_lines.specs.Reads.{Gives};
ghost use Rattle.plan_lines.specs.Statements.{called_at};
ghost use Rattle.plan_lines.specs.Terms.{term_of};

use crate::arguments::arguments_at;
use crate::line::{Declared, Line};
use crate::marks::{before_blank, behind, behind_blank, whole};
use crate::names::{export_name_at, function_at, identifier_at};
use crate::parts::{declared_at, variable_at, word_at};
use crate::term::Term;
use crate::terms::term_at;
use crate::types::type_at;
use crate::unread::Unread;
use crate::words::Words;
use plan_types::{Comparison, Word};
use std::alloc::Global;
use uno_types::{Name, Text};

const EQUALS: &[u8] = b" = ";

const EQUAL: &[u8] = b" == ";

const LESS: &[u8] = b" < ";

const OPENS: &[u8] = b"(";

const POINT: &[u8] = b".";

const RETURN: &[u8] = b" return";

const INSTANCE: &[u8] = b"instance";

/// The term that is all of a text.
fn whole_term(alloc: Global, words: &Words<'_>, bytes: &[u8]) -> Result<Term, Unread>
    ensures { Gives term_of result (model.whole_term words.now bytes.now) }
{
    let (term, rest) = term_at(alloc, words, bytes)?;
    if !rest.is_empty() {
        drop(term);
        return Err(Unread::Form);
    }
    Ok(term)
}

/// The word that is all of a text.
fn whole_word(alloc: Global, bytes: &[u8]) -> Result<Word, Unread>
    ensures { Gives word_of result (at_end (word_at bytes.now)) }
{
    let (word, rest) = word_at(alloc, bytes)?;
    if !rest.is_empty() {
        drop(word);
        return Err(Unread::Form);
    }
    Ok(word)
}

/// The variable that is all of a text.
fn whole_variable(alloc: Global, bytes: &[u8]) -> Result<Name, Unread>
    ensures { Gives (λ name. name) result (at_end (variable_at bytes.now)) }
{
    let (name, rest) = variable_at(alloc, bytes)?;
    if !rest.is_empty() {
        return Err(Unread::Form);
    }
    Ok(name)
}

/// `let ID TYPE = TERM`.
#[tactic(auto, unfolding(plan_reading_model::specs::LineReading::let_at))]
pub(crate) fn let_at(alloc: Global, words: &Words<'_>, bytes: &[u8]) -> Result<Line, Unread>
    ensures { Gives line_of result (model.let_at words.now bytes.now) }
{
    let (declared, rest) = declared_at(alloc, EQUALS, bytes)?;
    match whole_term(alloc, words, rest) {
        Ok(term) => Ok(Line::Let(declared, term)),
        Err(unread) => {
            drop(declared);
            Err(unread)
        }
    }
}

/// `set WORD = TERM`.
#[tactic(auto, unfolding(plan_reading_model::specs::LineReading::set_at))]
pub(crate) fn set_at(alloc: Global, words: &Words<'_>, bytes: &[u8]) -> Result<Line, Unread>
    ensures { Gives line_of result (model.set_at words.now bytes.now) }
{
    let (word, rest) = word_at(alloc, bytes)?;
    match set_term(alloc, words, rest) {
        Ok(term) => set_of(word, term),
        Err(unread) => {
            drop(word);
            Err(unread)
        }
    }
}

/// ` = TERM`.
fn set_term(alloc: Global, words: &Words<'_>, bytes: &[u8]) -> Result<Term, Unread>
    ensures { Gives term_of result (on_some (behind model.equals bytes.now) (model.whole_term words.now)) }
{
    let Some(rest) = behind(EQUALS, bytes) else {
        return Err(Unread::Form);
    };
    whole_term(alloc, words, rest)
}

/// A variable or a field that gets a value; the own object gets none.
fn set_of(word: Word, term: Term) -> Result<Line, Unread>
    ensures { Gives line_of result (model.set_of (word_of word) (term_of term)) }
{
    match word {
        Word::Variable(name) => Ok(Line::SetVariable(name, term)),
        Word::Field(name) => Ok(Line::SetField(name, term)),
        Word::Own => {
            drop(term);
            Err(Unread::Form)
        }
    }
}

/// `call ID TYPE = TARGET`, or `call TARGET`.
#[tactic(auto, unfolding(plan_reading_model::specs::LineReading::call_at))]
pub(crate) fn call_at(alloc: Global, words: &Words<'_>, bytes: &[u8]) -> Result<Line, Unread>
    ensures { Gives line_of result (model.call_at words.now bytes.now) }
{
    let Some((first, _)) = bytes.split_first() else {
        return Err(Unread::Form);
    };
    if *first == b'$' {
        return target_at(alloc, words, None, bytes);
    }
    let (declared, rest) = declared_at(alloc, EQUALS, bytes)?;
    target_at(alloc, words, Some(declared), rest)
}

/// `WORD.FUNCTION(TERM,..)`.
#[tactic(auto, unfolding(plan_reading_model::specs::LineReading::target_at))]
fn target_at(
    alloc: Global,
    words: &Words<'_>,
    to: Option<Declared>,
    bytes: &[u8],
) -> Result<Line, Unread>
    ensures { Gives line_of result (model.target_at words.now (option_map declared_of to) bytes.now) }
{
    match word_at(alloc, bytes) {
        Ok((target, rest)) => call_of(alloc, words, to, target, rest),
        Err(unread) => {
            drop(to);
            Err(unread)
        }
    }
}

/// The call of a target, by what stands behind that.
fn call_of(
    alloc: Global,
    words: &Words<'_>,
    to: Option<Declared>,
    target: Word,
    bytes: &[u8],
) -> Result<Line, Unread>
    ensures { Gives line_of result (model.target_of words.now (option_map declared_of to) (word_of target, bytes.now)) }
{
    match called_at(alloc, words, bytes) {
        Ok((function, arguments)) => Ok(Line::Call {
            to,
            target,
            function,
            arguments,
        }),
        Err(unread) => {
            drop(to);
            drop(target);
            Err(unread)
        }
    }
}

/// `.FUNCTION(TERM,..)`.
fn called_at(alloc: Global, words: &Words<'_>, bytes: &[u8]) -> Result<(Name, Vec<Term>), Unread>
    ensures { Gives (λ x. (x.0, map term_of x.1.items)) result (called_at words.now bytes.now) }
{
    let Some(rest) = behind(POINT, bytes) else {
        return Err(Unread::Form);
    };
    let Some((function, rest)) = function_at(rest) else {
        return Err(Unread::Form);
    };
    let Some(rest) = behind(OPENS, rest) else {
        return Err(Unread::Form);
    };
    let arguments = arguments_at(alloc, words, rest)?;
    match Name::of(alloc, function) {
        Ok(function) => Ok((function, arguments)),
        Err(_) => {
            drop(arguments);
            Err(Unread::NoMemory)
        }
    }
}

/// `query ID TYPE = WORD`.
#[tactic(auto, unfolding(plan_reading_model::specs::LineReading::query_at))]
pub(crate) fn query_at(alloc: Global, bytes: &[u8]) -> Result<Line, Unread>
    ensures { Gives line_of result (model.query_at bytes.now) }
{
    let (declared, rest) = declared_at(alloc, EQUALS, bytes)?;
    match whole_word(alloc, rest) {
        Ok(target) => Ok(Line::Query(declared, target)),
        Err(unread) => {
            drop(declared);
            Err(unread)
        }
    }
}

/// `new ID TYPE = ID`.
#[tactic(auto, unfolding(plan_reading_model::specs::LineReading::make_at))]
pub(crate) fn make_at(alloc: Global, bytes: &[u8]) -> Result<Line, Unread>
    ensures { Gives line_of result (model.make_at bytes.now) }
{
    let (declared, rest) = declared_at(alloc, EQUALS, bytes)?;
    let Some(behaviour) = whole(identifier_at(rest)) else {
        drop(declared);
        return Err(Unread::Form);
    };
    match Name::of(alloc, behaviour) {
        Ok(behaviour) => Ok(Line::Make(declared, behaviour)),
        Err(_) => {
            drop(declared);
            Err(Unread::NoMemory)
        }
    }
}

/// `drop $ID`.
#[tactic(auto, unfolding(plan_reading_model::specs::LineReading::drop_at))]
pub(crate) fn drop_at(alloc: Global, bytes: &[u8]) -> Result<Line, Unread>
    ensures { Gives line_of result (model.drop_at bytes.now) }
{
    let name = whole_variable(alloc, bytes)?;
    Ok(Line::Drop(name))
}

/// `when WORD == TERM return TERM`, with `<` for `==`, and the last term left out.
#[tactic(auto, unfolding(plan_reading_model::specs::LineReading::when_at))]
pub(crate) fn when_at(alloc: Global, words: &Words<'_>, bytes: &[u8]) -> Result<Line, Unread>
    ensures { Gives line_of result (model.when_at words.now bytes.now) }
{
    let (left, rest) = word_at(alloc, bytes)?;
    match comparison_at(rest) {
        Some((comparison, rest)) => when_compared(alloc, words, left, comparison, rest),
        None => {
            drop(left);
            Err(Unread::Form)
        }
    }
}

/// The test of a word, by what stands behind its comparison.
fn when_compared(
    alloc: Global,
    words: &Words<'_>,
    left: Word,
    comparison: Comparison,
    bytes: &[u8],
) -> Result<Line, Unread>
    ensures { Gives line_of result (on_some (term_at words.now bytes.now) (model.when_of words.now (word_of left) comparison)) }
{
    match term_at(alloc, words, bytes) {
        Ok((right, rest)) => when_against(alloc, words, left, comparison, right, rest),
        Err(unread) => {
            drop(left);
            Err(unread)
        }
    }
}

/// The test of a word against a term, by what stands behind that.
fn when_against(
    alloc: Global,
    words: &Words<'_>,
    left: Word,
    comparison: Comparison,
    right: Term,
    bytes: &[u8],
) -> Result<Line, Unread>
    ensures { Gives line_of result (model.when_of words.now (word_of left) comparison (term_of right, bytes.now)) }
{
    match behind_test(alloc, words, bytes) {
        Ok(back) => Ok(Line::When {
            left,
            comparison,
            right,
            back,
        }),
        Err(unread) => {
            drop(left);
            drop(right);
            Err(unread)
        }
    }
}

/// How a test compares, with the blanks round it.
fn comparison_at(bytes: &[u8]) -> Option<(Comparison, &[u8])>
    ensures { option_map (λ x. (x.0, x.1.now)) result ≡ model.comparison_at bytes.now }
{
    if let Some(rest) = behind(EQUAL, bytes) {
        return Some((Comparison::Equal, rest));
    }
    let rest = behind(LESS, bytes)?;
    Some((Comparison::Less, rest))
}

/// ` return TERM`, where the term may be left out.
fn behind_test(alloc: Global, words: &Words<'_>, bytes: &[u8]) -> Result<Option<Term>, Unread>
    ensures { Gives (option_map term_of) result (on_some (behind (codes " return") bytes.now) (model.back_at words.now)) }
{
    let Some(rest) = behind(RETURN, bytes) else {
        return Err(Unread::Form);
    };
    back_at(alloc, words, rest)
}

/// What is returned; it may be left out.
fn back_at(alloc: Global, words: &Words<'_>, bytes: &[u8]) -> Result<Option<Term>, Unread>
    ensures { Gives (option_map term_of) result (model.back_at words.now bytes.now) }
{
    let Some((first, rest)) = bytes.split_first() else {
        return Ok(None);
    };
    if *first != b' ' {
        return Err(Unread::Form);
    }
    match whole_term(alloc, words, rest) {
        Ok(term) => Ok(Some(term)),
        Err(unread) => Err(unread),
    }
}

/// `return TERM`.
#[tactic(auto, unfolding(plan_reading_model::specs::LineReading::return_at))]
pub(crate) fn return_at(alloc: Global, words: &Words<'_>, bytes: &[u8]) -> Result<Line, Unread>
    ensures { Gives line_of result (model.return_at words.now bytes.now) }
{
    match whole_term(alloc, words, bytes) {
        Ok(term) => Ok(Line::Return(Some(term))),
        Err(unread) => Err(unread),
    }
}

/// `raise TYPE TERM`.
#[tactic(auto, unfolding(plan_reading_model::specs::LineReading::raise_at))]
pub(crate) fn raise_at(alloc: Global, words: &Words<'_>, bytes: &[u8]) -> Result<Line, Unread>
    ensures { Gives line_of result (model.raise_at words.now bytes.now) }
{
    let Some((kind, rest)) = before_blank(type_at(bytes)) else {
        return Err(Unread::Form);
    };
    let Ok(kind) = Name::of(alloc, kind) else {
        return Err(Unread::NoMemory);
    };
    match whole_term(alloc, words, rest) {
        Ok(term) => Ok(Line::Raise(kind, term)),
        Err(unread) => {
            drop(kind);
            Err(unread)
        }
    }
}

/// `ask ID TYPE = "NAME"`, or `instance` in place of the name.
#[tactic(auto, unfolding(plan_reading_model::specs::LineReading::ask_at))]
pub(crate) fn ask_at(alloc: Global, bytes: &[u8]) -> Result<Line, Unread>
    ensures { Gives line_of result (model.ask_at bytes.now) }
{
    let (declared, rest) = declared_at(alloc, EQUALS, bytes)?;
    if rest == INSTANCE {
        return Ok(Line::AskInstance(declared));
    }
    match whole_export_name(alloc, rest) {
        Ok(name) => Ok(Line::Ask(declared, name)),
        Err(unread) => {
            drop(declared);
            Err(unread)
        }
    }
}

/// The name of an export that is all of a text.
fn whole_export_name(alloc: Global, bytes: &[u8]) -> Result<Text, Unread>
    ensures { Gives (λ name. name) result (at_end (export_name_at bytes.now)) }
{
    let Some(name) = whole(export_name_at(bytes)) else {
        return Err(Unread::Form);
    };
    match Text::of(alloc, name) {
        Ok(name) => Ok(name),
        Err(_) => Err(Unread::NoMemory),
    }
}

/// `same $ID $ID`.
#[tactic(auto, unfolding(plan_reading_model::specs::LineReading::same_at))]
pub(crate) fn same_at(alloc: Global, bytes: &[u8]) -> Result<Line, Unread>
    ensures { Gives line_of result (model.same_at bytes.now) }
{
    let (left, rest) = variable_at(alloc, bytes)?;
    let Some(rest) = behind_blank(rest) else {
        drop(left);
        return Err(Unread::Form);
    };
    match whole_variable(alloc, rest) {
        Ok(right) => Ok(Line::Same(left, right)),
        Err(unread) => {
            drop(left);
            Err(unread)
        }
    }
}
