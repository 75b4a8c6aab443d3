//! Words of the plan, and names that are declared.
ghost use Rattle.plan_reading_model.specs.Parts as model;
ghost use Rattle.plan_lines.specs.Views.{word_front, declared_front};
ghost use Rattle.plan_lines.specs.Reads.{Gives};

use crate::line::Declared;
use crate::marks::{before_blank, behind};
use crate::names::{identifier_at, two_names};
use crate::types::type_at;
use crate::unread::{Front, Unread};
use plan_types::Word;
use std::alloc::Global;
use uno_types::Name;

/// The name that stands for the own object behind `$`.
const OWN: &str = "self";

/// `ID TYPE` with these bytes behind it.
#[tactic(auto, unfolding(plan_reading_model::specs::Parts::declared_at))]
pub(crate) fn declared_at<'a>(alloc: Global, mark: &[u8], bytes: &'a [u8]) -> Front<'a, Declared>
    ensures { Gives declared_front result (model.declared_at mark.now bytes.now) }
{
    let Some((name, rest)) = before_blank(identifier_at(bytes)) else {
        return Err(Unread::Form);
    };
    let Some((kind, rest)) = type_at(rest) else {
        return Err(Unread::Form);
    };
    let Some(rest) = behind(mark, rest) else {
        return Err(Unread::Form);
    };
    match two_names(alloc, name, kind) {
        Ok((name, kind)) => Ok((Declared { name, kind }, rest)),
        Err(_) => Err(Unread::NoMemory),
    }
}

/// A word of the plan: `$ID`, `$.ID` or `$self`.
#[tactic(auto, unfolding(plan_reading_model::specs::Parts::word_at))]
pub(crate) fn word_at(alloc: Global, bytes: &[u8]) -> Front<'_, Word>
    ensures { Gives word_front result (model.word_at bytes.now) }
{
    let Some((first, rest)) = bytes.split_first() else {
        return Err(Unread::Form);
    };
    if *first != b'$' {
        return Err(Unread::Form);
    }
    behind_dollar(alloc, rest)
}

fn behind_dollar(alloc: Global, bytes: &[u8]) -> Front<'_, Word>
    ensures { Gives word_front result (model.behind_dollar bytes.now) }
{
    let Some((first, behind)) = bytes.split_first() else {
        return Err(Unread::Form);
    };
    if *first == b'.' {
        return field_at(alloc, behind);
    }
    named_at(alloc, bytes)
}

/// A field of the own object.
fn field_at(alloc: Global, bytes: &[u8]) -> Front<'_, Word>
    ensures { Gives word_front result (model.some_word model.field_in (model.identifier_at bytes.now)) }
{
    let Some((name, rest)) = identifier_at(bytes) else {
        return Err(Unread::Form);
    };
    let Ok(name) = Name::of(alloc, name) else {
        return Err(Unread::NoMemory);
    };
    Ok((Word::Field(name), rest))
}

/// The own object, or a variable of another name.
fn named_at(alloc: Global, bytes: &[u8]) -> Front<'_, Word>
    ensures { Gives word_front result (model.some_word model.variable_in (model.identifier_at bytes.now)) }
{
    let Some((name, rest)) = identifier_at(bytes) else {
        return Err(Unread::Form);
    };
    if name == OWN {
        return Ok((Word::Own, rest));
    }
    let Ok(name) = Name::of(alloc, name) else {
        return Err(Unread::NoMemory);
    };
    Ok((Word::Variable(name), rest))
}

/// A variable that is not the own object.
#[tactic(auto, unfolding(plan_reading_model::specs::Parts::variable_at))]
pub(crate) fn variable_at(alloc: Global, bytes: &[u8]) -> Front<'_, Name>
    ensures { Gives (λ x. (x.0, x.1.now)) result (model.variable_at bytes.now) }
{
    let (word, rest) = word_at(alloc, bytes)?;
    match word {
        Word::Variable(name) => Ok((name, rest)),
        Word::Field(_) | Word::Own => Err(Unread::Form),
    }
}
