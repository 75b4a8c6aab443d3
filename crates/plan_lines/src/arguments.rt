//! The arguments of a call.
ghost use Rattle.std.specs.Prelude.{◌≡◌, map, length};
ghost use Rattle.plan_reading_model.specs.LineReading as model;
ghost use Rattle.plan_reading_model.specs.Parts.{at_end};
ghost use Rattle.plan_reading_model.specs.TermReading.{term_at, terms_on};
ghost use Rattle.plan_lines.specs.Fronts.{behind_fronts};
ghost use Rattle.plan_lines.specs.Reads.{Gives};
ghost use Rattle.plan_lines.specs.Terms.{term_of, terms_of};

use crate::term::Term;
use crate::terms::term_at;
use crate::unread::{Front, Unread};
use crate::words::Words;
use std::alloc::Global;

/// The arguments up to the parenthesis that closes, with nothing behind it.
pub(crate) fn arguments_at(
    alloc: Global,
    words: &Words<'_>,
    bytes: &[u8],
) -> Result<Vec<Term>, Unread>
    ensures { Gives (λ terms. map term_of terms.items) result (at_end (model.arguments_at words.now bytes.now)) }
{
    let (arguments, rest) = arguments_front(alloc, words, bytes)?;
    if !rest.is_empty() {
        drop(arguments);
        return Err(Unread::Form);
    }
    Ok(arguments)
}

/// The arguments up to the parenthesis that closes, and what stands behind it.
#[tactic(auto, unfolding(plan_reading_model::specs::LineReading::arguments_at))]
fn arguments_front<'a>(alloc: Global, words: &Words<'_>, bytes: &'a [u8]) -> Front<'a, Vec<Term>>
    ensures { Gives (λ x. (map term_of x.0.items, x.1.now)) result (model.arguments_at words.now bytes.now) }
{
    let Some((first, rest)) = bytes.split_first() else {
        return Err(Unread::Form);
    };
    let mut arguments = Vec::new(alloc);
    if *first == b')' {
        return Ok((arguments, rest));
    }
    match push_arguments(alloc, words, bytes, &mut arguments) {
        Ok(rest) => Ok((arguments, rest)),
        Err(unread) => {
            drop(arguments);
            Err(unread)
        }
    }
}

/// The arguments from the first one on, behind those that are there. There are no more of them than bytes.
fn push_arguments<'a>(
    alloc: Global,
    words: &Words<'_>,
    bytes: &'a [u8],
    arguments: &mut Vec<Term>,
) -> Result<&'a [u8], Unread>
    ensures { Gives (λ rest. (terms_of arguments.new.items, rest.now)) result
        (behind_fronts (map term_of arguments.old.items) (terms_on (length bytes.now) (term_at words.now) 41 bytes.now)) }
{
    let mut rest = bytes;
    for _ in 0..bytes.len() {
        let (argument, behind) = term_at(alloc, words, rest)?;
        arguments.push(argument)?;
        let Some((first, next)) = behind.split_first() else {
            return Err(Unread::Form);
        };
        if *first == b')' {
            return Ok(next);
        }
        if *first != b',' {
            return Err(Unread::Form);
        }
        rest = next;
    }
    Err(Unread::Form)
}
