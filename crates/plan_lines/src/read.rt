//! The line that a text says.
ghost use Rattle.std.specs.Prelude.{◌≡◌, IfOk, option_map};
ghost use Rattle.plan_reading_model.specs.LineReading as model;
ghost use Rattle.plan_reading_model.specs.LineReading.{line_at};
ghost use Rattle.plan_lines.specs.Lines.{line_of};
ghost use Rattle.plan_lines.specs.Reads.{Gives};
ghost use Rattle.plan_lines.specs.Statements.{statement_behind};

use crate::blocks::{behaviour_at, export_at, field_at, method_at, service_at, singleton_at};
use crate::class::{Class, split};
use crate::line::Line;
use crate::statements::{
    ask_at, call_at, drop_at, let_at, make_at, query_at, raise_at, return_at, same_at, set_at,
    when_at,
};
use crate::unread::Unread;
use crate::words::Words;
use std::alloc::Global;
use uno_base::NoMemory;

const THREAD: &[u8] = b"thread";

const END: &[u8] = b"end";

const RETURN: &[u8] = b"return";

const DISPOSE: &[u8] = b"dispose";

const BEHAVIOUR: &[u8] = b"behaviour";

const FIELD: &[u8] = b"field";

const METHOD: &[u8] = b"method";

const SERVICE: &[u8] = b"service";

const SINGLETON: &[u8] = b"singleton";

const EXPORT: &[u8] = b"export";

const LET: &[u8] = b"let";

const SET: &[u8] = b"set";

const CALL: &[u8] = b"call";

const QUERY: &[u8] = b"query";

const NEW: &[u8] = b"new";

const DROP: &[u8] = b"drop";

const WHEN: &[u8] = b"when";

const RAISE: &[u8] = b"raise";

const ASK: &[u8] = b"ask";

const SAME: &[u8] = b"same";

/// The line that a text says, in a registry whose words these are.
pub fn read_line(alloc: Global, words: &Words<'_>, text: &[u8]) -> Result<Option<Line>, NoMemory>
    ensures { IfOk result (λ line. option_map line_of line ≡ line_at words.now text.now) }
{
    match line_at(alloc, words, text) {
        Ok(line) => Ok(Some(line)),
        Err(Unread::Form) => Ok(None),
        Err(Unread::NoMemory) => Err(NoMemory),
    }
}

#[tactic(auto, unfolding(plan_reading_model::specs::LineReading::line_at))]
fn line_at(alloc: Global, words: &Words<'_>, text: &[u8]) -> Result<Line, Unread>
    ensures { Gives line_of result (model.line_at words.now text.now) }
{
    let (word, behind) = split(Class::Visible, text);
    let Some((_, rest)) = behind.split_first() else {
        return line_alone(word);
    };
    line_behind(alloc, words, word, rest)
}

/// A line of one word.
#[tactic(auto, unfolding(plan_reading_model::specs::LineReading::line_alone))]
fn line_alone(word: &[u8]) -> Result<Line, Unread>
    ensures { Gives line_of result (model.line_alone word.now) }
{
    if word == THREAD {
        return Ok(Line::Thread);
    }
    if word == END {
        return Ok(Line::End);
    }
    if word == RETURN {
        return Ok(Line::Return(None));
    }
    if word == DISPOSE {
        return Ok(Line::Dispose);
    }
    Err(Unread::Form)
}

/// A line by its first word and what stands behind the blank after it.
#[tactic(auto, unfolding(plan_reading_model::specs::LineReading::line_behind))]
fn line_behind(alloc: Global, words: &Words<'_>, word: &[u8], rest: &[u8]) -> Result<Line, Unread>
    ensures { Gives line_of result (model.line_behind words.now word.now rest.now) }
{
    if word == BEHAVIOUR {
        return behaviour_at(alloc, rest);
    }
    if word == FIELD {
        return field_at(alloc, rest);
    }
    if word == METHOD {
        return method_at(alloc, rest);
    }
    if word == SERVICE {
        return service_at(alloc, rest);
    }
    if word == SINGLETON {
        return singleton_at(alloc, rest);
    }
    if word == EXPORT {
        return export_at(alloc, rest);
    }
    statement_behind(alloc, words, word, rest)
}

/// A statement by its first word and what stands behind the blank after it.
fn statement_behind(
    alloc: Global,
    words: &Words<'_>,
    word: &[u8],
    rest: &[u8],
) -> Result<Line, Unread>
    ensures { Gives line_of result (statement_behind words.now word.now rest.now) }
{
    if word == LET {
        return let_at(alloc, words, rest);
    }
    if word == SET {
        return set_at(alloc, words, rest);
    }
    if word == CALL {
        return call_at(alloc, words, rest);
    }
    if word == QUERY {
        return query_at(alloc, rest);
    }
    if word == NEW {
        return make_at(alloc, rest);
    }
    if word == DROP {
        return drop_at(alloc, rest);
    }
    if word == WHEN {
        return when_at(alloc, words, rest);
    }
    if word == RETURN {
        return return_at(alloc, words, rest);
    }
    if word == RAISE {
        return raise_at(alloc, words, rest);
    }
    if word == ASK {
        return ask_at(alloc, rest);
    }
    if word == SAME {
        return same_at(alloc, rest);
    }
    Err(Unread::Form)
}
