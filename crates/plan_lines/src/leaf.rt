//! Terms that hold no others: numbers, words, texts, types, and words of the plan.
ghost use Rattle.std.specs.Prelude.{◌≡◌, Ok, Some, false};
ghost use Rattle.literal_model.specs.Literals as token;
ghost use Rattle.literal_model.specs.Shapes.{number_at, string_at};
ghost use Rattle.plan_model.specs.Lines as plain;
ghost use Rattle.plan_reading_model.specs.Parts.{type_at, word_at, on_some};
ghost use Rattle.plan_reading_model.specs.TermReading as model;
ghost use Rattle.plan_lines.specs.Views.{piece_front, as_pieces, alone};
ghost use Rattle.plan_lines.specs.Leaves.{leaf_at};
ghost use Rattle.plan_lines.specs.Pieces.{piece_of};
ghost use Rattle.plan_lines.specs.Reads.{Gives};

use crate::marks::behind;
use crate::parts::word_at;
use crate::piece::Piece;
use crate::types::type_at;
use crate::unread::{Front, Unread};
use crate::words::Words;
use literal_reading::{Stop, Token, number_at, string_at};
use std::alloc::Global;
use uno_types::{Name, Text};

/// What stands behind a type that is a value.
const MARK: &[u8] = b">";

/// A term that holds no other and is no word of a literal, by its first byte.
#[tactic(auto, unfolding(crate::specs::Leaves::leaf_at))]
pub(crate) fn leaf_at(alloc: Global, bytes: &[u8]) -> Front<'_, Piece>
    ensures { Gives piece_front result (as_pieces (leaf_at bytes.now)) }
{
    let Some((first, rest)) = bytes.split_first() else {
        return Err(Unread::Form);
    };
    if *first == b'"' {
        return text_leaf(alloc, rest);
    }
    if *first == b'<' {
        return type_leaf(alloc, rest);
    }
    if *first == b'$' {
        return plan_word(alloc, bytes);
    }
    number_leaf(bytes)
}

/// A number.
fn number_leaf(bytes: &[u8]) -> Front<'_, Piece>
    ensures { Gives piece_front result (as_pieces (model.leaf_of (number_at bytes.now))) }
{
    match number_at(bytes) {
        Ok((token, rest)) => Ok((Piece::Leaf(token), rest)),
        Err(Stop::NoMemory) => Err(Unread::NoMemory),
        Err(Stop::Bad(_)) => Err(Unread::Form),
    }
}

/// A text behind its first quote.
fn text_leaf(alloc: Global, bytes: &[u8]) -> Front<'_, Piece>
    ensures { Gives piece_front result (as_pieces (model.text_of (string_at false bytes.now))) }
{
    match string_at(alloc, bytes) {
        Ok((text, rest)) => text_before(alloc, &text, rest),
        Err(Stop::NoMemory) => Err(Unread::NoMemory),
        Err(Stop::Bad(_)) => Err(Unread::Form),
    }
}

/// The text of these bytes, where they are UTF-8, and what stands behind it.
fn text_before<'a>(alloc: Global, bytes: &[u8], rest: &'a [u8]) -> Front<'a, Piece>
    ensures { Gives piece_front result (as_pieces (model.text_of (Ok (bytes.now, rest.now)))) }
{
    let Ok(text) = str::from_utf8(bytes) else {
        return Err(Unread::Form);
    };
    let text = Text::of(alloc, text)?;
    Ok((text_piece(text), rest))
}

fn text_piece(text: Text) -> Piece
    ensures { alone (piece_of result) ≡ Some (plain.leaf (token.string text)) }
{
    Piece::Leaf(Token::String(text))
}

/// A word that some literal has.
pub(crate) fn known_word<'a>(
    alloc: Global,
    words: &Words<'_>,
    word: &str,
    rest: &'a [u8],
) -> Front<'a, Piece>
    ensures { Gives piece_front result (as_pieces (model.known_word words.now word.now rest.now)) }
{
    if !words.is_known(word) {
        return Err(Unread::Form);
    }
    let Ok(word) = Name::of(alloc, word) else {
        return Err(Unread::NoMemory);
    };
    Ok((Piece::Leaf(Token::Word(word)), rest))
}

/// A word of the plan.
fn plan_word(alloc: Global, bytes: &[u8]) -> Front<'_, Piece>
    ensures { Gives piece_front result (as_pieces (model.some_plan_word (word_at bytes.now))) }
{
    let (word, rest) = word_at(alloc, bytes)?;
    Ok((Piece::Word(word), rest))
}

/// A type that is a value, behind its first mark.
fn type_leaf(alloc: Global, bytes: &[u8]) -> Front<'_, Piece>
    ensures { Gives piece_front result (as_pieces (on_some (type_at bytes.now) model.type_value)) }
{
    let Some((kind, rest)) = type_at(bytes) else {
        return Err(Unread::Form);
    };
    let Some(rest) = behind(MARK, rest) else {
        return Err(Unread::Form);
    };
    let Ok(kind) = Name::of(alloc, kind) else {
        return Err(Unread::NoMemory);
    };
    Ok((Piece::Type(kind), rest))
}
