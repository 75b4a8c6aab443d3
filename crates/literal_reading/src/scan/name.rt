//! How far a text may be the front of a type's name.
ghost use Rattle.std.specs.Prelude.{◌≡◌};
ghost use Rattle.literal_model.specs.Shapes.{behind_bracket, behind_letters, behind_name, behind_plain, behind_second, behind_words, shorter};
ghost use Rattle.uno_model.specs.Names.{begins_identifier};

use crate::scan::run::{Run, split_run};
use uno_entities::begins_identifier;

/// The word in front of each unsigned type.
const UNSIGNED: &[u8] = b"unsigned ";

/// What is behind the longest front that may begin the name of a type.
#[tactic(auto, unfolding(literal_model::specs::Shapes::behind_name))]
pub(crate) fn behind_name(bytes: &[u8]) -> &[u8]
    ensures { result.now ≡ behind_name bytes.now }
{
    let mut rest = bytes;
    while let Some((first, behind)) = rest.split_first() {
        if *first != b'[' {
            return behind_plain(rest);
        }
        let Some((second, inner)) = behind.split_first() else {
            return behind;
        };
        if *second != b']' {
            return behind;
        }
        rest = inner;
    }
    rest
}

/// The words of a type that is no sequence.
fn behind_plain(bytes: &[u8]) -> &[u8]
    ensures { result.now ≡ behind_plain bytes.now }
{
    if bytes.len() < UNSIGNED.len() {
        return behind_words(bytes);
    }
    let (front, second) = bytes.split_at(UNSIGNED.len());
    if front == UNSIGNED {
        return behind_second(second);
    }
    behind_words(bytes)
}

fn behind_second(bytes: &[u8]) -> &[u8]
    ensures { result.now ≡ behind_second bytes.now }
{
    let hyper = shorter(
        behind_letters(b"long", bytes),
        behind_letters(b"hyper", bytes),
    );
    shorter(behind_letters(b"short", bytes), hyper)
}

fn shorter<'a>(left: &'a [u8], right: &'a [u8]) -> &'a [u8]
    ensures { result.now ≡ shorter left.now right.now }
{
    if left.len() <= right.len() {
        return left;
    }
    right
}

/// What is behind the letters in which the text and the word agree.
#[tactic(auto, unfolding(literal_model::specs::Shapes::behind_letters))]
fn behind_letters<'a>(word: &[u8], bytes: &'a [u8]) -> &'a [u8]
    ensures { result.now ≡ behind_letters word.now bytes.now }
{
    let mut rest = bytes;
    for letter in word {
        let Some((first, behind)) = rest.split_first() else {
            return rest;
        };
        if *first != *letter {
            return rest;
        }
        rest = behind;
    }
    rest
}

/// Words with a point between any two.
#[tactic(auto, unfolding(literal_model::specs::Shapes::behind_words))]
fn behind_words(bytes: &[u8]) -> &[u8]
    ensures { result.now ≡ behind_words bytes.now }
{
    let mut rest = bytes;
    while let Some((first, _)) = rest.split_first() {
        if !begins_identifier(*first) {
            return rest;
        }
        let (_, behind) = split_run(Run::Word, rest);
        let Some((point, next)) = behind.split_first() else {
            return behind;
        };
        if *point != b'.' {
            return behind;
        }
        rest = next;
    }
    rest
}
