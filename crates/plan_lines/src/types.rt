//! Types at the front of a text, as they are written.
ghost use Rattle.std.specs.Prelude.{◌≡◌, ◌++◌, ℕ, List, MatchOption, option_map, codes};
ghost use Rattle.std.specs.Str.{bytes_eq};
ghost use Rattle.plan_model.specs.Forms.{is_type_text, is_plain_type};
ghost use Rattle.plan_reading_model.specs.Parts as model;
ghost use Rattle.plan_lines.specs.Reads.{both};
ghost use Rattle.plan_lines.specs.Runs.{second_at};

use crate::class::{Class, as_text, split};
use crate::names::is_path;

/// The first word of a type that may have a second one.
const UNSIGNED: &[u8] = b"unsigned";

/// The brackets in front of a sequence.
const BRACKETS: &str = "[]";

/// A type.
#[tactic(auto, unfolding(plan_reading_model::specs::Parts::type_at))]
pub(crate) fn type_at(bytes: &[u8]) -> Option<(&str, &[u8])>
    ensures { option_map both result ≡ model.type_at bytes.now }
{
    let (kind, rest) = type_run(bytes);
    if !is_type(kind) {
        return None;
    }
    Some((kind, rest))
}

/// The word or the two words of a type.
fn type_run(bytes: &[u8]) -> (&str, &[u8])
    ensures { both result ≡ model.type_words (model.run model.is_type_byte bytes.now) }
{
    let (run, rest) = split(Class::Type, bytes);
    if !is_unsigned(run) {
        return (as_text(run), rest);
    }
    let Some((second, behind)) = second_at(rest) else {
        return (as_text(run), rest);
    };
    let (words, _) = bytes.split_at(run.len() + 1 + second.len());
    (as_text(words), behind)
}

/// Whether the word behind the brackets is `unsigned`.
#[tactic(auto, unfolding(plan_reading_model::specs::Parts::behind_brackets))]
fn is_unsigned(word: &[u8]) -> bool
    ensures { result ≡ bytes_eq (model.behind_brackets word.now) (codes "unsigned") }
{
    let (_, behind) = split(Class::Bracket, word);
    behind == UNSIGNED
}

/// The second word of an unsigned type behind a blank, where it stands there.
#[tactic(auto, unfolding(crate::specs::Runs::second_at))]
fn second_at(bytes: &[u8]) -> Option<(&str, &[u8])>
    ensures { option_map both result ≡ second_at bytes.now }
{
    let (first, behind) = bytes.split_first()?;
    if *first != b' ' {
        return None;
    }
    let (run, rest) = split(Class::Word, behind);
    let word = as_text(run);
    if !is_second_word(word) {
        return None;
    }
    Some((word, rest))
}

fn is_second_word(word: &str) -> bool
    ensures { result ≡ model.is_second_word word.now }
{
    matches!(word, "short" | "long" | "hyper")
}

/// Whether it is `[]` any number of times, and the name of another type.
fn is_type(kind: &str) -> bool
    ensures { result ≡ is_type_text kind.now }
{
    let mut rest = kind;
    while let Some(behind) = behind_brackets(rest) {
        rest = behind;
    }
    is_plain_type(rest)
}

fn behind_brackets(kind: &str) -> Option<&str>
    ensures { MatchOption result ((rest : List ℕ) → kind.now ≡ codes "[]" ++ rest → ⊥) (λ behind. kind.now ≡ codes "[]" ++ behind.now) }
{
    kind.strip_prefix(BRACKETS)
}

fn is_plain_type(kind: &str) -> bool
    ensures { result ≡ is_plain_type kind.now }
{
    is_path(kind) || matches!(kind, "unsigned short" | "unsigned long" | "unsigned hyper")
}
