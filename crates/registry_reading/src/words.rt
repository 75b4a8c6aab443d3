//! The words of a line.
ghost use Rattle.std.specs.Prelude.{◌≡◌, ◌<◌, ◌++◌, ℕ, List, MatchOption, option_map};
ghost use Rattle.registry_reading_model.specs.Words as model;
ghost use Rattle.registry_reading.specs.Views.{both, one};

use uno_types::{Flags, Way, is_entity_name, is_identifier};

/// What stands before the first byte of a mark, and behind it.
#[tactic(auto, using(crate::proofs::SplitLemmas::split_is))]
fn split_at(text: &str, mark: char) -> Option<(&str, &str)>
    requires { mark < 128 }
    ensures { option_map both result ≡ model.split_at mark text.now }
{
    text.split_once(mark)
}

/// A word, and what stands behind the blank after it.
pub(crate) fn word(text: &str) -> Option<(&str, &str)>
    ensures { option_map both result ≡ model.word_of text.now }
{
    split_at(text, ' ')
}

/// An identifier, and what stands behind the blank after it.
pub(crate) fn identifier(text: &str) -> Option<(&str, &str)>
    ensures { option_map both result ≡ model.identifier_of text.now }
{
    let (name, behind) = word(text)?;
    if !is_identifier(name) {
        return None;
    }
    Some((name, behind))
}

pub(crate) fn stripped<'a>(text: &'a str, word: &str) -> Option<&'a str>
    ensures { MatchOption result ((rest : List ℕ) → text.now ≡ word.now ++ rest → ⊥) (λ behind. text.now ≡ word.now ++ behind.now) }
{
    text.strip_prefix(word)
}

/// What stands behind a word in front.
#[tactic(auto, using(crate::proofs::SplitLemmas::behind_is))]
pub(crate) fn behind<'a>(text: &'a str, word: &str) -> Option<&'a str>
    ensures { option_map one result ≡ model.behind word.now text.now }
{
    stripped(text, word)
}

#[tactic(auto, unfolding(registry_reading_model::specs::Words::way_of))]
pub(crate) fn way(word: &str) -> Option<Way>
    ensures { result ≡ model.way_of word.now }
{
    match word {
        "in" => Some(Way::Into),
        "out" => Some(Way::Out),
        "inout" => Some(Way::Both),
        _ => None,
    }
}

#[tactic(auto, unfolding(registry_reading_model::specs::Words::access_of))]
pub(crate) fn is_read_only(word: &str) -> Option<bool>
    ensures { result ≡ model.access_of word.now }
{
    match word {
        "ro" => Some(true),
        "rw" => Some(false),
        _ => None,
    }
}

/// The flags that are left of a word: one is taken where it is the first, with the comma behind it.
#[derive(Drop)]
struct FlagsLeft<'a> {
    left: Option<&'a str>,
}

impl<'a> FlagsLeft<'a> {
    fn take(&mut self, flag: &str) -> bool
        ensures { (result, option_map one self.new.left) ≡ model.take_flag flag.now (option_map one self.old.left) }
    {
        let Some(left) = self.left else { return false };
        let (first, behind) = first_flag(left);
        if first != flag {
            return false;
        }
        self.left = behind;
        true
    }
}

/// The first flag of some, and what stands behind its comma.
fn first_flag(left: &str) -> (&str, Option<&str>)
    ensures { (result.0.now, option_map one result.1) ≡ model.first_flag (model.split_at 44 left.now) left.now }
{
    match split_at(left, ',') {
        Some((first, behind)) => (first, Some(behind)),
        None => (left, None),
    }
}

/// Flags in the order of the grammar with a comma between any two, or `-`.
#[tactic(auto, unfolding(registry_reading_model::specs::Words::flags_of))]
pub(crate) fn flags(word: &str) -> Option<Flags>
    ensures { result ≡ model.flags_of word.now }
{
    if word == "-" {
        let mut none = FlagsLeft { left: None };
        return all_taken(&mut none);
    }
    let mut left = FlagsLeft { left: Some(word) };
    all_taken(&mut left)
}

/// The flags, if nothing is left behind them.
fn all_taken(left: &mut FlagsLeft<'_>) -> Option<Flags>
    ensures { result ≡ model.all_taken (model.flags_left (option_map one left.old.left)) }
{
    let flags = take_flags(left);
    if left.left.is_some() {
        return None;
    }
    Some(flags)
}

#[tactic(auto, unfolding(registry_reading_model::specs::Words::flags_left))]
fn take_flags(left: &mut FlagsLeft<'_>) -> Flags
    ensures { (result, option_map one left.new.left) ≡ model.flags_left (option_map one left.old.left) }
{
    let bound = left.take("bound");
    let constrained = left.take("constrained");
    let maybeambiguous = left.take("maybeambiguous");
    let maybedefault = left.take("maybedefault");
    let maybevoid = left.take("maybevoid");
    let optional = left.take("optional");
    let readonly = left.take("readonly");
    let removable = left.take("removable");
    let transient = left.take("transient");
    Flags {
        bound,
        constrained,
        maybeambiguous,
        maybedefault,
        maybevoid,
        optional,
        readonly,
        removable,
        transient,
    }
}
