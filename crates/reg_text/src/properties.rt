//! The lines of a service of the old form.
ghost use Rattle.std.specs.Prelude.{◌≡◌, ◌++◌, ◌∷◌, [], map, OnOk};
ghost use Rattle.std.specs.List.{flat_map};
ghost use Rattle.uno_model.specs.Entities as plain;
ghost use Rattle.uno_entities.specs.Entities.{part_of};
ghost use Rattle.uno_entities.specs.TypeNames.{kind_of};
ghost use Rattle.registry_text_model.specs.Lines.{spaced, text_of, flag_words, joined_by_commas, face_word, subservice_word, part_line};
ghost use Rattle.reg_text.specs.Words.{words_at};

use crate::flags::flag_words;
use crate::line::{push_named, push_type, push_word};
use std::alloc::Global;
use uno_base::NoMemory;
use uno_types::{Flags, Part, TypeName};

#[tactic(auto, unfolding(registry_text_model::specs::Lines::face_word))]
fn face_word(optional: bool) -> &'static str
    ensures { result.now ≡ face_word optional }
{
    if optional {
        "optinterface"
    } else {
        "interface"
    }
}

#[tactic(auto, unfolding(registry_text_model::specs::Lines::subservice_word))]
fn subservice_word(optional: bool) -> &'static str
    ensures { result.now ≡ subservice_word optional }
{
    if optional { "optservice" } else { "service" }
}

/// The words with a comma between any two, or `-`, and a blank.
#[tactic(auto, unfolding(registry_text_model::specs::Lines::joined_by_commas))]
fn push_joined(text: &mut Vec<u8>, words: &[&str]) -> Result<(), NoMemory>
    ensures { OnOk result (text.new.items ≡ text.old.items ++ spaced (joined_by_commas (words_at words.now)) []) }
{
    let [first, others @ ..] = words else {
        return push_word(text, "-");
    };
    push_first_and_others(text, first, others)
}

fn push_first_and_others(text: &mut Vec<u8>, first: &str, others: &[&str]) -> Result<(), NoMemory>
    ensures { OnOk result (text.new.items ≡ text.old.items ++ spaced (first.now ++ flat_map (λ w. 44 ∷ w) (words_at others.now)) []) }
{
    text.extend_from_slice(first.as_bytes())?;
    push_behind_commas(text, others)?;
    text.push(b' ')?;
    Ok(())
}

fn push_behind_commas(text: &mut Vec<u8>, words: &[&str]) -> Result<(), NoMemory>
    ensures { OnOk result (text.new.items ≡ text.old.items ++ flat_map (λ w. 44 ∷ w) (words_at words.now)) }
{
    for word in words {
        push_behind_comma(text, word)?;
    }
    Ok(())
}

fn push_behind_comma(text: &mut Vec<u8>, word: &str) -> Result<(), NoMemory>
    ensures { OnOk result (text.new.items ≡ text.old.items ++ 44 ∷ word.now) }
{
    text.push(b',')?;
    text.extend_from_slice(word.as_bytes())?;
    Ok(())
}

fn push_flags(alloc: Global, text: &mut Vec<u8>, flags: &Flags) -> Result<(), NoMemory>
    ensures { OnOk result (text.new.items ≡ text.old.items ++ spaced (joined_by_commas (flag_words flags.now)) []) }
{
    let words = flag_words(alloc, flags)?;
    push_joined(text, &words)
}

#[tactic(auto, using(crate::proofs::TextLemmas::spaced_line))]
fn push_property(
    alloc: Global,
    text: &mut Vec<u8>,
    name: &str,
    flags: &Flags,
    kind: &TypeName,
) -> Result<(), NoMemory>
    ensures { OnOk result (text.new.items ≡ text.old.items ++ text_of (part_line (plain.property name.now flags.now (kind_of kind.now)) ∷ [])) }
{
    push_word(text, "property")?;
    push_word(text, name)?;
    push_flags(alloc, text, flags)?;
    push_type(text, kind)
}

fn push_part(alloc: Global, text: &mut Vec<u8>, part: &Part) -> Result<(), NoMemory>
    ensures { OnOk result (text.new.items ≡ text.old.items ++ text_of (part_line (part_of part.now) ∷ [])) }
{
    match part {
        Part::Interface { optional, name } => {
            push_named(text, face_word(*optional), name.as_str())
        }
        Part::Service { optional, name } => {
            push_named(text, subservice_word(*optional), name.as_str())
        }
        Part::Property { name, flags, kind } => {
            push_property(alloc, text, name.as_str(), flags, kind)
        }
    }
}

pub(crate) fn push_parts(alloc: Global, text: &mut Vec<u8>, parts: &[Part]) -> Result<(), NoMemory>
    ensures { OnOk result (text.new.items ≡ text.old.items ++ text_of (map part_line (map part_of parts.now))) }
{
    for part in parts {
        push_part(alloc, text, part)?;
    }
    Ok(())
}
