//! Words and lines, behind those that a text has.
ghost use Rattle.std.specs.Prelude.{◌≡◌, ◌++◌, ◌∷◌, [], map, OnOk};
ghost use Rattle.uno_model.specs.Kinds.{name_of};
ghost use Rattle.uno_entities.specs.TypeNames.{kind_of};
ghost use Rattle.registry_text_model.specs.Lines.{spaced, text_of, name_lines, numeral};

use std::alloc::Global;
use uno_base::NoMemory;
use uno_types::{Name, TypeName};

/// A word and a blank.
pub(crate) fn push_word(text: &mut Vec<u8>, word: &str) -> Result<(), NoMemory>
    ensures { OnOk result (text.new.items ≡ text.old.items ++ spaced word.now []) }
{
    text.extend_from_slice(word.as_bytes())?;
    text.push(b' ')?;
    Ok(())
}

/// The last word of a line.
pub(crate) fn push_last(text: &mut Vec<u8>, word: &str) -> Result<(), NoMemory>
    ensures { OnOk result (text.new.items ≡ text.old.items ++ text_of (word.now ∷ [])) }
{
    text.extend_from_slice(word.as_bytes())?;
    text.push(b'\n')?;
    Ok(())
}

/// A type, which is always last.
pub(crate) fn push_type(text: &mut Vec<u8>, kind: &TypeName) -> Result<(), NoMemory>
    ensures { OnOk result (text.new.items ≡ text.old.items ++ text_of (name_of (kind_of kind.now) ∷ [])) }
{
    kind.push_name(text)?;
    text.push(b'\n')?;
    Ok(())
}

/// A number and a blank.
#[tactic(auto, using(registry_text_model::proofs::NumeralLaws::numeral_is))]
pub(crate) fn push_number(alloc: Global, text: &mut Vec<u8>, number: i128) -> Result<(), NoMemory>
    ensures { OnOk result (text.new.items ≡ text.old.items ++ spaced (numeral number) []) }
{
    let digits = number.to_string(alloc)?;
    push_word(text, digits.as_str())
}

/// A number that is last.
#[tactic(auto, using(registry_text_model::proofs::NumeralLaws::numeral_is))]
pub(crate) fn push_last_number(
    alloc: Global,
    text: &mut Vec<u8>,
    number: i32,
) -> Result<(), NoMemory>
    ensures { OnOk result (text.new.items ≡ text.old.items ++ text_of (numeral number ∷ [])) }
{
    let digits = number.to_string(alloc)?;
    push_last(text, digits.as_str())
}

/// A word and a name.
#[tactic(auto, using(crate::proofs::TextLemmas::spaced_line))]
pub(crate) fn push_named(text: &mut Vec<u8>, word: &str, name: &str) -> Result<(), NoMemory>
    ensures { OnOk result (text.new.items ≡ text.old.items ++ text_of (spaced word.now name.now ∷ [])) }
{
    push_word(text, word)?;
    push_last(text, name)
}

/// A line for each name, behind the word.
pub(crate) fn push_names(text: &mut Vec<u8>, word: &str, names: &[Name]) -> Result<(), NoMemory>
    ensures { OnOk result (text.new.items ≡ text.old.items ++ text_of (name_lines word.now names.now)) }
{
    for name in names {
        push_named(text, word, name.as_str())?;
    }
    Ok(())
}
