//! Tokens, each with a blank behind it, and the tokens of names, types and numbers.
ghost use Rattle.std.specs.Prelude.{◌≡◌, ◌++◌, ◌∷◌, [], OnOk, codes, option_map};
ghost use Rattle.std.specs.Fmt.{decimal};
ghost use Rattle.std.specs.List.{flat_map};
ghost use Rattle.uno_entities.specs.TypeNames.{kind_of};
ghost use Rattle.registry_text_model.specs.Canonical.{absolute, kind_tokens, number_tokens, behind_colon, colons};
ghost use Rattle.idl_print.specs.Tokens.{followed, tokens_at, element_of, opening, closing, word_tokens, sign_tokens};

use std::alloc::Global;
use uno_base::NoMemory;
use uno_types::{Name, TypeName};

pub(crate) fn push_token(text: &mut Vec<u8>, token: &str) -> Result<(), NoMemory>
    ensures { OnOk result (text.new.items ≡ text.old.items ++ followed (token.now ∷ [])) }
{
    text.extend_from_slice(token.as_bytes())?;
    text.push(b' ')?;
    Ok(())
}

pub(crate) fn push_tokens(text: &mut Vec<u8>, tokens: &[&str]) -> Result<(), NoMemory>
    ensures { OnOk result (text.new.items ≡ text.old.items ++ followed (tokens_at tokens.now)) }
{
    for token in tokens {
        push_token(text, token)?;
    }
    Ok(())
}

/// A byte of a name; a point is written as `::`.
fn push_byte(text: &mut Vec<u8>, byte: u8) -> Result<(), NoMemory>
    ensures { OnOk result (text.new.items ≡ text.old.items ++ colons byte) }
{
    if byte == b'.' {
        text.extend_from_slice(b"::")?;
        return Ok(());
    }
    text.push(byte)?;
    Ok(())
}

fn push_with_colons(text: &mut Vec<u8>, bytes: &[u8]) -> Result<(), NoMemory>
    ensures { OnOk result (text.new.items ≡ text.old.items ++ flat_map colons bytes.now) }
{
    for byte in bytes {
        push_byte(text, *byte)?;
    }
    Ok(())
}

/// A name from the outermost module on.
pub(crate) fn push_absolute(text: &mut Vec<u8>, name: &str) -> Result<(), NoMemory>
    ensures { OnOk result (text.new.items ≡ text.old.items ++ followed (absolute name.now ∷ [])) }
{
    text.extend_from_slice(b"::")?;
    push_with_colons(text, name.as_bytes())?;
    text.push(b' ')?;
    Ok(())
}

#[tactic(auto, using(crate::proofs::TokenLemmas::tokens_more))]
pub(crate) fn push_behind_colon(text: &mut Vec<u8>, name: &str) -> Result<(), NoMemory>
    ensures { OnOk result (text.new.items ≡ text.old.items ++ followed (behind_colon name.now)) }
{
    push_token(text, ":")?;
    push_absolute(text, name)
}

/// The elements of a sequence.
fn element(kind: &TypeName) -> Option<&TypeName>
    ensures { option_map (λ e. kind_of e.now) result ≡ element_of (kind_of kind.now) }
{
    match kind {
        TypeName::Void => None,
        TypeName::Char => None,
        TypeName::Boolean => None,
        TypeName::Byte => None,
        TypeName::Short => None,
        TypeName::UnsignedShort => None,
        TypeName::Long => None,
        TypeName::UnsignedLong => None,
        TypeName::Hyper => None,
        TypeName::UnsignedHyper => None,
        TypeName::Str => None,
        TypeName::Kind => None,
        TypeName::Any => None,
        TypeName::Enum(_) => None,
        TypeName::Struct(_) => None,
        TypeName::Exception(_) => None,
        TypeName::Interface(_) => None,
        TypeName::Sequence(inner) => Some(inner),
    }
}

/// What stands before the type below all sequences.
fn push_opening(text: &mut Vec<u8>, kind: &TypeName) -> Result<(), NoMemory>
    ensures { OnOk result (text.new.items ≡ text.old.items ++ followed (opening (kind_of kind.now))) }
{
    let mut kind = kind;
    while let Some(inner) = element(kind) {
        push_tokens(text, &["sequence", "<"])?;
        kind = inner;
    }
    Ok(())
}

/// What stands behind it.
fn push_closing(text: &mut Vec<u8>, kind: &TypeName) -> Result<(), NoMemory>
    ensures { OnOk result (text.new.items ≡ text.old.items ++ followed (closing (kind_of kind.now))) }
{
    let mut kind = kind;
    while let Some(inner) = element(kind) {
        push_token(text, ">")?;
        kind = inner;
    }
    Ok(())
}

/// A type that is no sequence.
#[tactic(auto, unfolding(crate::specs::Tokens::word_tokens, registry_text_model::specs::Canonical::kind_tokens))]
fn push_word(text: &mut Vec<u8>, kind: &TypeName) -> Result<(), NoMemory>
    ensures { OnOk result (text.new.items ≡ text.old.items ++ followed (word_tokens (kind_of kind.now))) }
{
    match kind {
        TypeName::UnsignedShort => push_unsigned(text, "short"),
        TypeName::UnsignedLong => push_unsigned(text, "long"),
        TypeName::UnsignedHyper => push_unsigned(text, "hyper"),
        TypeName::Enum(name)
        | TypeName::Struct(name)
        | TypeName::Exception(name)
        | TypeName::Interface(name) => push_absolute(text, name.as_str()),
        TypeName::Sequence(_) => push_tokens(text, &[]),
        _ => push_token(text, kind.front()),
    }
}

#[tactic(auto, using(crate::proofs::TokenLemmas::tokens_more))]
fn push_unsigned(text: &mut Vec<u8>, word: &str) -> Result<(), NoMemory>
    ensures { OnOk result (text.new.items ≡ text.old.items ++ followed (codes "unsigned" ∷ (word.now ∷ []))) }
{
    push_token(text, "unsigned")?;
    push_token(text, word)
}

#[tactic(auto, using(crate::proofs::TokenLemmas::tokens_more, crate::proofs::TokenLemmas::kind_parts))]
pub(crate) fn push_kind(text: &mut Vec<u8>, kind: &TypeName) -> Result<(), NoMemory>
    ensures { OnOk result (text.new.items ≡ text.old.items ++ followed (kind_tokens (kind_of kind.now))) }
{
    push_opening(text, kind)?;
    push_word(text, kind.innermost())?;
    push_closing(text, kind)
}

/// The sign of a negative number.
#[tactic(auto, using(crate::proofs::TokenLemmas::no_tokens), unfolding(crate::specs::Tokens::sign_tokens))]
fn push_sign(text: &mut Vec<u8>, number: i128) -> Result<(), NoMemory>
    ensures { OnOk result (text.new.items ≡ text.old.items ++ followed (sign_tokens number)) }
{
    if number.is_negative() {
        return push_token(text, "-");
    }
    Ok(())
}

fn push_digits(alloc: Global, text: &mut Vec<u8>, number: u128) -> Result<(), NoMemory>
    ensures { OnOk result (text.new.items ≡ text.old.items ++ followed (decimal number ∷ [])) }
{
    let digits = number.to_string(alloc)?;
    push_token(text, digits.as_str())
}

/// A number; a negative one is `-` and its digits.
#[tactic(auto, using(crate::proofs::TokenLemmas::tokens_more, crate::proofs::TokenLemmas::number_parts))]
pub(crate) fn push_number(alloc: Global, text: &mut Vec<u8>, number: i128) -> Result<(), NoMemory>
    ensures { OnOk result (text.new.items ≡ text.old.items ++ followed (number_tokens number)) }
{
    push_sign(text, number)?;
    push_digits(alloc, text, number.unsigned_abs())
}
