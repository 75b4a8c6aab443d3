//! Values of one token.
ghost use Rattle.std.specs.Prelude.{◌≡◌, IfOk, codes, option_map};
ghost use Rattle.uno_model.specs.Defaults.{items_of};
ghost use Rattle.literal_model.specs.Readings.{single, numeric, number_in, word_in, string_in, named_in, cast_in, and_then, some_as, truth_of, word_as, number_named, item_of_word, item_of_number, item_in, byte_in};
ghost use Rattle.uno_model.specs.Registry.{find_entity};
ghost use Rattle.uno_model.specs.Values as plain;
ghost use Rattle.uno_entities.specs.Entities.{item_of};
ghost use Rattle.uno_entities.specs.TypeNames.{kind_of};
ghost use Rattle.uno_values.specs.Values.{plain_of};
ghost use Rattle.literal_reading.specs.Scanning.{token_of};

mod item;

use crate::token::Token;
use item::item_in;
use std::alloc::Global;
use uno_base::NoMemory;
use uno_types::{Name, Registry, TypeName};
use uno_values::{Reference, Value};

/// The value of a token at a type; sequences, structs, exceptions and any have more than one.
pub fn token_value(
    alloc: Global,
    registry: &Registry,
    kind: &TypeName,
    token: &Token,
) -> Result<Option<Value>, NoMemory>
    ensures { IfOk result (λ found. option_map plain_of found ≡ single registry.now (kind_of kind.now) (token_of token.now)) }
{
    match kind {
        TypeName::Void => Ok(void_in(token)),
        TypeName::Boolean => Ok(boolean_in(token)),
        TypeName::Str => string_in(token),
        TypeName::Kind => kind_in(alloc, token),
        TypeName::Enum(name) => enum_in(registry, name, token),
        TypeName::Interface(_) => Ok(null_in(token)),
        TypeName::Char
        | TypeName::Byte
        | TypeName::Short
        | TypeName::UnsignedShort
        | TypeName::Long
        | TypeName::UnsignedLong
        | TypeName::Hyper
        | TypeName::UnsignedHyper => Ok(number_as(kind, token)),
        TypeName::Any | TypeName::Struct(_) | TypeName::Exception(_) | TypeName::Sequence(_) => Ok(
            None,
        ),
    }
}

pub(crate) fn number_in(token: &Token) -> Option<i128>
    ensures { result ≡ number_in (token_of token.now) }
{
    match token {
        Token::Number(number) => Some(*number),
        _ => None,
    }
}

pub(crate) fn word_in(token: &Token) -> Option<&str>
    ensures { option_map (λ word. word.now) result ≡ word_in (token_of token.now) }
{
    match token {
        Token::Word(word) => Some(word.as_str()),
        _ => None,
    }
}

fn void_in(token: &Token) -> Option<Value>
    ensures { option_map plain_of result ≡ and_then (word_in (token_of token.now)) (word_as (codes "void") plain.void) }
{
    if word_in(token)? == "void" {
        return Some(Value::Void);
    }
    None
}

fn null_in(token: &Token) -> Option<Value>
    ensures { option_map plain_of result ≡ and_then (word_in (token_of token.now)) (word_as (codes "null") (plain.ref plain.null)) }
{
    if word_in(token)? == "null" {
        return Some(Value::Ref(Reference::Null));
    }
    None
}

fn boolean_in(token: &Token) -> Option<Value>
    ensures { option_map plain_of result ≡ some_as plain.boolean (and_then (word_in (token_of token.now)) truth_of) }
{
    match word_in(token)? {
        "true" => Some(Value::Boolean(true)),
        "false" => Some(Value::Boolean(false)),
        _ => None,
    }
}

/// The number of a token as a value of a type of numbers, where it is within the type's range.
fn number_as(kind: &TypeName, token: &Token) -> Option<Value>
    ensures { option_map plain_of result ≡ numeric (kind_of kind.now) (token_of token.now) }
{
    let number = number_in(token)?;
    match kind {
        TypeName::Char => Some(Value::Char(u16::try_from(number).ok()?)),
        TypeName::Byte => Some(Value::Byte(i8::try_from(number).ok()?)),
        TypeName::Short => Some(Value::Short(i16::try_from(number).ok()?)),
        TypeName::UnsignedShort => Some(Value::UnsignedShort(u16::try_from(number).ok()?)),
        TypeName::Long => Some(Value::Long(i32::try_from(number).ok()?)),
        TypeName::UnsignedLong => Some(Value::UnsignedLong(u32::try_from(number).ok()?)),
        TypeName::Hyper => Some(Value::Hyper(i64::try_from(number).ok()?)),
        TypeName::UnsignedHyper => Some(Value::UnsignedHyper(u64::try_from(number).ok()?)),
        _ => None,
    }
}

fn string_in(token: &Token) -> Result<Option<Value>, NoMemory>
    ensures { IfOk result (λ found. option_map plain_of found ≡ some_as plain.str (string_in (token_of token.now))) }
{
    match token {
        Token::String(text) => Ok(Some(Value::Str(text.copy()?))),
        _ => Ok(None),
    }
}

fn kind_in(alloc: Global, token: &Token) -> Result<Option<Value>, NoMemory>
    ensures { IfOk result (λ found. option_map plain_of found ≡ some_as plain.kind (named_in (token_of token.now))) }
{
    match token {
        Token::Named(kind) => Ok(Some(Value::Kind(kind.copy(alloc)?))),
        _ => Ok(None),
    }
}

fn enum_in(registry: &Registry, name: &Name, token: &Token) -> Result<Option<Value>, NoMemory>
    ensures { IfOk result (λ found. option_map plain_of found ≡ some_as (plain.enum name.now) (item_in (items_of (find_entity name.now registry.now)) (token_of token.now))) }
{
    match item_in(registry, name.as_str(), token) {
        Some(number) => Ok(Some(Value::Enum(name.copy()?, number))),
        None => Ok(None),
    }
}

/// The bits of a byte that is written as a signed number.
pub(crate) fn bits_in(token: &Token) -> Option<u8>
    ensures { result ≡ byte_in (token_of token.now) }
{
    Some(i8::try_from(number_in(token)?).ok()?.cast_unsigned())
}
