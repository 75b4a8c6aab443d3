//! The value of a text.
ghost use Rattle.std.specs.Prelude.{◌≡◌, ◌<◌, ◌-◌, ◌^◌, IfOk, MatchResult};
ghost use Rattle.literal_model.specs.Literals.{IsLiteral};
ghost use Rattle.uno_model.specs.Sound.{IsSound};
ghost use Rattle.uno_model.specs.Spellable.{IsSpellable};
ghost use Rattle.uno_model.specs.Values.{Plain};
ghost use Rattle.uno_entities.specs.TypeNames.{kind_of};
ghost use Rattle.uno_values.specs.Values.{plain_of};
ghost use Rattle.literal_model.specs.Verdicts.{verdict, typed_verdict, verdict_at_end};
ghost use Rattle.literal_reading.specs.Reading.{Reads};
ghost use Rattle.literal_reading.specs.Scanning.{all_placed};

use crate::order::judge;
use crate::stop::Stop;
use crate::token::Placed;
use crate::typed::value_within;
use std::alloc::Global;
use uno_types::{Registry, TypeName};
use uno_values::Value;

/// Why a text is not read, with the place of a byte.
#[derive(Clone, Copy, Debug, PartialEq, Eq)]
pub enum TextError {
    NoMemory,
    /// The first byte at which no literal's shape goes on.
    BadLiteral(u32),
    /// The front of the first value that is none of its type.
    WrongType(u32),
}

/// How deep values are nested at most.
const LEVELS: u32 = 1024;

/// The value of a text at a type. The shape is judged first, over the whole text and without asking the type. Values that are
/// nested more than 1,024 deep want more of the stack than this takes, and a text of 2^32 bytes or more has places that no answer
/// can name: for both the answer is want of memory.
pub fn read_value(
    alloc: Global,
    registry: &Registry,
    text: &str,
    kind: &TypeName,
) -> Result<Value, TextError>
    requires { IsSound registry.now }
    ensures found { IfOk result (λ v. IsLiteral registry.now (kind_of kind.now) text.now (plain_of v)) }
    ensures only { (w : Plain) → IsLiteral registry.now (kind_of kind.now) text.now w → IsSpellable w → MatchResult result (λ v. plain_of v ≡ w) (λ e. e ≡ TextError.NoMemory) }
    ensures refused { Reads plain_of result (verdict registry.now (kind_of kind.now) text.now) }
{
    read_text(alloc, registry, text, kind)
}

fn read_text(
    alloc: Global,
    registry: &Registry,
    text: &str,
    kind: &TypeName,
) -> Result<Value, TextError>
    requires { IsSound registry.now }
    ensures { Reads plain_of result (verdict registry.now (kind_of kind.now) text.now) }
{
    let length = text.len();
    if length > u32::MAX as usize {
        return Err(TextError::NoMemory);
    }
    let tokens = match judge(alloc, registry, text) {
        Ok(tokens) => tokens,
        Err(Stop::NoMemory) => return Err(TextError::NoMemory),
        Err(Stop::Bad(left)) => return Err(TextError::BadLiteral(place_of(length, left))),
    };
    value_of(alloc, registry, length, kind, &tokens)
}

/// The place of a byte of a text, where so many are left from it on.
fn place_of(length: usize, left: usize) -> u32
    requires { length < 2 ^ 32 }
    ensures { result ≡ length - left }
{
    length.saturating_sub(left) as u32
}

/// The value of all tokens of a text of that length.
fn value_of(
    alloc: Global,
    registry: &Registry,
    length: usize,
    kind: &TypeName,
    tokens: &[Placed],
) -> Result<Value, TextError>
    requires { length < 2 ^ 32 }
    ensures { Reads plain_of result (typed_verdict registry.now length (kind_of kind.now) (all_placed tokens.now)) }
{
    match value_within(alloc, registry, LEVELS, kind, tokens) {
        Ok((value, rest)) => value_at_end(length, value, rest),
        Err(Stop::NoMemory) => Err(TextError::NoMemory),
        Err(Stop::Bad(left)) => Err(TextError::WrongType(place_of(length, left))),
    }
}

/// A value behind which no token stands.
fn value_at_end(length: usize, value: Value, rest: &[Placed]) -> Result<Value, TextError>
    requires { length < 2 ^ 32 }
    ensures { Reads plain_of result (verdict_at_end length (plain_of value, all_placed rest.now)) }
{
    match rest.first() {
        None => Ok(value),
        Some(next) => {
            drop(value);
            Err(TextError::WrongType(place_of(length, next.left)))
        }
    }
}
