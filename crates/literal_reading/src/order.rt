//! The order of tokens: a text is cut into them, and each is one that may stand at its place.
ghost use Rattle.std.specs.Prelude.{◌≡◌, ◌++◌, ◌∷◌, [], suc, length, OnOk, IfErr};
ghost use Rattle.literal_model.specs.Shapes.{value, judge, tokens_at, token_at, element_at, separator_at, closing, behind, behind_cast, opened, is_at_end};
ghost use Rattle.uno_model.specs.Sound.{IsSound};
ghost use Rattle.uno_entities.specs.TypeNames.{kind_of};
ghost use Rattle.literal_reading.specs.Scanning.{Scans, with_tokens, token_of, all_placed, bracket_of, awaited_of, outer_of};
ghost use Rattle.literal_reading.specs.declared.stop.Stop.TheVariants.{NoMemory};

use crate::scan::value_at;
use crate::stop::{Scan, Stop};
use crate::token::{Bracket, Placed, Token};
use std::alloc::Global;
use uno_types::{Registry, TypeName};

/// What may stand next: a value; a value or the end of a sequence without elements; or what stands behind a value.
#[derive(Clone, Copy)]
enum Awaited {
    Value,
    Element,
    Separator,
}

/// The tokens of a text that has the shape of a literal. A text has no more tokens than bytes, and takes memory for each of
/// them, and for each bracket that is open.
pub(crate) fn judge(alloc: Global, registry: &Registry, text: &str) -> Result<Vec<Placed>, Stop>
    requires { IsSound registry.now }
    ensures { Scans (λ tokens. all_placed tokens.items) result (judge registry.now text.now) }
{
    let mut tokens = Vec::new(alloc);
    let mut outer = Vec::new(alloc);
    push_tokens(alloc, registry, text.as_bytes(), &mut outer, &mut tokens)?;
    Ok(tokens)
}

/// The tokens of a value and of what encloses it, behind those that are there.
fn push_tokens(
    alloc: Global,
    registry: &Registry,
    bytes: &[u8],
    outer: &mut Vec<Bracket>,
    tokens: &mut Vec<Placed>,
) -> Result<(), Stop>
    requires { IsSound registry.now }
    ensures { Scans (λ _. all_placed tokens.new.items) result
        (with_tokens (all_placed tokens.old.items) (tokens_at (suc (length bytes.now)) registry.now value (outer_of outer.old.items) bytes.now)) }
{
    let mut awaited = Awaited::Value;
    let mut rest = bytes;
    for _ in 0..bytes.len() + 1 {
        if is_at_end(awaited, outer, rest) {
            return Ok(());
        }
        let (token, behind) = token_at(alloc, registry, awaited, outer, rest)?;
        awaited = behind_of(&token);
        push_token(rest.len(), token, outer, tokens)?;
        rest = behind;
    }
    Err(Stop::Bad(0))
}

/// One more token, and the brackets that are open behind it.
fn push_token(
    left: usize,
    token: Token,
    outer: &mut Vec<Bracket>,
    tokens: &mut Vec<Placed>,
) -> Result<(), Stop>
    ensures opened { OnOk result (outer_of outer.new.items ≡ opened (token_of token) (outer_of outer.old.items)) }
    ensures pushed { OnOk result (all_placed tokens.new.items ≡ all_placed tokens.old.items ++ record { left = left; token = token_of token } ∷ []) }
    ensures error { IfErr result (λ e. e ≡ NoMemory) }
{
    let opened = open_or_close(outer, &token);
    tokens.push(Placed { left, token })?;
    opened
}

fn is_at_end(awaited: Awaited, outer: &[Bracket], rest: &[u8]) -> bool
    ensures { result ≡ is_at_end (awaited_of awaited) (outer_of outer.now) rest.now }
{
    match awaited {
        Awaited::Separator => outer.is_empty() && rest.is_empty(),
        Awaited::Value | Awaited::Element => false,
    }
}

fn token_at<'a>(
    alloc: Global,
    registry: &Registry,
    awaited: Awaited,
    outer: &[Bracket],
    bytes: &'a [u8],
) -> Scan<'a, Token>
    requires { IsSound registry.now }
    ensures { Scans (λ x. (token_of x.0, x.1.now)) result (token_at registry.now (awaited_of awaited) (outer_of outer.now) bytes.now) }
{
    match awaited {
        Awaited::Value => value_at(alloc, registry, bytes),
        Awaited::Element => element_at(alloc, registry, bytes),
        Awaited::Separator => separator_at(outer, bytes),
    }
}

/// A value, or the end of a sequence without elements.
fn element_at<'a>(alloc: Global, registry: &Registry, bytes: &'a [u8]) -> Scan<'a, Token>
    requires { IsSound registry.now }
    ensures { Scans (λ x. (token_of x.0, x.1.now)) result (element_at registry.now bytes.now) }
{
    let Some((first, behind)) = bytes.split_first() else {
        return Err(Stop::Bad(0));
    };
    if *first == b']' {
        return Ok((Token::Closes(Bracket::Square), behind));
    }
    value_at(alloc, registry, bytes)
}

/// A comma or the end of what is open; behind the whole value there is neither.
fn separator_at<'a>(outer: &[Bracket], bytes: &'a [u8]) -> Scan<'a, Token>
    ensures { Scans (λ x. (token_of x.0, x.1.now)) result (separator_at (outer_of outer.now) bytes.now) }
{
    let Some((first, behind)) = bytes.split_first() else {
        return Err(Stop::Bad(0));
    };
    let Some(innermost) = outer.last() else {
        return Err(Stop::Bad(bytes.len()));
    };
    if *first == b',' {
        return Ok((Token::Comma, behind));
    }
    if *first == closing(*innermost) {
        return Ok((Token::Closes(*innermost), behind));
    }
    Err(Stop::Bad(bytes.len()))
}

fn closing(bracket: Bracket) -> u8
    ensures { result ≡ closing (bracket_of bracket) }
{
    match bracket {
        Bracket::Square => b']',
        Bracket::Curly => b'}',
    }
}

/// What may stand behind a token.
fn behind_of(token: &Token) -> Awaited
    ensures { awaited_of result ≡ behind (token_of token.now) }
{
    match token {
        Token::Opens(Bracket::Square) => Awaited::Element,
        Token::Opens(Bracket::Curly) => Awaited::Value,
        Token::Comma => Awaited::Value,
        Token::Cast(kind) => behind_cast(kind),
        _ => Awaited::Separator,
    }
}

/// An any of void has no value behind the type.
fn behind_cast(kind: &TypeName) -> Awaited
    ensures { awaited_of result ≡ behind_cast (kind_of kind.now) }
{
    match kind {
        TypeName::Void => Awaited::Separator,
        _ => Awaited::Value,
    }
}

/// The brackets that are open behind a token.
fn open_or_close(outer: &mut Vec<Bracket>, token: &Token) -> Result<(), Stop>
    ensures opened { OnOk result (outer_of outer.new.items ≡ opened (token_of token.now) (outer_of outer.old.items)) }
    ensures error { IfErr result (λ e. e ≡ NoMemory) }
{
    match token {
        Token::Opens(bracket) => {
            outer.push(*bracket)?;
            Ok(())
        }
        Token::Closes(_) => {
            outer.pop();
            Ok(())
        }
        _ => Ok(()),
    }
}
