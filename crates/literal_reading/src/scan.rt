//! The front of a value in a text: a token, and the text behind it.
ghost use Rattle.std.specs.Prelude.{◌≡◌, ◌≤◌, ◌^◌, length};
ghost use Rattle.uno_model.specs.Names.{begins_identifier};
ghost use Rattle.literal_model.specs.Literals.{string, named, cast};
ghost use Rattle.literal_model.specs.Shapes.{value_at, number_at, word_at, type_at, string_at, cast_of, is_known_word, on_ok};
ghost use Rattle.uno_model.specs.Sound.{IsSound};
ghost use Rattle.uno_entities.specs.TypeNames.{kind_of};
ghost use Rattle.literal_reading.specs.Scanning.{Scans, token_of, test_of};
ghost use Rattle.literal_reading.specs.declared.scan.run.Run.TheVariants as run;

mod name;
mod number;
mod run;
mod string;
mod types;
mod words;

use crate::stop::{Scan, Stop};
use crate::token::{Bracket, Token};
pub use number::number_at;
pub use run::{Run, split_run};
use std::alloc::Global;
pub use string::string_at;
use string::text_of;
pub use types::as_text;
use types::type_at;
use uno_entities::begins_identifier;
use uno_types::{Registry, TypeName};
pub use words::is_known_word;
use words::word_at;

/// The first token of a value, chosen by its first byte.
#[tactic(auto, unfolding(literal_model::specs::Shapes::value_at))]
pub(crate) fn value_at<'a>(alloc: Global, registry: &Registry, bytes: &'a [u8]) -> Scan<'a, Token>
    requires { IsSound registry.now }
    ensures { Scans (λ x. (token_of x.0, x.1.now)) result (value_at registry.now bytes.now) }
{
    let Some((first, behind)) = bytes.split_first() else {
        return Err(Stop::Bad(0));
    };
    if *first == b'[' {
        return Ok((Token::Opens(Bracket::Square), behind));
    }
    if *first == b'{' {
        return Ok((Token::Opens(Bracket::Curly), behind));
    }
    if *first == b'"' {
        let (text, rest) = string_at(alloc, behind)?;
        return Ok((Token::String(text_of(alloc, &text)?), rest));
    }
    if *first == b'<' {
        let (kind, rest) = type_at(alloc, registry, b'>', behind)?;
        return Ok((Token::Named(kind), rest));
    }
    if *first == b'(' {
        let (kind, rest) = type_at(alloc, registry, b')', behind)?;
        return cast_of(behind.len(), kind, rest);
    }
    if begins_identifier(*first) {
        return word_at(alloc, registry, bytes);
    }
    number_at(bytes)
}

/// `any` is no type of a value that an any holds.
fn cast_of<'a>(left: usize, kind: TypeName, rest: &'a [u8]) -> Scan<'a, Token>
    ensures { Scans (λ x. (token_of x.0, x.1.now)) result (cast_of left (kind_of kind, rest.now)) }
{
    if matches!(&kind, TypeName::Any) {
        return Err(Stop::Bad(left));
    }
    Ok((Token::Cast(kind), rest))
}
