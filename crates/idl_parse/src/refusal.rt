//! The place at which tokens go wrong.
ghost use Rattle.std.specs.Prelude.{◌≡◌};
ghost use Rattle.idl_model.specs.ParseVerdicts as verdict;
ghost use Rattle.idl_parse.specs.Parsing.{RefusesFor};
ghost use Rattle.idl_trees.specs.Names.{place_of};
ghost use Rattle.idl_trees.specs.Tokens.{tokens_of, EndInFile};

use crate::error::ParseError;
use grammar_model::{Fault, Why};
use idl_trees::{Place, Token};

/// The refusal of tokens for a fault.
pub(crate) fn refusal(tokens: &[Token], fault: Fault) -> ParseError
    requires { EndInFile (tokens_of tokens.now) }
    ensures { RefusesFor result (verdict.fault_of (tokens_of tokens.now) fault.why fault.left) }
{
    let place = place_left(tokens, fault.left);
    match fault.why {
        Why::Unexpected => ParseError::Unexpected(place),
        Why::Nested => ParseError::Nested(place),
    }
}

/// The place of the first of so many tokens at the end.
fn place_left(tokens: &[Token], left: usize) -> Place
    requires { EndInFile (tokens_of tokens.now) }
    ensures { place_of result ≡ verdict.place_left (tokens_of tokens.now) left }
{
    let (_, behind) = tokens.split_at(tokens.len().saturating_sub(left));
    match behind.split_first() {
        Some((token, _)) => token.place,
        None => end_of(tokens),
    }
}

/// The place behind the last token.
fn end_of(tokens: &[Token]) -> Place
    requires { EndInFile (tokens_of tokens.now) }
    ensures { place_of result ≡ verdict.end_of (tokens_of tokens.now) }
{
    match tokens.split_last() {
        Some((last, _)) => Place {
            file: last.place.file,
            byte: last.place.byte + last.length,
        },
        None => Place { file: 0, byte: 0 },
    }
}
