//! The tokens that stand round values: brackets and commas.
ghost use Rattle.std.specs.Prelude.{◌≡◌};
ghost use Rattle.literal_model.specs.Readings.{expect, comma_at, left_at};
ghost use Rattle.literal_reading.specs.Scanning.{token_of, all_placed};
ghost use Rattle.literal_reading.specs.Typing.{Gives, mark_test};

use crate::stop::Stop;
use crate::token::{Bracket, Placed, Token};

/// A bracket or a comma.
#[derive(Clone, Copy)]
pub(crate) enum Mark {
    Comma,
    OpensSquare,
    ClosesSquare,
    OpensCurly,
    ClosesCurly,
}

pub(crate) fn is_mark(mark: Mark, token: &Token) -> bool
    ensures { result ≡ mark_test mark (token_of token.now) }
{
    match mark {
        Mark::Comma => matches!(token, Token::Comma),
        Mark::OpensSquare => matches!(token, Token::Opens(Bracket::Square)),
        Mark::ClosesSquare => matches!(token, Token::Closes(Bracket::Square)),
        Mark::OpensCurly => matches!(token, Token::Opens(Bracket::Curly)),
        Mark::ClosesCurly => matches!(token, Token::Closes(Bracket::Curly)),
    }
}

/// What is behind the mark; another token says that the value with so many bytes left at its front is none of its type.
pub(crate) fn expect<'a>(
    left: usize,
    mark: Mark,
    tokens: &'a [Placed],
) -> Result<&'a [Placed], Stop>
    ensures { Gives (λ rest. all_placed rest.now) result (expect left (mark_test mark) (all_placed tokens.now)) }
{
    let Some((first, rest)) = tokens.split_first() else {
        return Err(Stop::Bad(left));
    };
    if !is_mark(mark, &first.token) {
        return Err(Stop::Bad(left));
    }
    Ok(rest)
}

/// What is behind the comma before a member that is not the first.
pub(crate) fn comma_at<'a>(
    is_first: bool,
    left: usize,
    tokens: &'a [Placed],
) -> Result<&'a [Placed], Stop>
    ensures { Gives (λ rest. all_placed rest.now) result (comma_at is_first left (all_placed tokens.now)) }
{
    if is_first {
        return Ok(tokens);
    }
    expect(left, Mark::Comma, tokens)
}

/// How many bytes are left from the front of the first token on.
pub(crate) fn left_at(tokens: &[Placed]) -> usize
    ensures { result ≡ left_at (all_placed tokens.now) }
{
    match tokens.first() {
        Some(first) => first.left,
        None => 0,
    }
}
