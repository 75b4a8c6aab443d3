//! Numbers of the words.
ghost use Rattle.std.specs.Prelude.{◌≡◌};
ghost use Rattle.std.specs.List.{list_all};
ghost use Rattle.std.specs.Char.{is_ascii_digit};
ghost use Rattle.std.specs.Str.Parse.{ParsesUnsigned};
ghost use Rattle.command_words.specs.Numbers.{is_number, number_within};

use std::num::ParseIntError;

/// The most digits that a number may have.
const MOST_DIGITS: usize = 20;

/// The number that 1 to 20 digits write, if it is in the range.
#[tactic(auto, unfolding(crate::specs::Numbers::number_within))]
pub(crate) fn number_within(least: u64, most: u64, text: &str) -> Option<u64>
    ensures { result ≡ number_within least most text.now }
{
    if !is_number(text) {
        return None;
    }
    let Ok(number) = parsed(text) else {
        return None;
    };
    if number < least {
        return None;
    }
    if number > most {
        return None;
    }
    Some(number)
}

/// A number of 64 bits.
fn parsed(text: &str) -> Result<u64, ParseIntError>
    ensures { ParsesUnsigned 64 10 text.now result }
{
    text.parse::<u64>()
}

#[tactic(auto, unfolding(crate::specs::Numbers::is_number))]
fn is_number(text: &str) -> bool
    ensures { result ≡ is_number text.now }
{
    if text.is_empty() {
        return false;
    }
    if text.len() > MOST_DIGITS {
        return false;
    }
    are_digits(text.as_bytes())
}

fn are_digits(bytes: &[u8]) -> bool
    ensures { result ≡ list_all is_ascii_digit bytes.now }
{
    bytes.iter().all(|byte| byte.is_ascii_digit())
}
