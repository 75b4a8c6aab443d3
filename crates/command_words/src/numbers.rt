//! The numbers of the options.
ghost use Rattle.std.specs.Prelude.{◌≡◌, Some, None, IfErr, MatchResult};
ghost use Rattle.command_words.specs.Numbers.{number_within, number_of, numbers_of, values_of};
ghost use Rattle.command_words.specs.Names.{least_of, most_of};
ghost use Rattle.command_words.specs.Meaning.{Means};

use crate::WordsError;
use crate::number::number_within;
use crate::option_name::OptionName;
use crate::parts::Choice;

/// The number of each option, where it is given.
#[derive(Clone, Copy)]
pub(crate) struct Numbers {
    pub seed: Option<u64>,
    pub cut: Option<u64>,
    pub threads: Option<u64>,
    pub sessions: Option<u64>,
}

/// The numbers of all options.
#[tactic(auto, unfolding(crate::specs::Numbers::numbers_of))]
pub(crate) fn numbers_of(choices: &[Choice<'_>]) -> Result<Numbers, WordsError>
    ensures { Means (numbers_of choices.now) result }
{
    let seed = number_of(OptionName::Seed, choices)?;
    let cut = number_of(OptionName::Cut, choices)?;
    let threads = number_of(OptionName::Threads, choices)?;
    let sessions = number_of(OptionName::Sessions, choices)?;
    Ok(Numbers {
        seed,
        cut,
        threads,
        sessions,
    })
}

/// The number of an option; it may be given once.
fn number_of(option: OptionName, choices: &[Choice<'_>]) -> Result<Option<u64>, WordsError>
    ensures { Means (number_of option (values_of option choices.now)) result }
{
    let mut found = None;
    for choice in choices {
        if choice.option.is(option) {
            found = Some(first_number(found, option, choice.value)?);
        }
    }
    Ok(found)
}

/// The number of a value that is the first of its option.
fn first_number(found: Option<u64>, option: OptionName, value: &str) -> Result<u64, WordsError>
    ensures { MatchResult result
        (λ n. (found ≡ None) × (number_within (least_of option) (most_of option) value.now ≡ Some n))
        (λ e. (e ≡ WordsError.Words) × (found ≡ None → number_within (least_of option) (most_of option) value.now ≡ None)) }
{
    if found.is_some() {
        return Err(WordsError::Words);
    }
    match number_within(option.least(), option.most(), value) {
        Some(number) => Ok(number),
        None => Err(WordsError::Words),
    }
}
