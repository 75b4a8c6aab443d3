//! The words as clap reads them.
ghost use Rattle.std.specs.Prelude.{◌≡◌, Some, None, IfOk, IfErr, map, string_bytes, false};
ghost use Rattle.clap.specs.Words.{app_of, found_of, rows_of, rule_of, with_rule};
ghost use Rattle.command_words.specs.Parts.{Apart, apart};
ghost use Rattle.command_words.specs.ByClap.{Shows, IsAccepted, bare, option_rule, uno, words_rule};

use crate::WordsError;
use clap::error::ErrorKind;
use clap::{Arg, ArgAction, ArgMatches};
use std::alloc::{AllocError, Global};

/// The id of the plain words.
pub(crate) const WORDS: &str = "words";

/// An option that takes one value.
fn option<'a>(alloc: Global, name: &'a str) -> Arg<'a>
    ensures rule { rule_of result ≡ option_rule name.now }
    ensures local { result.global ≡ false }
{
    Arg::new(alloc, name).long(name).action(ArgAction::Set)
}

/// The plain words.
fn words_argument<'a>(alloc: Global) -> Arg<'a>
    ensures rule { rule_of result ≡ words_rule }
    ensures local { result.global ≡ false }
{
    Arg::new(alloc, WORDS).action(ArgAction::Append)
}

/// The command with an argument more.
fn with_argument<'a>(
    command: clap::Command<'a>,
    argument: Arg<'a>,
) -> Result<clap::Command<'a>, AllocError>
    requires { argument.global ≡ false }
    ensures { IfOk result (λ c. app_of c ≡ with_rule (app_of command.entry) (rule_of argument.entry)) }
{
    command.arg(argument)
}

/// A command with no argument, help or version; its words come without the name of the program.
fn bare<'a>(alloc: Global) -> clap::Command<'a>
    ensures { app_of result ≡ bare }
{
    clap::Command::new(alloc, "uno")
        .no_binary_name(true)
        .disable_help_flag(true)
        .disable_version_flag(true)
}

/// The command as clap knows it: plain words, and options.
fn uno<'a>(alloc: Global) -> Result<clap::Command<'a>, AllocError>
    ensures { IfOk result (λ c. app_of c ≡ uno) }
{
    let command = with_argument(bare(alloc), words_argument(alloc))?;
    let command = with_argument(command, option(alloc, "seed"))?;
    let command = with_argument(command, option(alloc, "cut"))?;
    let command = with_argument(command, option(alloc, "threads"))?;
    with_argument(command, option(alloc, "sessions"))
}

/// Reads words that the definition accepts. clap refuses none of them, so only memory may be wanted.
pub(crate) fn matches_of<'a>(
    alloc: Global,
    words: &'a [String],
) -> Result<ArgMatches<'a>, WordsError>
    requires { IsAccepted (map string_bytes words.now) }
    ensures shows { IfOk result (λ m. (whole : Apart) → apart None (map string_bytes words.now) ≡ Some whole → Shows (rows_of (found_of m)) whole) }
    ensures want { IfErr result (λ e. e ≡ WordsError.NoMemory) }
{
    let command = uno(alloc)?;
    match command.try_get_matches_from(words) {
        Ok(matches) => Ok(matches),
        Err(error) => Err(wanted(error.kind())),
    }
}

/// What is wanted where clap answers no matches.
fn wanted(kind: ErrorKind) -> WordsError
    requires { kind ≡ ErrorKind.OutOfMemory }
    ensures { result ≡ WordsError.NoMemory }
{
    match kind {
        ErrorKind::OutOfMemory => WordsError::NoMemory,
        _ => unreachable!(),
    }
}
