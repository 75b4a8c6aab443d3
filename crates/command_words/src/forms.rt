//! The form of each command: its plain words and its options.
ghost use Rattle.std.specs.Prelude.{◌≡◌, ◌&&◌, None, is_some, IfOk, IfErr, map, string_bytes};
ghost use Rattle.command_words.specs.Forms.{Orders, are_allowed, compile_form, idl_form, answer_form, pair_form, serve_form, call_form, drill_form, form_of, numbers_by, order_by};
ghost use Rattle.std.specs.Option.{option_and_then};
ghost use Rattle.command_words.specs.Meaning.{Means};
ghost use Rattle.command_words.specs.Parts.{apart};

use crate::by_clap::{WORDS, matches_of};
use crate::command_name::{CommandName, allows};
use crate::number::number_within;
use crate::numbers::{Numbers, numbers_of};
use crate::parts::{Parts, parts_of};
use crate::{Command, WordsError};
use std::alloc::Global;

/// The most files that are compiled at once.
const MOST_FILES: usize = 64;

/// What a command asks with the words behind its name. The definition decides; then clap reads.
pub(crate) fn order_by(
    alloc: Global,
    name: CommandName,
    words: &[String],
) -> Result<Command, WordsError>
    ensures { Orders (option_and_then (order_by name) (apart None (map string_bytes words.now))) result }
{
    let numbers = numbers_behind(alloc, name, words)?;
    let matches = matches_of(alloc, words)?;
    match matches.get_strs(WORDS) {
        Some(plain) => form_of(alloc, name, plain, numbers),
        None => form_of(alloc, name, &[], numbers),
    }
}

/// The numbers of the options, if the words are taken apart and the command has all options that are given.
fn numbers_behind(alloc: Global, name: CommandName, words: &[String]) -> Result<Numbers, WordsError>
    ensures { Means (option_and_then (numbers_by name) (apart None (map string_bytes words.now))) result }
{
    let parts = parts_of(alloc, words)?;
    numbers_by(name, &parts)
}

/// The same of words that are taken apart.
#[tactic(auto, unfolding(crate::specs::Forms::numbers_by))]
fn numbers_by(name: CommandName, parts: &Parts<'_>) -> Result<Numbers, WordsError>
    ensures { Means (numbers_by name parts.now) result }
{
    if !are_allowed(name, parts) {
        return Err(WordsError::Words);
    }
    numbers_of(parts.choices.as_slice())
}

fn are_allowed(name: CommandName, parts: &Parts<'_>) -> bool
    ensures { result ≡ are_allowed name parts.now }
{
    parts
        .choices
        .iter()
        .all(|choice| allows(name, choice.option))
}

fn form_of(
    alloc: Global,
    name: CommandName,
    plain: &[&str],
    numbers: Numbers,
) -> Result<Command, WordsError>
    ensures { Orders (form_of name (map (λ s. s.now) plain.now) numbers) result }
{
    match name {
        CommandName::Compile => compile(alloc, plain),
        CommandName::Idl => idl(alloc, plain),
        CommandName::Answer => answer(alloc, plain),
        CommandName::Pair => pair(alloc, plain, numbers),
        CommandName::Serve => serve(alloc, plain, numbers),
        CommandName::Call => call(alloc, plain, numbers),
        CommandName::Drill => drill(plain),
    }
}

fn text(alloc: Global, word: &str) -> Result<String, WordsError>
    ensures text { IfOk result (λ t. string_bytes t ≡ word.now) }
    ensures want { IfErr result (λ e. e ≡ WordsError.NoMemory) }
{
    let text = String::from_str(alloc, word)?;
    Ok(text)
}

#[tactic(auto, unfolding(crate::specs::Forms::compile_form, crate::specs::Forms::order_in))]
fn compile(alloc: Global, plain: &[&str]) -> Result<Command, WordsError>
    ensures { Orders (compile_form (map (λ s. s.now) plain.now)) result }
{
    if plain.is_empty() {
        return Err(WordsError::Words);
    }
    if plain.len() > MOST_FILES {
        return Err(WordsError::Words);
    }
    let files = texts(alloc, plain)?;
    Ok(Command::Compile { files })
}

fn texts(alloc: Global, words: &[&str]) -> Result<Vec<String>, WordsError>
    ensures texts { IfOk result (λ texts. map string_bytes texts.items ≡ map (λ s. s.now) words.now) }
    ensures want { IfErr result (λ e. e ≡ WordsError.NoMemory) }
{
    let mut texts = Vec::new(alloc);
    for word in words {
        texts.push(text(alloc, word)?)?;
    }
    Ok(texts)
}

#[tactic(auto, unfolding(crate::specs::Forms::idl_form, crate::specs::Forms::order_in))]
fn idl(alloc: Global, plain: &[&str]) -> Result<Command, WordsError>
    ensures { Orders (idl_form (map (λ s. s.now) plain.now)) result }
{
    let [types] = plain else {
        return Err(WordsError::Words);
    };
    let types = text(alloc, types)?;
    Ok(Command::Idl { types })
}

#[tactic(auto, unfolding(crate::specs::Forms::answer_form, crate::specs::Forms::order_in))]
fn answer(alloc: Global, plain: &[&str]) -> Result<Command, WordsError>
    ensures { Orders (answer_form (map (λ s. s.now) plain.now)) result }
{
    if plain.is_empty() {
        return Ok(Command::Answer);
    }
    let [types, plan] = plain else {
        return Err(WordsError::Words);
    };
    let types = text(alloc, types)?;
    let plan = text(alloc, plan)?;
    Ok(Command::AnswerPlan { types, plan })
}

#[tactic(auto, unfolding(crate::specs::Forms::pair_form, crate::specs::Forms::order_in))]
fn pair(alloc: Global, plain: &[&str], numbers: Numbers) -> Result<Command, WordsError>
    ensures { Orders (pair_form (map (λ s. s.now) plain.now) numbers) result }
{
    let [types, plan_a, plan_b] = plain else {
        return Err(WordsError::Words);
    };
    if are_both(numbers.seed, numbers.threads) {
        return Err(WordsError::Words);
    }
    let types = text(alloc, types)?;
    let plan_a = text(alloc, plan_a)?;
    let plan_b = text(alloc, plan_b)?;
    Ok(Command::Pair {
        types,
        plan_a,
        plan_b,
        seed: numbers.seed,
        cut: numbers.cut.unwrap_or(MOST_CUT),
        threads: numbers.threads,
    })
}

/// What is cut where nothing is said.
const MOST_CUT: u64 = 65_536;

fn are_both(first: Option<u64>, second: Option<u64>) -> bool
    ensures { result ≡ (is_some first && is_some second) }
{
    first.is_some() && second.is_some()
}

/// How many threads serve or call, and how many sessions are served, where nothing is said.
const THREADS: u64 = 4;

const SESSIONS: u64 = 1;

#[tactic(auto, unfolding(crate::specs::Forms::serve_form, crate::specs::Forms::order_in))]
fn serve(alloc: Global, plain: &[&str], numbers: Numbers) -> Result<Command, WordsError>
    ensures { Orders (serve_form (map (λ s. s.now) plain.now) numbers) result }
{
    let [types, plan, folder, accept] = plain else {
        return Err(WordsError::Words);
    };
    let types = text(alloc, types)?;
    let plan = text(alloc, plan)?;
    let folder = text(alloc, folder)?;
    let accept = text(alloc, accept)?;
    Ok(Command::Serve {
        types,
        plan,
        folder,
        accept,
        threads: numbers.threads.unwrap_or(THREADS),
        sessions: numbers.sessions.unwrap_or(SESSIONS),
    })
}

#[tactic(auto, unfolding(crate::specs::Forms::call_form, crate::specs::Forms::order_in))]
fn call(alloc: Global, plain: &[&str], numbers: Numbers) -> Result<Command, WordsError>
    ensures { Orders (call_form (map (λ s. s.now) plain.now) numbers) result }
{
    let [types, plan, folder, url] = plain else {
        return Err(WordsError::Words);
    };
    let types = text(alloc, types)?;
    let plan = text(alloc, plan)?;
    let folder = text(alloc, folder)?;
    let url = text(alloc, url)?;
    Ok(Command::Call {
        types,
        plan,
        folder,
        url,
        threads: numbers.threads.unwrap_or(THREADS),
    })
}

/// The most rounds of a drill.
const MOST_ROUNDS: u64 = 10_000;

#[tactic(auto, unfolding(crate::specs::Forms::drill_form, crate::specs::Forms::order_in))]
fn drill(plain: &[&str]) -> Result<Command, WordsError>
    ensures { Orders (drill_form (map (λ s. s.now) plain.now)) result }
{
    let [rounds, seed] = plain else {
        return Err(WordsError::Words);
    };
    let Some(rounds) = number_within(1, MOST_ROUNDS, rounds) else {
        return Err(WordsError::Words);
    };
    let Some(seed) = number_within(0, u64::MAX, seed) else {
        return Err(WordsError::Words);
    };
    Ok(Command::Drill { rounds, seed })
}
