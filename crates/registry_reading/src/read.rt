//! The registry of a text: its lines in order, and then the rules.
ghost use Rattle.std.specs.Prelude.{◌≡◌, ◌↔◌, ◌⊎◌, ◌<◌, ◌≤◌, ◌++◌, ◌∷◌, [], ℕ, List, true, Ok, Err, IfOk, IfErr, length, codes};
ghost use Rattle.std.specs.Str.{bytes_eq};
ghost use Rattle.uno_model.specs.BuiltIn.{HasBuiltIn};
ghost use Rattle.uno_model.specs.Entities.{Entity as Plain};
ghost use Rattle.uno_model.specs.Registry.{IsRising};
ghost use Rattle.uno_model.specs.Sound.{IsSound};
ghost use Rattle.registry_text_model.specs.Lines.{registry_text, written};
ghost use Rattle.registry_text_model.specs.Reading.{IsBadLine, IsOutOfOrder, is_one_line};
ghost use Rattle.registry_text_model.specs.Rules.{KeepsTheRules};
ghost use Rattle.registry_reading_model.specs.Heads as heads_model;
ghost use Rattle.registry_reading_model.specs.Heads.{named_in, heads_in};
ghost use Rattle.registry_reading_model.specs.Kept.{kept};
ghost use Rattle.registry_reading_model.specs.States as model;
ghost use Rattle.registry_reading_model.specs.TextLines.{lines_in, all_plain};
ghost use Rattle.registry_reading_model.specs.Whole.{ReadWhole};
ghost use Rattle.registry_reading.specs.Judging.{IsBroken};
ghost use Rattle.registry_reading.specs.Readers.{state_of, IsRead};
ghost use Rattle.registry_reading.specs.Verdicts.{IsAtLine, IsOfLines, IsRefusal, IsAccepted};

use crate::RegError;
use crate::heads::{Heads, heads_of};
use crate::judge::judge;
use crate::lines::first_line;
use crate::reader::{Reader, Wrong, say_what_is_kept};
use std::alloc::Global;
use uno_types::Registry;

/// The most bytes of a text.
const MOST_BYTES: usize = 4_194_304;

/// The registry whose text this is, with the built-in entities. The first wrong line is refused; where all lines are right, the least
/// rule that is broken, at the first entity that breaks it.
pub fn read_registry(alloc: Global, bytes: &[u8]) -> Result<Registry, RegError>
    ensures accepted { IfOk result (IsAccepted bytes.now) }
    ensures sound { IfOk result IsSound }
    ensures long { (result ≡ Err RegError.TooLong) ↔ (4194304 < length bytes.now) }
    ensures bad { (line : ℕ) → result ≡ Err (RegError.BadLine line) → IsBadLine bytes.now line }
    ensures order { (line : ℕ) → result ≡ Err (RegError.Order line) → IsOutOfOrder bytes.now line }
    ensures rule { (number line : ℕ) → result ≡ Err (RegError.Rule number line) → IsBroken bytes.now number line }
    ensures accepts { (registry : List Plain) → KeepsTheRules registry → HasBuiltIn registry → IsRising registry → registry_text registry ≡ bytes.now → length bytes.now ≤ 4194304
        → (result ≡ Ok registry) ⊎ (result ≡ Err RegError.NoMemory) }
{
    if bytes.len() > MOST_BYTES {
        return Err(RegError::TooLong);
    }
    read_short(alloc, bytes)
}

/// The same of a text that is not too long.
fn read_short(alloc: Global, bytes: &[u8]) -> Result<Registry, RegError>
    requires { length bytes.now ≤ 4194304 }
    ensures accepted { IfOk result (IsAccepted bytes.now) }
    ensures refused { IfErr result (IsRefusal bytes.now) }
{
    let heads = heads_of(alloc, bytes)?;
    let registry = read_lines(alloc, &heads, bytes)?;
    judge(alloc, &heads, &registry)?;
    Ok(registry)
}

/// The registry of the lines, with the headers that were looked at before.
fn read_lines(alloc: Global, heads: &Heads<'_>, bytes: &[u8]) -> Result<Registry, RegError>
    requires short { length bytes.now ≤ 4194304 }
    requires heads { all_plain (lines_in bytes.now) ≡ true → heads.now ≡ heads_in (lines_in bytes.now) }
    ensures whole { IfOk result (ReadWhole bytes.now heads.now) }
    ensures refused { IfErr result (IsOfLines bytes.now) }
{
    let Some((line, behind)) = first_line(bytes) else {
        return Err(RegError::BadLine(1));
    };
    if !is_first_line(line) {
        return Err(RegError::BadLine(1));
    }
    read_entities(alloc, heads, bytes, behind)
}

fn is_first_line(line: &[u8]) -> bool
    ensures { result ≡ bytes_eq line.now (codes "unoreg 1") }
{
    line == b"unoreg 1".as_slice()
}

/// The registry of the lines behind the first.
fn read_entities(
    alloc: Global,
    heads: &Heads<'_>,
    bytes: &[u8],
    behind: &[u8],
) -> Result<Registry, RegError>
    requires short { length bytes.now ≤ 4194304 }
    requires heads { all_plain (lines_in bytes.now) ≡ true → heads.now ≡ heads_in (lines_in bytes.now) }
    requires first { bytes.now ≡ codes "unoreg 1" ++ 10 ∷ behind.now }
    ensures whole { IfOk result (ReadWhole bytes.now heads.now) }
    ensures refused { IfErr result (IsOfLines bytes.now) }
{
    let mut reader = Reader::new(alloc)?;
    let mut rest = behind;
    let mut number = 2u32;
    while let Some((line, behind)) = first_line(rest) {
        reader = one_line(alloc, heads, reader, line, number)?;
        number += 1;
        rest = behind;
    }
    finished(reader, rest, number)
}

/// One line more, which has this number.
fn one_line(
    alloc: Global,
    heads: &Heads<'_>,
    reader: Reader,
    line: &[u8],
    number: u32,
) -> Result<Reader, RegError>
    requires { IsRead reader }
    ensures next { IfOk result (λ next. model.step true (kept (named_in heads.now)) (state_of reader) line.now ≡ Ok (state_of next)) }
    ensures read { IfOk result IsRead }
    ensures refused { IfErr result (IsAtLine (kept (named_in heads.now)) (state_of reader) line.now number) }
{
    let Ok(text) = std::str::from_utf8(line) else {
        drop(reader);
        return Err(RegError::BadLine(number));
    };
    match reader.line(alloc, heads, text) {
        Ok(next) => Ok(next),
        Err(Wrong::NoMemory) => Err(RegError::NoMemory),
        Err(Wrong::Bad) => Err(RegError::BadLine(number)),
        Err(Wrong::OutOfOrder) => Err(RegError::Order(number)),
    }
}

/// Behind the last line: no entity may be open, and nothing left that is no line.
fn finished(reader: Reader, rest: &[u8], number: u32) -> Result<Registry, RegError>
    ensures done { IfOk result (λ registry. (rest.now ≡ []) × (state_of reader ≡ model.between (written registry)) × IsRising registry × HasBuiltIn registry) }
    ensures refused { IfErr result (λ e. (e ≡ RegError.BadLine number) × (rest.now ≡ [] → (es : List Plain) → state_of reader ≡ model.between es → ⊥)) }
{
    let Reader {
        registry,
        last,
        entity,
    } = reader;
    drop(last);
    if !rest.is_empty() || entity.is_some() {
        drop(entity);
        drop(registry);
        return Err(RegError::BadLine(number));
    }
    drop(entity);
    say_what_is_kept(&registry);
    Ok(registry)
}
