//! The summary of a drill.
ghost use Rattle.std.specs.Fmt.{decimal, signed_decimal};
ghost use Rattle.std.specs.List.{count_by, flat_map};
ghost use Rattle.std.specs.Prelude.{◌≡◌, ◌+◌, ◌+ℤ◌, ◌++◌, IfOk, codes, cond, map};
ghost use Rattle.std.specs.String.{string_bytes};
ghost use Rattle.behaviour.specs.Roots.{run_of};
ghost use Rattle.bridge_endpoint.specs.Telling.{counts_told};
ghost use Rattle.bridge_world.specs.Playing.{progress_of};
ghost use Rattle.plan_types.specs.Frames.{variables_of};
ghost use Rattle.report_model.specs.Drills.{how_many_say, number_of, said_in, says, sum_in, sum_of, summary};
ghost use Rattle.uno_values.specs.Values.{plain_of};

use crate::report::push_counts;
use behaviour::RootRun;
use bridge_endpoint::Counts;
use bridge_world::Runs;
use plan_types::Variable;
use std::alloc::Global;
use uno_base::NoMemory;
use uno_types::Text;
use uno_values::Value;

/// The words of a drill; how many of its lines say `returned`, and how many `same`; the sum of the numbers that its roots have; and the counts of both ends.
pub fn drill_lines(
    alloc: Global,
    rounds: u32,
    seed: u64,
    runs: &Runs,
    a: Counts,
    b: Counts,
) -> Result<Vec<u8>, NoMemory>
    ensures { IfOk result (λ text. text.items ≡ summary rounds seed (progress_of runs.now) (counts_told a) (counts_told b)) }
{
    let returned = how_many_say("returned ", runs)?;
    let same = how_many_say("same", runs)?;
    let sum = sum_in(runs)?;
    let mut text = totals(alloc, rounds, seed, returned, same, sum)?;
    push_counts(alloc, &mut text, "A", a)?;
    push_counts(alloc, &mut text, "B", b)?;
    Ok(text.into_bytes())
}

/// The lines of what was counted and summed up.
fn totals(
    alloc: Global,
    rounds: u32,
    seed: u64,
    returned: u64,
    same: u64,
    sum: i64,
) -> Result<String, NoMemory>
    ensures { IfOk result (λ text. string_bytes text
        ≡ codes "drill " ++ (decimal rounds ++ (codes " " ++ (decimal seed ++ (codes "\nreturned " ++ (decimal returned ++ (codes "\nsame " ++ (decimal same ++ (codes "\nsum " ++ (signed_decimal sum ++ codes "\n")))))))))) }
{
    let text = format!(in alloc;
        "drill {rounds} {seed}\nreturned {returned}\nsame {same}\nsum {sum}\n"
    )?;
    Ok(text)
}

// ---- lines

/// How many lines of both ends say this first.
fn how_many_say(word: &str, runs: &Runs) -> Result<u64, NoMemory>
    ensures { IfOk result (λ n. n ≡ how_many_say word.now (progress_of runs.now)) }
{
    let a = of_roots(word, runs.a.as_slice())?;
    let b = of_roots(word, runs.b.as_slice())?;
    total(a, b)
}

/// How many lines of these roots do.
fn of_roots(word: &str, runs: &[RootRun]) -> Result<u64, NoMemory>
    ensures { IfOk result (λ n. n ≡ count_by (says word.now) (flat_map (λ r. r.lines) (map run_of runs.now))) }
{
    let mut count: u64 = 0;
    for run in runs {
        count = total(count, of_lines(word, run.lines.as_slice())?)?;
    }
    Ok(count)
}

/// How many of these lines do.
fn of_lines(word: &str, lines: &[Text]) -> Result<u64, NoMemory>
    ensures { IfOk result (λ n. n ≡ count_by (says word.now) lines.now) }
{
    let mut count: u64 = 0;
    for line in lines {
        count = total(count, of_line(word, line.as_str()))?;
    }
    Ok(count)
}

/// One where a line does.
fn of_line(word: &str, line: &str) -> u64
    ensures { result ≡ cond (says word.now line.now) 1 0 }
{
    if says(word, line) {
        return 1;
    }
    0
}

fn says(word: &str, line: &str) -> bool
    ensures { result ≡ says word.now line.now }
{
    said_in(line).as_bytes().starts_with(word.as_bytes())
}

/// What a line says behind the number of its statement.
fn said_in(line: &str) -> &str
    ensures { result.now ≡ said_in line.now }
{
    match line.split_once(' ') {
        Some((_, text)) => text,
        None => "",
    }
}

fn total(a: u64, b: u64) -> Result<u64, NoMemory>
    ensures { IfOk result (λ n. n ≡ a + b) }
{
    match a.checked_add(b) {
        Some(total) => Ok(total),
        None => Err(NoMemory),
    }
}

// ---- numbers

/// The sum of the numbers that the roots of both ends have.
fn sum_in(runs: &Runs) -> Result<i64, NoMemory>
    ensures { IfOk result (λ n. n ≡ sum_in (progress_of runs.now)) }
{
    let a = sum_of_roots(runs.a.as_slice())?;
    let b = sum_of_roots(runs.b.as_slice())?;
    sum(a, b)
}

/// That of these roots.
fn sum_of_roots(runs: &[RootRun]) -> Result<i64, NoMemory>
    ensures { IfOk result (λ n. n ≡ sum_of (flat_map (λ r. r.variables) (map run_of runs.now))) }
{
    let mut all: i64 = 0;
    for run in runs {
        let number = sum_of(run.variables.as_slice())?;
        let next = sum(all, number)?;
        all = next;
    }
    Ok(all)
}

/// That of these variables.
fn sum_of(variables: &[Variable]) -> Result<i64, NoMemory>
    ensures { IfOk result (λ n. n ≡ sum_of (variables_of variables.now)) }
{
    let mut all: i64 = 0;
    for variable in variables {
        let next = sum(all, number_of(variable))?;
        all = next;
    }
    Ok(all)
}

/// The number that a variable has, or 0 where it has another value.
fn number_of(variable: &Variable) -> i64
    ensures { result ≡ number_of (plain_of variable.now.value) }
{
    match &variable.value {
        Value::Long(number) => i64::from(*number),
        _ => 0,
    }
}

fn sum(a: i64, b: i64) -> Result<i64, NoMemory>
    ensures { IfOk result (λ n. n ≡ a +ℤ b) }
{
    match a.checked_add(b) {
        Some(sum) => Ok(sum),
        None => Err(NoMemory),
    }
}
