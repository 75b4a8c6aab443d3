//! Whether the runs of rows come out as they should.
ghost use Rattle.std.specs.Prelude.{◌≡◌, ◌+◌, ◌-◌, ◌^◌, ◌==◌, min, true, false, IfOk};
ghost use Rattle.uno_rows.specs.Wanted.{is_wanted};

mod blocks;
mod files;
mod outcome;
mod row;
mod running;

use crate::files::bytes_in;
use blocks::bytes_named;
use files::RowFiles;
use outcome::Outcome;
use row::Row;
use running::{left_in, run_line, sink_of, source_of};
use std::io;
use uno_run::Status;

/// How many rows and runs came out as they should, and how many did not.
#[derive(Drop)]
pub(crate) struct Tally {
    rows: u32,
    runs: u32,
    wrong: u32,
}

impl Tally {
    pub(crate) fn new() -> Tally
        ensures { result ≡ record { rows = 0; runs = 0; wrong = 0 } }
    {
        Tally {
            rows: 0,
            runs: 0,
            wrong: 0,
        }
    }

    /// Prints it, and the status that no row can have, and says whether all came out as it should.
    pub(crate) fn print(&self, rt: &HostRuntime) -> io::Result<bool>
        ensures { IfOk result (λ all. all ≡ (self.now.wrong == 0)) }
    {
        println!(rt;
            "{} rows with {} runs are as they should be, {} are not; without memory the status is {}",
            self.rows,
            self.runs,
            self.wrong,
            Status::NoMemory.code()
        )?;
        Ok(self.wrong == 0)
    }
}

/// A row with the bytes of its input and its output.
#[derive(Clone, Copy)]
struct Case<'a> {
    rt: &'a HostRuntime,
    row: Row<'a>,
    input: &'a [u8],
    output: &'a [u8],
}

/// Makes the runs of the rows of a file.
pub(crate) fn judge_file(
    rt: &HostRuntime,
    blocks: &str,
    name: &str,
    tally: &mut Tally,
) -> io::Result<()> {
    let bytes = bytes_in(rt, name);
    judge_texts(
        rt,
        blocks,
        name,
        std::str::from_utf8(&bytes).unwrap_or(""),
        tally,
    )
}

fn judge_texts(
    rt: &HostRuntime,
    blocks: &str,
    name: &str,
    texts: &str,
    tally: &mut Tally,
) -> io::Result<()> {
    for text in texts.split("====\n") {
        judge_text(rt, blocks, name, text, tally)?;
    }
    Ok(())
}

fn judge_text(
    rt: &HostRuntime,
    blocks: &str,
    name: &str,
    text: &str,
    tally: &mut Tally,
) -> io::Result<()> {
    match Row::read(name, text) {
        Some(row) => judge_row(rt, blocks, row, tally),
        None => {
            tally.wrong = tally.wrong.saturating_add(1);
            println!(rt; "{name}: no row")
        }
    }
}

fn judge_row(rt: &HostRuntime, blocks: &str, row: Row<'_>, tally: &mut Tally) -> io::Result<()> {
    let input = bytes_named(rt.alloc(), blocks, row.reads, "");
    let output = bytes_named(rt.alloc(), blocks, row.writes, row.output);
    let case = Case {
        rt,
        row,
        input: &input,
        output: &output,
    };
    judge_case(&case, tally)
}

fn judge_case(case: &Case<'_>, tally: &mut Tally) -> io::Result<()> {
    let before = tally.wrong;
    judge_seeds(case, tally)?;
    if tally.wrong == before {
        tally.rows = tally.rows.saturating_add(1);
    }
    Ok(())
}

/// Makes the runs with each seed.
fn judge_seeds(case: &Case<'_>, tally: &mut Tally) -> io::Result<()> {
    let Some((first, last)) = case.row.seeds else {
        return judge_cuts(case, case.row.words, tally);
    };
    for seed in u64::from(first)..u64::from(last).saturating_add(1) {
        judge_seed(case, seed, tally)?;
    }
    Ok(())
}

fn judge_seed(case: &Case<'_>, seed: u64, tally: &mut Tally) -> io::Result<()> {
    let words = format!(in case.rt.alloc(); "{} --seed {seed}", case.row.words)?;
    judge_cuts(case, &words, tally)
}

/// Makes the runs with each cut.
fn judge_cuts(case: &Case<'_>, words: &str, tally: &mut Tally) -> io::Result<()> {
    let Some(cuts) = case.row.cuts else {
        return judge_sizes(case, words, tally);
    };
    for cut in cuts.split(' ') {
        judge_cut(case, words, cut, tally)?;
    }
    Ok(())
}

fn judge_cut(case: &Case<'_>, words: &str, cut: &str, tally: &mut Tally) -> io::Result<()> {
    let words = format!(in case.rt.alloc(); "{words} --cut {cut}")?;
    judge_sizes(case, &words, tally)
}

/// Makes the runs with pieces of each size.
fn judge_sizes(case: &Case<'_>, words: &str, tally: &mut Tally) -> io::Result<()> {
    let Some((first, last)) = case.row.sizes else {
        return judge_run(case, words, case.row.pieces, words, tally);
    };
    for size in first..last {
        judge_size(case, words, size, tally)?;
    }
    judge_size(case, words, last, tally)
}

fn judge_size(case: &Case<'_>, words: &str, size: u32, tally: &mut Tally) -> io::Result<()> {
    let title = format!(in case.rt.alloc(); "{words}, in pieces of {size}")?;
    judge_run(case, words, Some((size, size)), &title, tally)
}

/// Makes a run, and tells of it under this title.
fn judge_run(
    case: &Case<'_>,
    words: &str,
    pieces: Option<(u32, u32)>,
    title: &str,
    tally: &mut Tally,
) -> io::Result<()> {
    let alloc = case.rt.alloc();
    let faults = case.row.faults;
    let mut files = RowFiles::new(case.rt, faults.files);
    let mut input = source_of(alloc, case.input, pieces, faults.input);
    let mut output = sink_of(alloc, faults.output);
    let mut errors = sink_of(alloc, faults.errors);
    let status = run_line(
        alloc,
        words,
        &mut files,
        &mut input,
        &mut output,
        &mut errors,
    );
    let outcome = Outcome {
        status: status.code(),
        left: left_in(&mut input),
        errors: errors.as_bytes(),
        output: output.as_bytes(),
    };
    judge(case, title, &outcome, tally)
}

/// Counts a run, and prints what came of it where that is not what should.
fn judge(case: &Case<'_>, title: &str, outcome: &Outcome<'_>, tally: &mut Tally) -> io::Result<()>
    ensures right { is_wanted case.now.row case.now.output.now outcome.now ≡ true → tally.new ≡ record tally.old { runs = min (tally.old.runs + 1) (2 ^ 32 - 1) } }
    ensures wrong { is_wanted case.now.row case.now.output.now outcome.now ≡ false → tally.new ≡ record tally.old { wrong = min (tally.old.wrong + 1) (2 ^ 32 - 1) } }
{
    if case.row.wants(case.output, outcome) {
        tally.runs = tally.runs.saturating_add(1);
        return Ok(());
    }
    tally.wrong = tally.wrong.saturating_add(1);
    let rt = case.rt;
    println!(rt;
        "{}: {title} => {} \"{}\" \"{}\", {} left",
        case.row.name,
        outcome.status,
        outcome.errors.escape_ascii(),
        outcome.output.escape_ascii(),
        outcome.left
    )
}
