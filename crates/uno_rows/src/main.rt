//! Rows of texts, each with what the libraries must answer to it; and rows of whole runs, each with the words of a run, what it reads and what
//! hinders it, and what it must write and answer. Those that come out otherwise are printed.
//!
//! Its words are the names of files: `.rows` have texts, and others runs.
#![tactic(auto)]

mod files;
mod runs;
mod spelling;
mod texts;

use crate::files::bytes_in;
use crate::runs::Tally;
use std::process::ExitCode;
use std::{env, io};

fn main(rt: HostRuntime) -> ExitCode {
    let blocks = bytes_in(&rt, "blocks");
    match judge_files(&rt, std::str::from_utf8(&blocks).unwrap_or("")) {
        Ok(true) => ExitCode::from(0),
        _ => ExitCode::from(1),
    }
}

/// Whether all runs came out as they should.
fn judge_files(rt: &HostRuntime, blocks: &str) -> io::Result<bool> {
    let mut tally = Tally::new();
    for name in env::args(rt)?.skip(1) {
        judge_file(rt, blocks, &name, &mut tally)?;
    }
    tally.print(rt)
}

fn judge_file(rt: &HostRuntime, blocks: &str, name: &str, tally: &mut Tally) -> io::Result<()> {
    match name.ends_with(".rows") {
        true => texts::judge_file(rt, name),
        false => runs::judge_file(rt, blocks, name, tally),
    }
}
