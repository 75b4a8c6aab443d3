//! A file of rows of texts.
//!
//! Its first line, `registry FILE`, names the file of its registry. A line with ` => ` is a row, and what is behind that is its answer. A
//! line `each TEXT` says that the rows below it stand at the `@` in the text. Any other line is a remark.
ghost use Rattle.std.specs.Prelude.{IfOk};
ghost use Rattle.uno_model.specs.Sound.{IsSound};

mod answer;
mod commands;
mod compiled;
mod entities;
mod made;
mod messages;
mod misfits;
mod plans;
mod rows;
mod streams;
mod unoidl;
mod values;

use crate::files::bytes_in;
use crate::spelling::{bytes_of, cut, push_spread};
use answer::Answer;
use registry_reading::{RegError, read_registry};
use rows::answer_row;
use std::alloc::Global;
use std::io;
use uno_types::Registry;

/// What stands before each row and behind it.
type Frame<'a> = (&'a str, &'a str);

/// Prints the rows of a file that are answered otherwise, and how many rows it has.
pub(crate) fn judge_file(rt: &HostRuntime, name: &str) -> io::Result<()> {
    let bytes = bytes_in(rt, name);
    let (first, rows) = cut(std::str::from_utf8(&bytes).unwrap_or(""), "\n");
    match registry_in(rt, cut(first, " ").1) {
        Ok(registry) => {
            let judged = judge_rows(rt, name, &registry, rows);
            drop(registry);
            judged
        }
        Err(error) => println!(rt; "{name}: {error:?}"),
    }
}

/// The registry whose text a file is.
fn registry_in(rt: &HostRuntime, name: &str) -> Result<Registry, RegError>
    ensures { IfOk result IsSound }
{
    let bytes = bytes_in(rt, name);
    let text = std::str::from_utf8(&bytes).unwrap_or("");
    read_registry(rt.alloc(), &meant(rt.alloc(), ("", ""), text))
}

/// The bytes that a text in its frame stands for.
fn meant(alloc: Global, frame: Frame<'_>, text: &str) -> Vec<u8> {
    bytes_of(alloc, &row_of(alloc, frame, text))
}

fn judge_rows(rt: &HostRuntime, name: &str, registry: &Registry, lines: &str) -> io::Result<()>
    requires { IsSound registry.now }
{
    let mut frame = ("", "");
    let mut count: u32 = 0;
    for line in lines.lines() {
        if let Some(text) = line.strip_prefix("each ") {
            frame = cut(text, "@");
        } else if let Some((row, wanted)) = line.rsplit_once(" => ") {
            judge_row(rt, name, registry, frame, row, wanted)?;
            count = count.saturating_add(1);
        }
    }
    println!(rt; "{name}: {count} rows")
}

/// The row in its frame, with all that stands in it many times.
fn row_of(alloc: Global, frame: Frame<'_>, row: &str) -> String {
    let (front, back) = frame;
    let mut whole = String::new(alloc);
    push_spread(&mut whole, front);
    push_spread(&mut whole, row);
    push_spread(&mut whole, back);
    whole
}

fn judge_row(
    rt: &HostRuntime,
    name: &str,
    registry: &Registry,
    frame: Frame<'_>,
    row: &str,
    wanted: &str,
) -> io::Result<()>
    requires { IsSound registry.now }
{
    let mut answer = Answer::new(rt.alloc());
    answer_row(registry, &row_of(rt.alloc(), frame, row), &mut answer);
    match answer.bytes() == meant(rt.alloc(), ("", ""), wanted).as_slice() {
        true => Ok(()),
        false => println!(rt; "{name}: {row} => {}", answer.bytes().escape_ascii()),
    }
}
