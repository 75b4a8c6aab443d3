//! Runs over streams in memory.
ghost use Rattle.std.specs.Prelude.{◌<◌, All};

use std::alloc::{AllocError, Global};
use uno_io::{Files, MemSink, MemSource, Sink, Source};
use uno_run::{Status, run};
use uno_types::Tag;

/// A source of the bytes in pieces of these sizes, in turn, of which the read with this number fails.
pub(crate) fn source_of(
    alloc: Global,
    bytes: &[u8],
    pieces: Option<(u32, u32)>,
    fault: Option<u64>,
) -> MemSource {
    let mut all = Vec::new(alloc);
    all.extend_from_slice(bytes).ok();
    MemSource::new(all, sizes_of(alloc, pieces), numbers_of(alloc, fault))
}

/// A sink of which the write with this number fails.
pub(crate) fn sink_of(alloc: Global, fault: Option<u64>) -> MemSink {
    MemSink::new(alloc, numbers_of(alloc, fault))
}

fn numbers_of(alloc: Global, number: Option<u64>) -> Vec<u64> {
    let mut numbers = Vec::new(alloc);
    if let Some(number) = number {
        numbers.push(number).ok();
    }
    numbers
}

/// The sizes, none of which is 0.
fn sizes_of(alloc: Global, pieces: Option<(u32, u32)>) -> Vec<usize>
    ensures { All (λ n. 0 < n) result.items }
{
    let mut sizes = Vec::new(alloc);
    let Some((first, second)) = pieces else {
        return sizes;
    };
    sizes.push(first.max(1) as usize).ok();
    sizes.push(second.max(1) as usize).ok();
    sizes
}

/// How many bytes a read of at most 100 gives.
pub(crate) fn left_in(input: &mut MemSource) -> usize {
    let mut piece = [0u8; 100];
    input.read(&mut piece).unwrap_or(101)
}

/// How a run of these words, between which there are blanks, ends.
pub(crate) fn run_line<F: Files, I: Source, O: Sink, E: Sink>(
    alloc: Global,
    line: &str,
    files: &mut F,
    input: &mut I,
    output: &mut O,
    errors: &mut E,
) -> Status {
    match words_of(alloc, line) {
        Ok(words) => run_words(alloc, &words, files, input, output, errors),
        Err(_) => Status::NoMemory,
    }
}

fn words_of(alloc: Global, line: &str) -> Result<Vec<String>, AllocError> {
    let mut words = Vec::new(alloc);
    for word in line.split(' ') {
        push_word(&mut words, word)?;
    }
    Ok(words)
}

/// An empty word is none.
fn push_word(words: &mut Vec<String>, word: &str) -> Result<(), AllocError> {
    if word.is_empty() {
        return Ok(());
    }
    let word = String::from_str(*words.allocator(), word)?;
    match words.push(word) {
        Ok(()) => Ok(()),
        Err(_) => Err(AllocError),
    }
}

/// It is the one call of `run`, and of streams of no certain kind, since the proof of a call grows with all that is known of its streams.
fn run_words<F: Files, I: Source, O: Sink, E: Sink>(
    alloc: Global,
    words: &[String],
    files: &mut F,
    input: &mut I,
    output: &mut O,
    errors: &mut E,
) -> Status {
    match Tag::read(alloc, "S") {
        Ok(tag) => run(&(), alloc, words, &tag, files, input, output, errors),
        Err(_) => Status::NoMemory,
    }
}
