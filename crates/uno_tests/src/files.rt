//! That files are read by their names, in memory and of the process.
use crate::judging::see;
use std::alloc::Global;
use std::process::Abort;
use uno_io::{FileError, Files, MemFile, MemFiles, StdFiles};

fn file(rt: &impl Abort, alloc: Global, name: &str, bytes: &[u8]) -> MemFile {
    MemFile {
        name: String::from_str(alloc, name).expect(rt, "no memory"),
        bytes: Vec::from_slice(alloc, bytes).expect(rt, "no memory"),
    }
}

/// Files with these names and bytes, of which the readings with these numbers fail.
fn files_of(rt: &impl Abort, alloc: Global, stored: &[(&str, &[u8])], failing: &[u64]) -> MemFiles {
    let failing = Vec::from_slice(alloc, failing).expect(rt, "no memory");
    let mut files = Vec::new(alloc);
    for (name, bytes) in stored {
        files.push(file(rt, alloc, name, bytes)).ok();
    }
    MemFiles::new(alloc, files, failing)
}

/// A name, and what is read there: its bytes behind a `=`, `none` or `failed`.
type Reading = (&'static str, &'static str);

fn is_read(found: &Result<Option<Vec<u8>>, FileError>, wanted: &str) -> bool {
    match found {
        Ok(Some(bytes)) => has_bytes(bytes, wanted),
        Ok(None) => wanted == "none",
        Err(FileError::Failed) => wanted == "failed",
        Err(FileError::NoMemory) => false,
    }
}

fn has_bytes(bytes: &[u8], wanted: &str) -> bool {
    match wanted.strip_prefix('=') {
        Some(wanted) => bytes == wanted.as_bytes(),
        None => false,
    }
}

/// Whether readings, one after the other, answer so.
fn answers<F: Files>(files: &mut F, readings: &[Reading]) -> bool {
    let mut right = true;
    for (name, wanted) in readings {
        right &= is_read(&files.read(name), wanted);
    }
    right
}

/// The first of a name counts.
const STORED: &[(&str, &[u8])] = &[("a", b"one"), ("a", b"two"), ("b", b"")];

/// The third reading fails, and the next does not.
const IN_MEMORY: &[Reading] = &[
    ("a", "=one"),
    ("b", "="),
    ("a", "failed"),
    ("a", "=one"),
    ("c", "none"),
];

/// An empty file, a folder in a file's place, and a name that no file has.
const OF_THE_PROCESS: &[Reading] = &[
    ("/dev/null", "="),
    ("/", "failed"),
    ("/dev/null.is.not.here", "none"),
];

/// Of a file that is longer than 4 MiB, one byte more than 4 MiB is read.
fn is_cut(rt: &impl Abort, alloc: Global) -> bool {
    let bytes = b"12345678".repeat(alloc, 524_289).expect(rt, "no memory");
    let mut files = files_of(rt, alloc, &[("long", &bytes)], &[]);
    drop(bytes);
    let found = files.read("long");
    drop(files);
    has_length(&found, 4_194_305)
}

fn has_length(found: &Result<Option<Vec<u8>>, FileError>, length: usize) -> bool {
    match found {
        Ok(Some(bytes)) => bytes.len() == length,
        _ => false,
    }
}

#[test]
fn files_in_memory_are_read_by_their_names(rt: HostRuntime) {
    let mut files = files_of(&rt, rt.alloc(), STORED, &[2]);
    see(&rt, answers(&mut files, IN_MEMORY), "files in memory");
    see(&rt, is_cut(&rt, rt.alloc()), "a long file");
}

#[test]
fn files_of_the_process_are_read_or_missing(rt: HostRuntime) {
    let mut files = StdFiles::new(&rt, rt.alloc());
    see(
        &rt,
        answers(&mut files, OF_THE_PROCESS),
        "files of the process",
    );
}
