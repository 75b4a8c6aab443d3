//! The program `uno`: the process's words and streams, handed to the top call.
#![tactic(auto)]

use std::process::ExitCode;
use std::{env, io};
use uno_io::{StdFiles, StdSink, StdSource};
use uno_run::{Status, report, run};
use uno_types::{Tag, TagError};

/// The tag of the end that answers.
const TAG: &str = "S";

fn main(rt: HostRuntime) -> ExitCode {
    let mut errors = StdSink::new(rt.stderr());
    let status = match words(&rt) {
        Ok(words) => answer(&rt, words.as_slice(), &mut errors),
        Err(status) => report(rt.alloc(), &[], status, &mut errors),
    };
    ExitCode::from(status.code())
}

/// The words behind the program's name. Where one of them, or the name, is no text, they are words in no form.
fn words(rt: &HostRuntime) -> Result<Vec<String>, Status> {
    let mut words = Vec::new(rt.alloc());
    let args = env::args(rt).map_err(refused)?;
    for word in args.skip(1) {
        words.push(word).map_err(|_| Status::NoMemory)?;
    }
    Ok(words)
}

/// Why the words could not be had.
fn refused(error: io::Error) -> Status {
    match error.kind() {
        io::ErrorKind::OutOfMemory => Status::NoMemory,
        _ => Status::Words,
    }
}

/// Runs the words on the process's files and streams.
fn answer(rt: &HostRuntime, words: &[String], errors: &mut StdSink<io::Stderr>) -> Status {
    let alloc = rt.alloc();
    match Tag::read(alloc, TAG) {
        Ok(tag) => {
            let mut files = StdFiles::new(rt, alloc);
            let mut input = StdSource::new(rt.stdin());
            let mut output = StdSink::new(rt.stdout());
            run(
                rt,
                alloc,
                words,
                &tag,
                &mut files,
                &mut input,
                &mut output,
                errors,
            )
        }
        Err(TagError::NoMemory) => report(alloc, &[], Status::NoMemory, errors),
        Err(TagError::BadTag) => unreachable!(),
    }
}
