//! The files of the process.
ghost use Rattle.std.specs.Prelude.{◌≡◌, ◌≤◌, None, length, IfOk, IfErr};
ghost use Rattle.uno_io.specs.Files.{CountAt};

use crate::files::MOST_READ;
use crate::{FileError, Files};
use std::alloc::Global;
use std::fs;
use std::io::{self, ErrorKind, Read};
use std::marker::Model;

/// The files that the process can read by their paths, with a count of the errors. A folder is an error; a name without a file is
/// none.
#[derive(Drop)]
pub struct StdFiles<'a, R: fs::Files> {
    rt: &'a R,
    alloc: Global,
    errors: u64,
}

impl<'a, R: fs::Files> Model for StdFiles<'a, R> {
    ghost use Rattle.std.specs.Prelude.{ℕ};

    ghost Value = { ℕ };

    ghost view = { λ f. f.errors };
}

impl<'a, R: fs::Files> StdFiles<'a, R> {
    /// The files as they stand, with no error yet.
    pub fn new(rt: &'a R, alloc: Global) -> StdFiles<'a, R>
        ensures { result ≡ 0 }
    {
        StdFiles {
            rt,
            alloc,
            errors: 0,
        }
    }
}

impl<'a, R: fs::Files> Files for StdFiles<'a, R> {
    ghost stored = { λ _. None };

    ghost faults = { λ f. f };

    fn read(&mut self, name: &str) -> Result<Option<Vec<u8>>, FileError> {
        let error = match fs::open(self.rt, name) {
            Ok(file) => match front_of(self.alloc, file) {
                Ok(bytes) => return Ok(Some(bytes)),
                Err(error) => error,
            },
            Err(error) => error,
        };
        match error.kind() {
            ErrorKind::NotFound => Ok(None),
            ErrorKind::OutOfMemory => Err(FileError::NoMemory),
            _ => {
                self.errors = self.errors.saturating_add(1);
                Err(FileError::Failed)
            }
        }
    }
}

/// The first bytes of a file.
fn front_of<F: Read + Drop>(alloc: Global, file: F) -> io::Result<Vec<u8>>
    ensures { IfOk result (λ bytes. length bytes.items ≤ 4194305) }
{
    let mut bytes = Vec::new(alloc);
    file.take(MOST_READ as u64).read_to_end(&mut bytes)?;
    bytes.truncate(MOST_READ);
    Ok(bytes)
}
