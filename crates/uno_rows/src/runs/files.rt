//! The files of the process.
ghost use Rattle.std.specs.Prelude.{◌≤◌, None, length};

use crate::spelling::push_spread;
use std::alloc::Global;
use uno_io::{FileError, Files, StdFiles};

/// How many bytes of a file are read at most.
const MOST_READ: usize = 4_194_305;

/// The files of which a reading fails, if one does: the number of it, and of the next, from 0.
#[derive(Drop)]
pub(crate) struct RowFiles<'a> {
    alloc: Global,
    files: StdFiles<'a, HostRuntime>,
    fault: Option<u64>,
    next: u64,
}

impl<'a> RowFiles<'a> {
    pub(crate) fn new(rt: &'a HostRuntime, fault: Option<u64>) -> RowFiles<'a> {
        RowFiles {
            alloc: rt.alloc(),
            files: StdFiles::new(rt, rt.alloc()),
            fault,
            next: 0,
        }
    }
}

impl<'a> Files for RowFiles<'a> {
    ghost stored = { λ _. None };

    ghost faults = { λ f. f.files };

    /// In place of the file of a reading that fails, the folder is read.
    fn read(&mut self, name: &str) -> Result<Option<Vec<u8>>, FileError> {
        let number = self.next;
        self.next = number.saturating_add(1);
        if self.fault == Some(number) {
            return self.files.read(".");
        }
        match self.files.read(name) {
            Ok(Some(bytes)) => Ok(Some(spread(self.alloc, bytes))),
            Ok(None) => Ok(None),
            Err(error) => Err(error),
        }
    }
}

/// The bytes of a file, with all that stands in it many times, if they are a text and not too many.
fn spread(alloc: Global, bytes: Vec<u8>) -> Vec<u8>
    requires { length bytes.items ≤ 4194305 }
    ensures { length result.items ≤ 4194305 }
{
    let text = spread_text(alloc, bytes.as_slice());
    if text.is_empty() || text.len() > MOST_READ {
        drop(text);
        return bytes;
    }
    drop(bytes);
    text
}

/// The same as a new text; of what is none, nothing.
fn spread_text(alloc: Global, bytes: &[u8]) -> Vec<u8> {
    let mut text = String::new(alloc);
    push_spread(&mut text, std::str::from_utf8(bytes).unwrap_or(""));
    text.into_bytes()
}
