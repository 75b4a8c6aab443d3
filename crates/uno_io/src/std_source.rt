//! The readers of the process as sources.
ghost use Rattle.std.specs.Prelude.{◌≡◌, ◌<◌, length};
ghost use Rattle.std.specs.Io.{ReadsAtMost};
ghost use Rattle.std.specs.Io.KnownBytes.{ReadConsumes};
ghost use Rattle.uno_base.specs.Causes.{HasCause};

use crate::{Failed, Source};
use std::io::Read;
use std::marker::Model;

/// A reader, with a count of its errors.
#[derive(Drop)]
pub struct StdSource<R: Read + Drop> {
    reader: R,
    errors: u64,
}

impl<R: Read + Drop> Model for StdSource<R> {
    ghost use Rattle.uno_io.specs.Streams.{Inflow};

    ghost Value = { Inflow };

    ghost view = { λ s. record { left = R.remaining s.reader; faults = s.errors } };
}

impl<R: Read + Drop> StdSource<R> {
    /// The reader as it stands, with no error yet.
    pub fn new(reader: R) -> StdSource<R>
        ensures { result ≡ record { left = R.remaining reader; faults = 0 } }
    {
        StdSource { reader, errors: 0 }
    }
}

impl<R: Read + Drop> Source for StdSource<R> {
    ghost left = { λ s. s.left };

    ghost faults = { λ s. s.faults };

    fn read(&mut self, into: &mut [u8]) -> Result<usize, Failed> {
        match self.reader.read(into) {
            Ok(len) => Ok(len),
            Err(_) => {
                self.errors = self.errors.saturating_add(1);
                Err(Failed)
            }
        }
    }
}
