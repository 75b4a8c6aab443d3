//! The writers of the process as sinks.
ghost use Rattle.std.specs.Prelude.{◌≡◌, ◌<◌, false, length};

use crate::{Failed, Sink};
use std::io::Write;
use std::marker::Model;

/// A writer, with a count of its errors, and whether it was closed.
#[derive(Drop)]
pub struct StdSink<W: Write + Drop> {
    writer: W,
    errors: u64,
    closed: bool,
}

impl<W: Write + Drop> Model for StdSink<W> {
    ghost use Rattle.uno_io.specs.Streams.{Outflow};

    ghost Value = { Outflow };

    ghost view = { λ s. record { taken = W.contents s.writer; faults = s.errors; closed = s.closed } };
}

impl<W: Write + Drop> StdSink<W> {
    /// The writer as it stands, open and with no error yet. It gets each piece at once, and is never flushed.
    pub fn new(writer: W) -> StdSink<W>
        ensures { result ≡ record { taken = W.contents writer; faults = 0; closed = false } }
    {
        StdSink {
            writer,
            errors: 0,
            closed: false,
        }
    }
}

impl<W: Write + Drop> Sink for StdSink<W> {
    ghost taken = { λ s. s.taken };

    ghost faults = { λ s. s.faults };

    ghost closed = { λ s. s.closed };

    fn write(&mut self, piece: &[u8]) -> Result<usize, Failed> {
        if self.closed {
            self.errors = self.errors.saturating_add(1);
            return Err(Failed);
        }
        match self.writer.write(piece) {
            Ok(0) | Err(_) => {
                self.errors = self.errors.saturating_add(1);
                Err(Failed)
            }
            Ok(len) => Ok(len),
        }
    }

    fn close(&mut self) {
        self.closed = true;
    }
}
