//! Writing until all is taken.
ghost use Rattle.std.specs.Prelude.{◌≡◌, OnOk, OnErr};
ghost use Rattle.std.specs.Io.KnownBytes.{Appends};
ghost use Rattle.uno_base.specs.Causes.{HasCause};
ghost use Rattle.uno_io.specs.Fronts.{AppendsFront};

use crate::{Failed, Sink};

/// Writes all of the bytes, in as many pieces as the sink takes.
pub fn write_all<S: Sink>(sink: &mut S, bytes: &[u8]) -> Result<(), Failed>
    ensures written { OnOk result (Appends (S.taken sink.old) (S.taken sink.new) bytes.now) }
    ensures stopped { OnErr result (AppendsFront (S.taken sink.old) (S.taken sink.new) bytes.now) }
    ensures cause { HasCause (S.faults sink.old) (S.faults sink.new) result }
    ensures stays { S.closed sink.new ≡ S.closed sink.old }
{
    let mut rest = bytes;
    while !rest.is_empty() {
        let taken = sink.write(rest)?;
        rest = rest.split_at(taken).1;
    }
    Ok(())
}
