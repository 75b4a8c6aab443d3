//! Requests as they are written (URP specification, messages).
ghost use Rattle.std.specs.Prelude.{◌≡◌, ◌++◌, map, OnOk};
ghost use Rattle.std.specs.Str.{IsUtf8};
ghost use Rattle.message_model.specs.WritingMessages.{request_spelling, after_request};
ghost use Rattle.uno_values.specs.Values.{plain_of, plains_of};
ghost use Rattle.urp_message.specs.Messages.{spoken_of};
ghost use Rattle.urp_message.specs.Speaking.{heading_of, HeadingWritable};
ghost use Rattle.urp_wire.specs.Written.{AreWritable};
ghost use Rattle.uno_model.specs.Spellable.{AreSpellable};

use super::heading::{Heading, put_opening};
use super::target::put_target;
use crate::remembered::Spoken;
use std::alloc::Global;
use uno_base::NoMemory;
use uno_values::Value;
use urp_wire::write_values;

/// The header of a request, and its arguments.
pub(crate) fn put_request(
    alloc: Global,
    heading: &Heading,
    args: &[Value],
    spoken: &mut Spoken,
    to: &mut Vec<u8>,
) -> Result<(), NoMemory>
    requires names { HeadingWritable (heading_of heading.now) }
    requires values { AreWritable (plains_of args.now) }
    ensures bytes { OnOk result (to.new.items ≡ to.old.items ++ request_spelling (heading_of heading.now) (map plain_of args.now) (spoken_of spoken.old)) }
    ensures after { OnOk result (spoken_of spoken.new ≡ after_request (heading_of heading.now) (map plain_of args.now) (spoken_of spoken.old)) }
    ensures text { OnOk result (IsUtf8 heading.now.oid.now) }
    ensures ranges { OnOk result (AreSpellable (plains_of args.now)) }
{
    put_opening(heading, &spoken.last, to)?;
    put_target(heading, spoken, to)?;
    write_values(alloc, &mut spoken.caches, args, to)
}
