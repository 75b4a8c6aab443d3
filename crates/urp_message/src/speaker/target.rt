//! Whom a request calls, as it is written: what is new of it (URP specification, messages).
ghost use Rattle.std.specs.Prelude.{◌≡◌, ◌<◌, ◌^◌, ◌++◌, length, Some, option_map, OnOk};
ghost use Rattle.std.specs.Str.{IsUtf8};
ghost use Rattle.message_model.specs.WritingMessages.{is_new, is_new_face, if_new, held_if_new, target_spelling, after_target};
ghost use Rattle.uno_model.specs.Kinds as kd;
ghost use Rattle.uno_entities.specs.TypeNames.{kind_of};
ghost use Rattle.urp_message.specs.Messages.{spoken_of};
ghost use Rattle.urp_message.specs.Speaking.{heading_of, HeadingWritable};
ghost use Rattle.urp_model.specs.Held.{used};
ghost use Rattle.urp_model.specs.Writing.{kind_spelling, kind_after, name_spelling};

use super::heading::{Heading, is_new_face, is_new_oid, is_new_tid};
use crate::remembered::{Spoken, remember};
use uno_base::NoMemory;
use uno_types::{Name, Text, Tid, TypeName};
use urp_cache::SendCache;
use urp_wire::{write_interface, write_oid, write_tid};

/// The type, the object and the thread, where they are new; they are the last ones from now on.
#[tactic(auto, unfolding(message_model::specs::WritingMessages::target_spelling, message_model::specs::WritingMessages::after_target))]
pub(crate) fn put_target(
    heading: &Heading,
    spoken: &mut Spoken,
    to: &mut Vec<u8>,
) -> Result<(), NoMemory>
    requires { HeadingWritable (heading_of heading.now) }
    ensures bytes { OnOk result (to.new.items ≡ to.old.items ++ target_spelling (heading_of heading.now) (spoken_of spoken.old)) }
    ensures after { OnOk result (spoken_of spoken.new ≡ after_target (heading_of heading.now) (spoken_of spoken.old)) }
    ensures text { OnOk result (IsUtf8 heading.now.oid.now) }
{
    put_face(
        heading.face,
        &mut spoken.last.kind,
        &mut spoken.caches.types,
        to,
    )?;
    put_object(
        heading.oid,
        &mut spoken.last.oid,
        &mut spoken.caches.oids,
        to,
    )?;
    put_thread(
        heading.tid,
        &mut spoken.last.tid,
        &mut spoken.caches.tids,
        to,
    )
}

/// The interface, which is copied only where it is new.
fn put_face(
    face: &Name,
    last: &mut Option<TypeName>,
    types: &mut SendCache,
    to: &mut Vec<u8>,
) -> Result<(), NoMemory>
    requires { length face.now < 2 ^ 32 }
    ensures bytes { OnOk result (to.new.items ≡ to.old.items ++ if_new (is_new_face face.now (option_map kind_of last.old)) (kind_spelling (kd.interface face.now) types.old)) }
    ensures names { OnOk result (types.new ≡ held_if_new (is_new_face face.now (option_map kind_of last.old)) (kind_after (kd.interface face.now) types.old) types.old) }
    ensures last { OnOk result (option_map kind_of last.new ≡ Some (kd.interface face.now)) }
{
    if !is_new_face(face, last) {
        return Ok(());
    }
    write_interface(types, face, to)?;
    remember(last, Some(TypeName::Interface(face.copy()?)));
    Ok(())
}

/// The object, which is copied only where it is new.
fn put_object(
    oid: &Text,
    last: &mut Option<Text>,
    oids: &mut SendCache,
    to: &mut Vec<u8>,
) -> Result<(), NoMemory>
    requires { length oid.now < 2 ^ 32 }
    ensures bytes { OnOk result (to.new.items ≡ to.old.items ++ if_new (is_new oid.now last.old) (name_spelling oid.now oids.old)) }
    ensures names { OnOk result (oids.new ≡ held_if_new (is_new oid.now last.old) (used oid.now oids.old) oids.old) }
    ensures last { OnOk result (last.new ≡ Some oid.now) }
    ensures text { IsUtf8 oid.now }
{
    if !is_new_oid(oid, last) {
        return Ok(());
    }
    write_oid(oids, oid, to)?;
    remember(last, Some(oid.copy()?));
    Ok(())
}

/// The thread, which is copied only where it is new.
pub(crate) fn put_thread(
    tid: &Tid,
    last: &mut Option<Tid>,
    tids: &mut SendCache,
    to: &mut Vec<u8>,
) -> Result<(), NoMemory>
    requires { length tid.now < 2 ^ 32 }
    ensures bytes { OnOk result (to.new.items ≡ to.old.items ++ if_new (is_new tid.now last.old) (name_spelling tid.now tids.old)) }
    ensures names { OnOk result (tids.new ≡ held_if_new (is_new tid.now last.old) (used tid.now tids.old) tids.old) }
    ensures last { OnOk result (last.new ≡ Some tid.now) }
{
    if !is_new_tid(tid, last) {
        return Ok(());
    }
    write_tid(tids, tid, to)?;
    remember(last, Some(tid.copy()?));
    Ok(())
}
