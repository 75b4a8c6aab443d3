//! The identities of objects and of threads (URP specification, caches): the name or, where it is held, nothing in its place; and its slot.
ghost use Rattle.std.specs.Prelude.{◌≡◌, ◌<◌, ◌^◌, ◌++◌, length, OnOk};
ghost use Rattle.std.specs.Str.{IsUtf8};
ghost use Rattle.urp_model.specs.Held.{used};
ghost use Rattle.urp_model.specs.Writing.{name_spelling};
ghost use Rattle.urp_wire.specs.Written.{name_or_nothing};

use crate::parts::{put_byte, put_measured, put_slot};
use uno_base::NoMemory;
use uno_types::{Text, Tid};
use urp_cache::{Known, SendCache};

/// The identity of an object.
pub fn write_oid(oids: &mut SendCache, oid: &Text, to: &mut Vec<u8>) -> Result<(), NoMemory>
    requires { length oid.now < 2 ^ 32 }
    ensures bytes { OnOk result (to.new.items ≡ to.old.items ++ name_spelling oid.now oids.old) }
    ensures names { OnOk result (oids.new ≡ used oid.now oids.old) }
    ensures text { IsUtf8 oid.now }
{
    put_name(oids, oid.as_str().as_bytes(), to)
}

/// The identity of a thread.
pub fn write_tid(tids: &mut SendCache, tid: &Tid, to: &mut Vec<u8>) -> Result<(), NoMemory>
    requires { length tid.now < 2 ^ 32 }
    ensures bytes { OnOk result (to.new.items ≡ to.old.items ++ name_spelling tid.now tids.old) }
    ensures names { OnOk result (tids.new ≡ used tid.now tids.old) }
{
    put_name(tids, tid.as_bytes(), to)
}

fn put_name(cache: &mut SendCache, name: &[u8], to: &mut Vec<u8>) -> Result<(), NoMemory>
    requires { length name.now < 2 ^ 32 }
    ensures bytes { OnOk result (to.new.items ≡ to.old.items ++ name_spelling name.now cache.old) }
    ensures names { OnOk result (cache.new ≡ used name.now cache.old) }
{
    let (slot, known) = cache.slot_of(name)?;
    put_name_or_nothing(known, name, to)?;
    put_slot(slot, to)
}

fn put_name_or_nothing(known: Known, name: &[u8], to: &mut Vec<u8>) -> Result<(), NoMemory>
    requires { length name.now < 2 ^ 32 }
    ensures { OnOk result (to.new.items ≡ to.old.items ++ name_or_nothing known name.now) }
{
    match known {
        Known::Old => put_byte(0, to),
        Known::New => put_measured(name, to),
    }
}
