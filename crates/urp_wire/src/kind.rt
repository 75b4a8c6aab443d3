//! Types (URP specification, marshalling of types).
ghost use Rattle.std.specs.Prelude.{◌≡◌, ◌<◌, ◌^◌, ◌++◌, length, OnOk};
ghost use Rattle.uno_model.specs.Kinds as kd;
ghost use Rattle.uno_model.specs.Kinds.{name_of};
ghost use Rattle.uno_model.specs.TypeClasses.{class_code, class_of};
ghost use Rattle.uno_entities.specs.TypeNames.{kind_of};
ghost use Rattle.urp_model.specs.Held.{used};
ghost use Rattle.urp_model.specs.NamedKinds.{is_simple};
ghost use Rattle.urp_model.specs.Writing.{kind_spelling, kind_after};
ghost use Rattle.urp_wire.specs.Written.{class_and_name, named_spelling, is_sequence};

use crate::parts::{put_byte, put_measured, put_slot};
use std::alloc::Global;
use uno_base::NoMemory;
use uno_types::{Name, TypeName};
use urp_cache::{Known, SendCache};

/// What is added to a class where a name is written out behind it.
const MARK: u8 = 0x80;

/// The class of interfaces.
const INTERFACE: u8 = 22;

/// A type: its class, and for what is no simple type its slot or its slot and its name.
#[tactic(auto, unfolding(urp_model::specs::Writing::kind_after))]
pub fn write_kind(
    alloc: Global,
    types: &mut SendCache,
    kind: &TypeName,
    to: &mut Vec<u8>,
) -> Result<(), NoMemory>
    requires { length (name_of (kind_of kind.now)) < 2 ^ 32 }
    ensures bytes { OnOk result (to.new.items ≡ to.old.items ++ kind_spelling (kind_of kind.now) types.old) }
    ensures names { OnOk result (types.new ≡ kind_after (kind_of kind.now) types.old) }
{
    let class = class_byte(kind);
    if is_simple(kind) {
        return put_byte(class, to);
    }
    if !is_sequence(kind) {
        return put_named(types, class, kind.front().as_bytes(), to);
    }
    let mut name = Vec::new(alloc);
    kind.push_name(&mut name)?;
    let written = put_named(types, class, &name, to);
    drop(name);
    written
}

/// An interface by its name, which is not copied.
#[tactic(auto, unfolding(urp_model::specs::Writing::kind_spelling, urp_model::specs::Writing::kind_written, urp_model::specs::Writing::kind_after))]
pub fn write_interface(types: &mut SendCache, face: &Name, to: &mut Vec<u8>) -> Result<(), NoMemory>
    requires { length face.now < 2 ^ 32 }
    ensures bytes { OnOk result (to.new.items ≡ to.old.items ++ kind_spelling (kd.interface face.now) types.old) }
    ensures names { OnOk result (types.new ≡ kind_after (kd.interface face.now) types.old) }
{
    put_named(types, INTERFACE, face.as_str().as_bytes(), to)
}

/// A class with its name or the slot that the name has.
fn put_named(
    types: &mut SendCache,
    class: u8,
    name: &[u8],
    to: &mut Vec<u8>,
) -> Result<(), NoMemory>
    requires class { class < 128 }
    requires long { length name.now < 2 ^ 32 }
    ensures bytes { OnOk result (to.new.items ≡ to.old.items ++ named_spelling class name.now types.old) }
    ensures names { OnOk result (types.new ≡ used name.now types.old) }
{
    let (slot, known) = types.slot_of(name)?;
    put_class_and_name(known, class, slot, name, to)
}

fn put_class_and_name(
    known: Known,
    class: u8,
    slot: u16,
    name: &[u8],
    to: &mut Vec<u8>,
) -> Result<(), NoMemory>
    requires class { class < 128 }
    requires long { length name.now < 2 ^ 32 }
    ensures { OnOk result (to.new.items ≡ to.old.items ++ class_and_name known class slot name.now) }
{
    match known {
        Known::Old => {
            put_byte(class, to)?;
            put_slot(slot, to)
        }
        Known::New => {
            put_byte(class + MARK, to)?;
            put_slot(slot, to)?;
            put_measured(name, to)
        }
    }
}

#[tactic(auto, using(urp_model::proofs::ClassLaws::class_below))]
fn class_byte(kind: &TypeName) -> u8
    ensures same { result ≡ class_code (class_of (kind_of kind.now)) }
    ensures low { result < 128 }
{
    kind.class().code()
}

fn is_simple(kind: &TypeName) -> bool
    ensures { result ≡ is_simple (kind_of kind.now) }
{
    !matches!(
        kind,
        TypeName::Enum(_)
            | TypeName::Struct(_)
            | TypeName::Exception(_)
            | TypeName::Interface(_)
            | TypeName::Sequence(_)
    )
}

fn is_sequence(kind: &TypeName) -> bool
    ensures { result ≡ is_sequence (kind_of kind.now) }
{
    matches!(kind, TypeName::Sequence(_))
}
