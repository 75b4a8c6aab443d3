//! Reading types (URP specification, marshalling of types): a class, and for what is no simple type a slot or a slot and a name.
ghost use Rattle.std.specs.Prelude.{◌≡◌, option_map, OnOk, IfOk, nat_lt, Option};
ghost use Rattle.uno_model.specs.Sound.{IsSound};
ghost use Rattle.uno_entities.specs.TypeNames.{kind_of};
ghost use Rattle.urp_model.specs.NamedKinds.{class_numbered, simple_kind, kind_named};
ghost use Rattle.urp_model.specs.ReadingNames.{held_kind_at, written_kind, written_kind_at, unmarked, kind_behind, kind_at};
ghost use Rattle.urp_wire.specs.Gives.{Gives};

use super::parts::{byte, is_slot, slot, text_name, two_bytes};
use super::slots::{meaning, note};
use crate::{Reason, WireError};
use std::alloc::Global;
use uno_base::NoMemory;
use uno_types::{Registry, Text, TypeClass, TypeName};
use urp_cache::ReadCache;

/// What is added to a class where a name is written out behind it.
const MARK: u8 = 0x80;

/// A type of the registry, and the bytes behind it.
#[tactic(auto, unfolding(urp_model::specs::ReadingNames::kind_at, urp_model::specs::ReadingNames::kind_behind))]
pub fn read_kind<'a>(
    alloc: Global,
    registry: &Registry,
    types: &mut ReadCache<Text>,
    bytes: &'a [u8],
) -> Result<(TypeName, &'a [u8]), WireError>
    requires { IsSound registry.now }
    ensures { Gives (λ x. (kind_of x.0, types.new, x.1.now)) result (kind_at registry.now types.old bytes.now) }
{
    let (first, rest) = byte(bytes)?;
    let Some(class) = class_numbered(unmarked(first)) else {
        return Err(WireError::Bad(Reason::BadClass));
    };
    behind_class(alloc, registry, first < MARK, class, types, rest)
}

/// The class without the mark.
fn unmarked(first: u8) -> u8
    ensures { result ≡ unmarked first }
{
    if first < MARK { first } else { first - MARK }
}

/// The class of a number.
#[tactic(auto, using(urp_model::proofs::ClassLaws::class_told))]
fn class_numbered(number: u8) -> Option<TypeClass>
    ensures { result ≡ class_numbered number }
{
    TypeClass::of_code(number)
}

/// The simple type of a class.
fn simple_kind(class: TypeClass) -> Option<TypeName>
    ensures { option_map kind_of result ≡ simple_kind class }
{
    match class {
        TypeClass::Void => Some(TypeName::Void),
        TypeClass::Char => Some(TypeName::Char),
        TypeClass::Boolean => Some(TypeName::Boolean),
        TypeClass::Byte => Some(TypeName::Byte),
        TypeClass::Short => Some(TypeName::Short),
        TypeClass::UnsignedShort => Some(TypeName::UnsignedShort),
        TypeClass::Long => Some(TypeName::Long),
        TypeClass::UnsignedLong => Some(TypeName::UnsignedLong),
        TypeClass::Hyper => Some(TypeName::Hyper),
        TypeClass::UnsignedHyper => Some(TypeName::UnsignedHyper),
        TypeClass::Str => Some(TypeName::Str),
        TypeClass::Kind => Some(TypeName::Kind),
        TypeClass::Any => Some(TypeName::Any),
        TypeClass::Enum
        | TypeClass::Struct
        | TypeClass::Exception
        | TypeClass::Sequence
        | TypeClass::Interface => None,
    }
}

/// What stands behind a class: nothing where the type is simple, and then the class has no mark.
#[tactic(auto, unfolding(urp_model::specs::ReadingNames::kind_behind))]
fn behind_class<'a>(
    alloc: Global,
    registry: &Registry,
    is_plain: bool,
    class: TypeClass,
    types: &mut ReadCache<Text>,
    bytes: &'a [u8],
) -> Result<(TypeName, &'a [u8]), WireError>
    requires { IsSound registry.now }
    ensures { Gives (λ x. (kind_of x.0, types.new, x.1.now)) result (kind_behind registry.now is_plain class (simple_kind class) types.old bytes.now) }
{
    if let Some(kind) = simple_kind(class) {
        if !is_plain {
            drop(kind);
            return Err(WireError::Bad(Reason::BadClass));
        }
        return Ok((kind, bytes));
    }
    if is_plain {
        return held_kind(alloc, registry, class, types, bytes);
    }
    written_kind(alloc, registry, class, types, bytes)
}

/// A slot, which means the name of the type.
#[tactic(auto, unfolding(urp_model::specs::ReadingNames::held_kind_at))]
fn held_kind<'a>(
    alloc: Global,
    registry: &Registry,
    class: TypeClass,
    types: &ReadCache<Text>,
    bytes: &'a [u8],
) -> Result<(TypeName, &'a [u8]), WireError>
    requires { IsSound registry.now }
    ensures { Gives (λ x. (kind_of x.0, types.now, x.1.now)) result (held_kind_at registry.now class types.now bytes.now) }
{
    let (slot, rest) = slot(bytes)?;
    let Some(name) = meaning(types, slot) else {
        return Err(WireError::Bad(Reason::UnknownSlot));
    };
    let Some(kind) = kind_of_text(alloc, registry, class, name.as_str())? else {
        return Err(WireError::Bad(Reason::UnknownType));
    };
    Ok((kind, rest))
}

/// A slot and the name of the type, which the slot means from now on. The slot is judged behind the name.
#[tactic(auto, unfolding(urp_model::specs::ReadingNames::written_kind_at, urp_model::specs::ReadingNames::written_kind))]
fn written_kind<'a>(
    alloc: Global,
    registry: &Registry,
    class: TypeClass,
    types: &mut ReadCache<Text>,
    bytes: &'a [u8],
) -> Result<(TypeName, &'a [u8]), WireError>
    requires { IsSound registry.now }
    ensures { Gives (λ x. (kind_of x.0, types.new, x.1.now)) result (written_kind_at registry.now class types.old bytes.now) }
{
    let (slot, rest) = two_bytes(bytes)?;
    let (name, rest) = text_name(rest)?;
    if !is_slot(slot) {
        return Err(WireError::Bad(Reason::BadSlot));
    }
    let Some(kind) = kind_of_text(alloc, registry, class, name)? else {
        return Err(WireError::Bad(Reason::UnknownType));
    };
    let name = Text::of(alloc, name)?;
    note(types, slot, name);
    Ok((kind, rest))
}

/// The type of the registry of this class and name.
fn kind_of_text(
    alloc: Global,
    registry: &Registry,
    class: TypeClass,
    name: &str,
) -> Result<Option<TypeName>, NoMemory>
    requires { IsSound registry.now }
    ensures { IfOk result (λ found. option_map kind_of found ≡ kind_named registry.now class name.now) }
{
    let Some(kind) = registry.type_named(alloc, name)? else {
        return Ok(None);
    };
    if kind.class().code() != class.code() {
        drop(kind);
        return Ok(None);
    }
    Ok(Some(kind))
}
