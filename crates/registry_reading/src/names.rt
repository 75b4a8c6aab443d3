//! Names that stand alone.
ghost use Rattle.std.specs.Prelude.{◌≡◌, IfOk, OnOk, option_map, map};
ghost use Rattle.registry_reading_model.specs.Bodies.{pushed};
ghost use Rattle.registry_reading_model.specs.Words.{entity_name_of, identifier_alone};
ghost use Rattle.registry_reading.specs.Taken.{IsTaken};

use crate::heads::Heads;
use crate::pushing::push_read;
use std::alloc::Global;
use uno_base::NoMemory;
use uno_types::{Name, is_identifier};

/// The name of an entity, alone.
pub(crate) fn entity_name(
    alloc: Global,
    heads: &Heads<'_>,
    text: &str,
) -> Result<Option<Name>, NoMemory>
    ensures { IfOk result (λ name. name ≡ entity_name_of text.now) }
{
    if !heads.is_entity_name(text) {
        return Ok(None);
    }
    Ok(Some(Name::of(alloc, text)?))
}

/// An identifier, alone.
pub(crate) fn identifier_alone(alloc: Global, text: &str) -> Result<Option<Name>, NoMemory>
    ensures { IfOk result (λ name. name ≡ identifier_alone text.now) }
{
    if !is_identifier(text) {
        return Ok(None);
    }
    Ok(Some(Name::of(alloc, text)?))
}

/// The name of an entity behind others.
pub(crate) fn push_entity_name(
    alloc: Global,
    heads: &Heads<'_>,
    names: &mut Vec<Name>,
    text: &str,
) -> Result<bool, NoMemory>
    ensures { IfOk result (λ taken. IsTaken taken names.new.items (pushed names.old.items (entity_name_of text.now))) }
{
    let read = entity_name(alloc, heads, text)?;
    push_read(names, read)
}
