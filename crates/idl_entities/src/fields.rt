//! Members of structs and exceptions.
ghost use Rattle.std.specs.Prelude.{◌≡◌, ◌++◌, ◌∷◌, [], IfOk, OnOk, map, option_map};
ghost use Rattle.idl_entities.specs.Members.{member_of};
ghost use Rattle.idl_entities.specs.Telling.{fields_told, line_told, name_told};
ghost use Rattle.idl_trees.specs.Members.{fields_of};
ghost use Rattle.idl_trees.specs.Names.{path_of};
ghost use Rattle.uno_entities.specs.Entities.{body_of, field_of};
ghost use Rattle.uno_entities.specs.TypeNames.{kind_of};
ghost use Rattle.uno_model.specs.Entities as uno;

use crate::meanings::Meanings;
use crate::names::name_if_any;
use idl_trees::{Fields, Id, Path};
use std::alloc::Global;
use uno_base::NoMemory;
use uno_entities::{Body, Field, TypeName};

pub(crate) fn struct_body<M: Meanings>(
    alloc: Global,
    meanings: &M,
    base: &Option<Path>,
    fields: &[Fields],
) -> Result<Body, NoMemory>
    ensures { IfOk result (λ meant. body_of meant ≡ uno.struct (option_map (name_told (M.telling meanings.now)) (option_map path_of base.now)) (fields_told (M.telling meanings.now) (map fields_of fields.now))) }
{
    let members = fields_meant(alloc, meanings, fields)?;
    let base = name_if_any(meanings, base)?;
    Ok(Body::Struct { base, members })
}

pub(crate) fn exception_body<M: Meanings>(
    alloc: Global,
    meanings: &M,
    base: &Option<Path>,
    fields: &[Fields],
) -> Result<Body, NoMemory>
    ensures { IfOk result (λ meant. body_of meant ≡ uno.exception (option_map (name_told (M.telling meanings.now)) (option_map path_of base.now)) (fields_told (M.telling meanings.now) (map fields_of fields.now))) }
{
    let members = fields_meant(alloc, meanings, fields)?;
    let base = name_if_any(meanings, base)?;
    Ok(Body::Exception { base, members })
}

fn fields_meant<M: Meanings>(
    alloc: Global,
    meanings: &M,
    fields: &[Fields],
) -> Result<Vec<Field>, NoMemory>
    ensures { IfOk result (λ members. map field_of members.items ≡ fields_told (M.telling meanings.now) (map fields_of fields.now)) }
{
    let mut members = Vec::new(alloc);
    for line in fields {
        add_line(alloc, meanings, &mut members, line)?;
    }
    Ok(members)
}

fn add_line<M: Meanings>(
    alloc: Global,
    meanings: &M,
    members: &mut Vec<Field>,
    line: &Fields,
) -> Result<(), NoMemory>
    ensures { OnOk result (map field_of members.new.items ≡ map field_of members.old.items ++ line_told (M.telling meanings.now) (fields_of line.now)) }
{
    let kind = meanings.kind(&line.kind)?;
    add_members(alloc, members, &kind, line.names.as_slice())?;
    Ok(())
}

/// One member for each name.
fn add_members(
    alloc: Global,
    members: &mut Vec<Field>,
    kind: &TypeName,
    names: &[Id],
) -> Result<(), NoMemory>
    ensures { OnOk result (map field_of members.new.items ≡ map field_of members.old.items ++ map (member_of (kind_of kind.now)) names.now) }
{
    for id in names {
        let member = member(alloc, kind, id)?;
        members.push(member)?;
    }
    Ok(())
}

fn member(alloc: Global, kind: &TypeName, id: &Id) -> Result<Field, NoMemory>
    ensures { IfOk result (λ member. field_of member ≡ member_of (kind_of kind.now) id.now) }
{
    let name = id.name.copy()?;
    let kind = kind.copy(alloc)?;
    Ok(Field { name, kind })
}
