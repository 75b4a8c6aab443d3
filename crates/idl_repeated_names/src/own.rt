//! The names that an entity declares itself: the functions of an interface, or the members of a struct or an exception.
ghost use Rattle.std.specs.List.{flat_map};
ghost use Rattle.std.specs.Prelude.{◌++◌, ◌∷◌, [], OnOk, map};
ghost use Rattle.idl_repeated_names.specs.Meeting.{Meets, accessors_named, at_accessor, at_id, at_nowhere, attribute_named, calls_named, line_named, members_named, method_named, methods_named, own_fields_named, own_functions_named};
ghost use Rattle.idl_trees.specs.Members.{attribute_of, fields_of, interface_member_of};
ghost use Rattle.idl_trees.specs.Names.{id_of};
ghost use Rattle.idl_trees.specs.Trees.{declaration_of};
ghost use Rattle.uno_entities.specs.Entities.{body_of, field_of, member_of};

use crate::twins::{CALL, GET, SET, Twins};
use idl_places::is_read_only;
use idl_trees::{Attribute, Declaration, Fields, Id, InterfaceMember};
use uno_base::NoMemory;
use uno_entities::{Body, Field, Member, Name};

/// The functions that a declaration declares.
pub(crate) fn meet_own_functions<'a>(
    twins: &mut Twins<'a>,
    body: &'a Declaration,
) -> Result<(), NoMemory>
    ensures { OnOk result (Meets twins.old twins.new (own_functions_named (declaration_of body.now))) }
{
    match body {
        Declaration::Interface(_, members) => meet_functions(twins, members.as_slice()),
        Declaration::Forward => Ok(()),
        Declaration::Struct(_, _) => Ok(()),
        Declaration::Exception(_, _) => Ok(()),
        Declaration::Enum(_) => Ok(()),
        Declaration::Constants(_) => Ok(()),
        Declaration::Typedef(_) => Ok(()),
        Declaration::NewService(_, _) => Ok(()),
        Declaration::OldService(_) => Ok(()),
        Declaration::NewSingleton(_) => Ok(()),
        Declaration::OldSingleton(_) => Ok(()),
    }
}

/// The members of a struct or an exception that a declaration declares.
pub(crate) fn meet_own_fields<'a>(
    twins: &mut Twins<'a>,
    body: &'a Declaration,
) -> Result<(), NoMemory>
    ensures { OnOk result (Meets twins.old twins.new (own_fields_named (declaration_of body.now))) }
{
    match body {
        Declaration::Struct(_, fields) => meet_fields(twins, fields.as_slice()),
        Declaration::Exception(_, fields) => meet_fields(twins, fields.as_slice()),
        Declaration::Forward => Ok(()),
        Declaration::Interface(_, _) => Ok(()),
        Declaration::Enum(_) => Ok(()),
        Declaration::Constants(_) => Ok(()),
        Declaration::Typedef(_) => Ok(()),
        Declaration::NewService(_, _) => Ok(()),
        Declaration::OldService(_) => Ok(()),
        Declaration::NewSingleton(_) => Ok(()),
        Declaration::OldSingleton(_) => Ok(()),
    }
}

/// Meets a name that is written in the files.
pub(crate) fn meet_id<'a>(twins: &mut Twins<'a>, id: &'a Id) -> Result<(), NoMemory>
    ensures { OnOk result (Meets twins.old twins.new (at_id (id_of id.now) ∷ [])) }
{
    meet_accessor(twins, CALL, id)
}

fn meet_accessor<'a>(twins: &mut Twins<'a>, number: u8, id: &'a Id) -> Result<(), NoMemory>
    ensures { OnOk result (Meets twins.old twins.new (at_accessor number (id_of id.now) ∷ [])) }
{
    twins.meet((number, id.name.as_str()), Some(id.place))?;
    Ok(())
}

// ---- interfaces

/// Attributes first, each its `get` and its `set`, and then methods.
fn meet_functions<'a>(twins: &mut Twins<'a>, members: &'a [InterfaceMember]) -> Result<(), NoMemory>
    ensures { OnOk result (Meets twins.old twins.new (flat_map accessors_named (map interface_member_of members.now) ++ flat_map calls_named (map interface_member_of members.now))) }
{
    meet_attributes(twins, members)?;
    meet_methods(twins, members)?;
    Ok(())
}

fn meet_attributes<'a>(
    twins: &mut Twins<'a>,
    members: &'a [InterfaceMember],
) -> Result<(), NoMemory>
    ensures { OnOk result (Meets twins.old twins.new (flat_map accessors_named (map interface_member_of members.now))) }
{
    for member in members {
        meet_attribute(twins, member)?;
    }
    Ok(())
}

fn meet_attribute<'a>(twins: &mut Twins<'a>, member: &'a InterfaceMember) -> Result<(), NoMemory>
    ensures { OnOk result (Meets twins.old twins.new (accessors_named (interface_member_of member.now))) }
{
    match member {
        InterfaceMember::Attribute(attribute) => meet_accessors(twins, attribute),
        InterfaceMember::Base(_) => Ok(()),
        InterfaceMember::Method(_) => Ok(()),
    }
}

fn meet_accessors<'a>(twins: &mut Twins<'a>, attribute: &'a Attribute) -> Result<(), NoMemory>
    ensures { OnOk result (Meets twins.old twins.new (attribute_named (attribute_of attribute.now))) }
{
    meet_accessor(twins, GET, &attribute.name)?;
    if is_read_only(attribute.flags.as_slice()) {
        return Ok(());
    }
    meet_accessor(twins, SET, &attribute.name)?;
    Ok(())
}

fn meet_methods<'a>(twins: &mut Twins<'a>, members: &'a [InterfaceMember]) -> Result<(), NoMemory>
    ensures { OnOk result (Meets twins.old twins.new (flat_map calls_named (map interface_member_of members.now))) }
{
    for member in members {
        meet_method(twins, member)?;
    }
    Ok(())
}

fn meet_method<'a>(twins: &mut Twins<'a>, member: &'a InterfaceMember) -> Result<(), NoMemory>
    ensures { OnOk result (Meets twins.old twins.new (calls_named (interface_member_of member.now))) }
{
    match member {
        InterfaceMember::Method(method) => meet_id(twins, &method.name),
        InterfaceMember::Base(_) => Ok(()),
        InterfaceMember::Attribute(_) => Ok(()),
    }
}

// ---- structs and exceptions

fn meet_fields<'a>(twins: &mut Twins<'a>, fields: &'a [Fields]) -> Result<(), NoMemory>
    ensures { OnOk result (Meets twins.old twins.new (flat_map line_named (map fields_of fields.now))) }
{
    for line in fields {
        meet_line(twins, line.names.as_slice())?;
    }
    Ok(())
}

fn meet_line<'a>(twins: &mut Twins<'a>, names: &'a [Id]) -> Result<(), NoMemory>
    ensures { OnOk result (Meets twins.old twins.new (map at_id (map id_of names.now))) }
{
    for name in names {
        meet_id(twins, name)?;
    }
    Ok(())
}

// ---- what is built in

/// The methods of a built-in interface.
pub(crate) fn meet_methods_in<'a>(twins: &mut Twins<'a>, body: &'a Body) -> Result<(), NoMemory>
    ensures { OnOk result (Meets twins.old twins.new (methods_named (body_of body.now))) }
{
    match body {
        Body::Interface { members, .. } => meet_members(twins, members.as_slice()),
        Body::Struct { .. } => Ok(()),
        Body::Exception { .. } => Ok(()),
        Body::Enum { .. } => Ok(()),
        Body::Constants { .. } => Ok(()),
        Body::Typedef { .. } => Ok(()),
        Body::Service(_) => Ok(()),
        Body::Singleton(_) => Ok(()),
    }
}

/// The members of a built-in struct or exception.
pub(crate) fn meet_members_in<'a>(twins: &mut Twins<'a>, body: &'a Body) -> Result<(), NoMemory>
    ensures { OnOk result (Meets twins.old twins.new (members_named (body_of body.now))) }
{
    match body {
        Body::Struct { members, .. } => meet_all(twins, members.as_slice()),
        Body::Exception { members, .. } => meet_all(twins, members.as_slice()),
        Body::Interface { .. } => Ok(()),
        Body::Enum { .. } => Ok(()),
        Body::Constants { .. } => Ok(()),
        Body::Typedef { .. } => Ok(()),
        Body::Service(_) => Ok(()),
        Body::Singleton(_) => Ok(()),
    }
}

fn meet_members<'a>(twins: &mut Twins<'a>, members: &'a [Member]) -> Result<(), NoMemory>
    ensures { OnOk result (Meets twins.old twins.new (flat_map method_named (map member_of members.now))) }
{
    for member in members {
        meet_member(twins, member)?;
    }
    Ok(())
}

fn meet_member<'a>(twins: &mut Twins<'a>, member: &'a Member) -> Result<(), NoMemory>
    ensures { OnOk result (Meets twins.old twins.new (method_named (member_of member.now))) }
{
    match member {
        Member::Method(method) => meet_name(twins, &method.name),
        Member::Attribute(_) => Ok(()),
    }
}

fn meet_all<'a>(twins: &mut Twins<'a>, members: &'a [Field]) -> Result<(), NoMemory>
    ensures { OnOk result (Meets twins.old twins.new (map (λ f. at_nowhere f.name) (map field_of members.now))) }
{
    for member in members {
        meet_name(twins, &member.name)?;
    }
    Ok(())
}

fn meet_name<'a>(twins: &mut Twins<'a>, name: &'a Name) -> Result<(), NoMemory>
    ensures { OnOk result (Meets twins.old twins.new (at_nowhere name.now ∷ [])) }
{
    twins.meet((CALL, name.as_str()), None)?;
    Ok(())
}
