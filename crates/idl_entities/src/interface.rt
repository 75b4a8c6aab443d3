//! Interfaces: bases, attributes and methods.
ghost use Rattle.std.specs.Prelude.{◌≡◌, ◌++◌, ◌∷◌, [], IfOk, OnOk, not, map, option_map};
ghost use Rattle.std.specs.List.{filter_map, list_any};
ghost use Rattle.std.specs.Option.{option_to_list};
ghost use Rattle.idl_entities.specs.Telling.{attribute_told, base_told, bases_told, member_told, members_told, method_told, name_told, needed_base, parameter_told, parameters_told};
ghost use Rattle.idl_meaning_model.specs.Meaning.{with_root};
ghost use Rattle.idl_trees.specs.Members.{attribute_of, interface_member_of, method_of, parameter_of};
ghost use Rattle.idl_trees.specs.Names.{path_of};
ghost use Rattle.uno_entities.specs.Entities as entity;
ghost use Rattle.uno_entities.specs.Entities.{base_of, body_of, member_of, param_of};
ghost use Rattle.uno_model.specs.Entities as uno;

use crate::flags::is_read_only;
use crate::meanings::Meanings;
use crate::names::{names_meant, raised_meant};
use idl_trees::{Attribute, InterfaceMember, Method, Parameter, Path};
use std::alloc::Global;
use uno_base::NoMemory;
use uno_entities::{
    Attribute as MeantAttribute, Base, Body, Member, Method as MeantMethod, Name, Param,
    X_INTERFACE,
};

/// An interface with a base behind `:`, or with bases among its members.
pub(crate) fn interface_body<M: Meanings>(
    alloc: Global,
    meanings: &M,
    base: &Option<Path>,
    members: &[InterfaceMember],
) -> Result<Body, NoMemory>
    ensures { IfOk result (λ meant. body_of meant ≡ uno.interface (with_root (bases_told (M.telling meanings.now) (option_map path_of base.now) (map interface_member_of members.now))) (members_told (M.telling meanings.now) (map interface_member_of members.now))) }
{
    let bases = bases_meant(alloc, meanings, base, members)?;
    let members = members_meant(alloc, meanings, members)?;
    Ok(Body::Interface { bases, members })
}

// ---- bases

/// Without a base that is not optional it has the interface on which all others stand before the others.
fn bases_meant<M: Meanings>(
    alloc: Global,
    meanings: &M,
    base: &Option<Path>,
    members: &[InterfaceMember],
) -> Result<Vec<Base>, NoMemory>
    ensures { IfOk result (λ bases. map base_of bases.items ≡ with_root (bases_told (M.telling meanings.now) (option_map path_of base.now) (map interface_member_of members.now))) }
{
    let mut bases = Vec::new(alloc);
    add_base(meanings, &mut bases, base)?;
    add_bases(meanings, &mut bases, members)?;
    add_root(alloc, &mut bases)?;
    Ok(bases)
}

/// The base behind `:`, if there is one.
fn add_base<M: Meanings>(
    meanings: &M,
    bases: &mut Vec<Base>,
    base: &Option<Path>,
) -> Result<(), NoMemory>
    ensures { OnOk result (map base_of bases.new.items ≡ map base_of bases.old.items ++ map (needed_base (M.telling meanings.now)) (option_to_list (option_map path_of base.now))) }
{
    match base {
        Some(path) => add_one_base(meanings, bases, false, path),
        None => Ok(()),
    }
}

/// The bases among members.
fn add_bases<M: Meanings>(
    meanings: &M,
    bases: &mut Vec<Base>,
    members: &[InterfaceMember],
) -> Result<(), NoMemory>
    ensures { OnOk result (map base_of bases.new.items ≡ map base_of bases.old.items ++ filter_map (base_told (M.telling meanings.now)) (map interface_member_of members.now)) }
{
    for member in members {
        add_base_in(meanings, bases, member)?;
    }
    Ok(())
}

fn add_base_in<M: Meanings>(
    meanings: &M,
    bases: &mut Vec<Base>,
    member: &InterfaceMember,
) -> Result<(), NoMemory>
    ensures { OnOk result (map base_of bases.new.items ≡ map base_of bases.old.items ++ option_to_list (base_told (M.telling meanings.now) (interface_member_of member.now))) }
{
    match member {
        InterfaceMember::Base(part) => add_one_base(meanings, bases, part.optional, &part.path),
        InterfaceMember::Attribute(_) => Ok(()),
        InterfaceMember::Method(_) => Ok(()),
    }
}

fn add_one_base<M: Meanings>(
    meanings: &M,
    bases: &mut Vec<Base>,
    optional: bool,
    path: &Path,
) -> Result<(), NoMemory>
    ensures { OnOk result (map base_of bases.new.items ≡ map base_of bases.old.items ++ record { optional = optional; name = name_told (M.telling meanings.now) (path_of path.now) } ∷ []) }
{
    let name = meanings.name(path)?;
    bases.push(Base { optional, name })?;
    Ok(())
}

/// The interface on which all others stand before the others, unless one of them is not optional.
fn add_root(alloc: Global, bases: &mut Vec<Base>) -> Result<(), NoMemory>
    ensures { OnOk result (map base_of bases.new.items ≡ with_root (map base_of bases.old.items)) }
{
    if has_mandatory(bases.as_slice()) {
        return Ok(());
    }
    let name = Name::of(alloc, X_INTERFACE)?;
    bases.insert(
        0,
        Base {
            optional: false,
            name,
        },
    )?;
    Ok(())
}

fn has_mandatory(bases: &[Base]) -> bool
    ensures { result ≡ list_any (λ b. not b.optional) bases.now }
{
    bases.iter().any(|base| !base.optional)
}

// ---- members

fn members_meant<M: Meanings>(
    alloc: Global,
    meanings: &M,
    members: &[InterfaceMember],
) -> Result<Vec<Member>, NoMemory>
    ensures { IfOk result (λ meant. map member_of meant.items ≡ members_told (M.telling meanings.now) (map interface_member_of members.now)) }
{
    let mut meant = Vec::new(alloc);
    for member in members {
        add_member(alloc, meanings, &mut meant, member)?;
    }
    Ok(meant)
}

fn add_member<M: Meanings>(
    alloc: Global,
    meanings: &M,
    meant: &mut Vec<Member>,
    member: &InterfaceMember,
) -> Result<(), NoMemory>
    ensures { OnOk result (map member_of meant.new.items ≡ map member_of meant.old.items ++ member_told (M.telling meanings.now) (interface_member_of member.now)) }
{
    match member {
        InterfaceMember::Base(_) => Ok(()),
        InterfaceMember::Attribute(attribute) => {
            add_attribute(alloc, meanings, meant, attribute)
        }
        InterfaceMember::Method(method) => add_method(alloc, meanings, meant, method),
    }
}

fn add_attribute<M: Meanings>(
    alloc: Global,
    meanings: &M,
    meant: &mut Vec<Member>,
    attribute: &Attribute,
) -> Result<(), NoMemory>
    ensures { OnOk result (map member_of meant.new.items ≡ map member_of meant.old.items ++ uno.attribute (attribute_told (M.telling meanings.now) (attribute_of attribute.now)) ∷ []) }
{
    let attribute = attribute_meant(alloc, meanings, attribute)?;
    meant.push(Member::Attribute(attribute))?;
    Ok(())
}

fn add_method<M: Meanings>(
    alloc: Global,
    meanings: &M,
    meant: &mut Vec<Member>,
    method: &Method,
) -> Result<(), NoMemory>
    ensures { OnOk result (map member_of meant.new.items ≡ map member_of meant.old.items ++ uno.method (method_told (M.telling meanings.now) (method_of method.now)) ∷ []) }
{
    let method = method_meant(alloc, meanings, method)?;
    meant.push(Member::Method(method))?;
    Ok(())
}

fn attribute_meant<M: Meanings>(
    alloc: Global,
    meanings: &M,
    attribute: &Attribute,
) -> Result<MeantAttribute, NoMemory>
    ensures { IfOk result (λ meant. entity.attribute_of meant ≡ attribute_told (M.telling meanings.now) (attribute_of attribute.now)) }
{
    let get_raises = raised_meant(alloc, meanings, &attribute.get)?;
    let set_raises = raised_meant(alloc, meanings, &attribute.set)?;
    let name = attribute.name.name.copy()?;
    let kind = meanings.kind(&attribute.kind)?;
    Ok(MeantAttribute {
        name,
        read_only: is_read_only(attribute.flags.as_slice()),
        kind,
        get_raises,
        set_raises,
    })
}

fn method_meant<M: Meanings>(
    alloc: Global,
    meanings: &M,
    method: &Method,
) -> Result<MeantMethod, NoMemory>
    ensures { IfOk result (λ meant. entity.method_of meant ≡ method_told (M.telling meanings.now) (method_of method.now)) }
{
    let params = parameters_meant(alloc, meanings, method.parameters.as_slice())?;
    let raises = names_meant(alloc, meanings, method.raises.as_slice())?;
    let name = method.name.name.copy()?;
    let result = meanings.kind(&method.result)?;
    Ok(MeantMethod {
        name,
        oneway: method.oneway,
        result,
        params,
        raises,
    })
}

fn parameters_meant<M: Meanings>(
    alloc: Global,
    meanings: &M,
    parameters: &[Parameter],
) -> Result<Vec<Param>, NoMemory>
    ensures { IfOk result (λ meant. map param_of meant.items ≡ parameters_told (M.telling meanings.now) (map parameter_of parameters.now)) }
{
    let mut meant = Vec::new(alloc);
    for parameter in parameters {
        let one = parameter_meant(meanings, parameter)?;
        meant.push(one)?;
    }
    Ok(meant)
}

fn parameter_meant<M: Meanings>(meanings: &M, parameter: &Parameter) -> Result<Param, NoMemory>
    ensures { IfOk result (λ meant. param_of meant ≡ parameter_told (M.telling meanings.now) (parameter_of parameter.now)) }
{
    let name = parameter.name.name.copy()?;
    let kind = meanings.kind(&parameter.kind)?;
    Ok(Param {
        way: parameter.way,
        name,
        kind,
    })
}
