//! Services: constructors, and the parts of those of the old form.
ghost use Rattle.std.specs.Prelude.{◌≡◌, ◌∷◌, [], IfOk, map};
ghost use Rattle.idl_entities.specs.Telling.{argument_told, arguments_told, constructor_told, constructors_told, name_told, part_told, parts_told, written_told};
ghost use Rattle.idl_meaning_model.specs.Meaning.{create, parameters_before, rest_parameter, with_create};
ghost use Rattle.idl_model.specs.Trees as tree;
ghost use Rattle.idl_trees.specs.Members as plain;
ghost use Rattle.idl_trees.specs.Names.{path_of};
ghost use Rattle.uno_entities.specs.Entities.{body_of, constructor_of, field_of, part_of};
ghost use Rattle.uno_model.specs.Entities as uno;

use crate::flags::flags_meant;
use crate::meanings::Meanings;
use crate::names::names_meant;
use idl_trees::{Constructor, ConstructorParameter, Path, Property, ServiceMember};
use std::alloc::Global;
use uno_base::NoMemory;
use uno_entities::{
    Body, Constructor as MeantConstructor, Field, Name, Part as MeantPart, Service,
};

/// The constructor of a service for which none is written.
const CREATE: &str = "create";

pub(crate) fn new_service_body<M: Meanings>(
    alloc: Global,
    meanings: &M,
    base: &Path,
    constructors: &[Constructor],
) -> Result<Body, NoMemory>
    ensures { IfOk result (λ meant. body_of meant ≡ uno.new_service (name_told (M.telling meanings.now) (path_of base.now)) (constructors_told (M.telling meanings.now) (map plain.constructor_of constructors.now))) }
{
    let constructors = constructors_meant(alloc, meanings, constructors)?;
    let base = meanings.name(base)?;
    Ok(Body::Service(Service::New { base, constructors }))
}

/// A service without constructors has one without parameters.
#[tactic(auto, unfolding(idl_meaning_model::specs::Meaning::with_create))]
fn constructors_meant<M: Meanings>(
    alloc: Global,
    meanings: &M,
    constructors: &[Constructor],
) -> Result<Vec<MeantConstructor>, NoMemory>
    ensures { IfOk result (λ meant. map constructor_of meant.items ≡ constructors_told (M.telling meanings.now) (map plain.constructor_of constructors.now)) }
{
    if constructors.is_empty() {
        return create_alone(alloc);
    }
    constructors_written(alloc, meanings, constructors)
}

fn create_alone(alloc: Global) -> Result<Vec<MeantConstructor>, NoMemory>
    ensures { IfOk result (λ meant. map constructor_of meant.items ≡ create ∷ []) }
{
    let name = Name::of(alloc, CREATE)?;
    let mut all = Vec::new(alloc);
    all.push(MeantConstructor {
        name,
        params: Vec::new(alloc),
        rest: None,
        raises: Vec::new(alloc),
    })?;
    Ok(all)
}

fn constructors_written<M: Meanings>(
    alloc: Global,
    meanings: &M,
    constructors: &[Constructor],
) -> Result<Vec<MeantConstructor>, NoMemory>
    ensures { IfOk result (λ meant. map constructor_of meant.items ≡ written_told (M.telling meanings.now) (map plain.constructor_of constructors.now)) }
{
    let mut meant = Vec::new(alloc);
    for constructor in constructors {
        let one = constructor_meant(alloc, meanings, constructor)?;
        meant.push(one)?;
    }
    Ok(meant)
}

fn constructor_meant<M: Meanings>(
    alloc: Global,
    meanings: &M,
    constructor: &Constructor,
) -> Result<MeantConstructor, NoMemory>
    ensures { IfOk result (λ meant. constructor_of meant ≡ constructor_told (M.telling meanings.now) (plain.constructor_of constructor.now)) }
{
    let parameters = constructor.parameters.as_slice();
    let params = arguments_meant(alloc, meanings, before_rest(parameters))?;
    let rest = rest_of(parameters)?;
    let raises = names_meant(alloc, meanings, constructor.raises.as_slice())?;
    let name = constructor.name.name.copy()?;
    Ok(MeantConstructor {
        name,
        params,
        rest,
        raises,
    })
}

/// The parameters before the one that takes the rest.
fn before_rest(parameters: &[ConstructorParameter]) -> &[ConstructorParameter]
    ensures { map plain.constructor_parameter_of result.now ≡ parameters_before (map plain.constructor_parameter_of parameters.now) }
{
    let Some((last, others)) = parameters.split_last() else {
        return parameters;
    };
    if last.rest {
        return others;
    }
    parameters
}

/// The name of the parameter that takes the rest: the last one, if it does.
fn rest_of(parameters: &[ConstructorParameter]) -> Result<Option<Name>, NoMemory>
    ensures { IfOk result (λ rest. rest ≡ rest_parameter (map plain.constructor_parameter_of parameters.now)) }
{
    let Some((last, _)) = parameters.split_last() else {
        return Ok(None);
    };
    if !last.rest {
        return Ok(None);
    }
    let name = last.name.name.copy()?;
    Ok(Some(name))
}

fn arguments_meant<M: Meanings>(
    alloc: Global,
    meanings: &M,
    parameters: &[ConstructorParameter],
) -> Result<Vec<Field>, NoMemory>
    ensures { IfOk result (λ meant. map field_of meant.items ≡ arguments_told (M.telling meanings.now) (map plain.constructor_parameter_of parameters.now)) }
{
    let mut meant = Vec::new(alloc);
    for parameter in parameters {
        let one = argument(meanings, parameter)?;
        meant.push(one)?;
    }
    Ok(meant)
}

fn argument<M: Meanings>(meanings: &M, parameter: &ConstructorParameter) -> Result<Field, NoMemory>
    ensures { IfOk result (λ meant. field_of meant ≡ argument_told (M.telling meanings.now) (plain.constructor_parameter_of parameter.now)) }
{
    let name = parameter.name.name.copy()?;
    let kind = meanings.kind(&parameter.kind)?;
    Ok(Field { name, kind })
}

// ---- services of the old form

pub(crate) fn old_service_body<M: Meanings>(
    alloc: Global,
    meanings: &M,
    members: &[ServiceMember],
) -> Result<Body, NoMemory>
    ensures { IfOk result (λ meant. body_of meant ≡ uno.old_service (parts_told (M.telling meanings.now) (map plain.service_member_of members.now))) }
{
    let parts = parts_meant(alloc, meanings, members)?;
    Ok(Body::Service(Service::Old { parts }))
}

fn parts_meant<M: Meanings>(
    alloc: Global,
    meanings: &M,
    members: &[ServiceMember],
) -> Result<Vec<MeantPart>, NoMemory>
    ensures { IfOk result (λ meant. map part_of meant.items ≡ parts_told (M.telling meanings.now) (map plain.service_member_of members.now)) }
{
    let mut parts = Vec::new(alloc);
    for member in members {
        let part = part_meant(meanings, member)?;
        parts.push(part)?;
    }
    Ok(parts)
}

fn part_meant<M: Meanings>(meanings: &M, member: &ServiceMember) -> Result<MeantPart, NoMemory>
    ensures { IfOk result (λ meant. part_of meant ≡ part_told (M.telling meanings.now) (plain.service_member_of member.now)) }
{
    match member {
        ServiceMember::Interface(part) => interface_part(meanings, part.optional, &part.path),
        ServiceMember::Service(part) => service_part(meanings, part.optional, &part.path),
        ServiceMember::Property(property) => property_part(meanings, property),
    }
}

fn interface_part<M: Meanings>(
    meanings: &M,
    optional: bool,
    path: &Path,
) -> Result<MeantPart, NoMemory>
    ensures { IfOk result (λ meant. part_of meant ≡ uno.face optional (name_told (M.telling meanings.now) (path_of path.now))) }
{
    let name = meanings.name(path)?;
    Ok(MeantPart::Interface { optional, name })
}

fn service_part<M: Meanings>(
    meanings: &M,
    optional: bool,
    path: &Path,
) -> Result<MeantPart, NoMemory>
    ensures { IfOk result (λ meant. part_of meant ≡ uno.subservice optional (name_told (M.telling meanings.now) (path_of path.now))) }
{
    let name = meanings.name(path)?;
    Ok(MeantPart::Service { optional, name })
}

fn property_part<M: Meanings>(meanings: &M, property: &Property) -> Result<MeantPart, NoMemory>
    ensures { IfOk result (λ meant. part_of meant ≡ part_told (M.telling meanings.now) (tree.property (plain.property_of property.now))) }
{
    let name = property.name.name.copy()?;
    let kind = meanings.kind(&property.kind)?;
    Ok(MeantPart::Property {
        name,
        flags: flags_meant(property.flags.as_slice()),
        kind,
    })
}
