//! The types that are not served: `float` and `double`.
ghost use Rattle.std.specs.List.{flat_map};
ghost use Rattle.std.specs.Prelude.{◌≡◌, ◌∷◌, [], IfOk, OnOk, map};
ghost use Rattle.idl_meaning_model.specs.Uses as model;
ghost use Rattle.idl_names.specs.Floats.{AddsPlaces, places_of};
ghost use Rattle.idl_trees.specs.Members as plain;
ghost use Rattle.idl_trees.specs.Names.{place_of};
ghost use Rattle.idl_trees.specs.Trees.{declaration_of};
ghost use Rattle.idl_trees.specs.Types.{type_of};

use idl_trees::{
    Constant, Constructor, ConstructorParameter, Declaration, Fields, InterfaceMember, Method,
    Parameter, Place, ServiceMember, Simple, WrittenType,
};
use std::alloc::Global;
use uno_base::NoMemory;

/// The places of `float` and `double` in the types that a declaration writes.
pub fn floats_in(alloc: Global, body: &Declaration) -> Result<Vec<Place>, NoMemory>
    ensures { IfOk result (λ places. places_of places.items ≡ flat_map model.floats (model.types_in (declaration_of body.now))) }
{
    let mut places = Vec::new(alloc);
    add_declaration(&mut places, body)?;
    Ok(places)
}

#[tactic(auto, unfolding(idl_meaning_model::specs::Uses::types_in))]
fn add_declaration(places: &mut Vec<Place>, body: &Declaration) -> Result<(), NoMemory>
    ensures { OnOk result (AddsPlaces places.old.items (flat_map model.floats (model.types_in (declaration_of body.now))) places.new.items) }
{
    match body {
        Declaration::Forward => Ok(()),
        Declaration::Interface(_, members) => add_members(places, members.as_slice()),
        Declaration::Struct(_, fields) => add_fields(places, fields.as_slice()),
        Declaration::Exception(_, fields) => add_fields(places, fields.as_slice()),
        Declaration::Enum(_) => Ok(()),
        Declaration::Constants(constants) => add_constants(places, constants.as_slice()),
        Declaration::Typedef(target) => add_type(places, target),
        Declaration::NewService(_, constructors) => {
            add_constructors(places, constructors.as_slice())
        }
        Declaration::OldService(members) => add_service_members(places, members.as_slice()),
        Declaration::NewSingleton(_) => Ok(()),
        Declaration::OldSingleton(_) => Ok(()),
    }
}

// ---- one type

#[tactic(auto, unfolding(idl_meaning_model::specs::Uses::floats))]
fn add_type(places: &mut Vec<Place>, kind: &WrittenType) -> Result<(), NoMemory>
    ensures { OnOk result (AddsPlaces places.old.items (model.floats (type_of kind.now)) places.new.items) }
{
    match kind {
        WrittenType::Simple(place, Simple::Float) => add_place(places, *place),
        WrittenType::Simple(place, Simple::Double) => add_place(places, *place),
        WrittenType::Simple(_, _) => Ok(()),
        WrittenType::Named(_) => Ok(()),
        WrittenType::SequenceOf(_, inner) => add_type(places, inner),
    }
}

fn add_place(places: &mut Vec<Place>, place: Place) -> Result<(), NoMemory>
    ensures { OnOk result (AddsPlaces places.old.items (place_of place ∷ []) places.new.items) }
{
    places.push(place)?;
    Ok(())
}

// ---- what stands in declarations

fn add_fields(places: &mut Vec<Place>, fields: &[Fields]) -> Result<(), NoMemory>
    ensures { OnOk result (AddsPlaces places.old.items (flat_map model.floats (map (λ m. m.type) (map plain.fields_of fields.now))) places.new.items) }
{
    for field in fields {
        add_type(places, &field.kind)?;
    }
    Ok(())
}

fn add_constants(places: &mut Vec<Place>, constants: &[Constant]) -> Result<(), NoMemory>
    ensures { OnOk result (AddsPlaces places.old.items (flat_map model.floats (map (λ c. c.type) (map plain.constant_of constants.now))) places.new.items) }
{
    for constant in constants {
        add_type(places, &constant.kind)?;
    }
    Ok(())
}

// ---- members of interfaces

fn add_members(places: &mut Vec<Place>, members: &[InterfaceMember]) -> Result<(), NoMemory>
    ensures { OnOk result (AddsPlaces places.old.items (flat_map model.floats (flat_map model.member_types (map plain.interface_member_of members.now))) places.new.items) }
{
    for member in members {
        add_member(places, member)?;
    }
    Ok(())
}

fn add_member(places: &mut Vec<Place>, member: &InterfaceMember) -> Result<(), NoMemory>
    ensures { OnOk result (AddsPlaces places.old.items (flat_map model.floats (model.member_types (plain.interface_member_of member.now))) places.new.items) }
{
    match member {
        InterfaceMember::Base(_) => Ok(()),
        InterfaceMember::Attribute(attribute) => add_type(places, &attribute.kind),
        InterfaceMember::Method(method) => add_method(places, method),
    }
}

fn add_method(places: &mut Vec<Place>, method: &Method) -> Result<(), NoMemory>
    ensures { OnOk result (AddsPlaces places.old.items (flat_map model.floats (type_of method.now.result ∷ map (λ p. p.type) (map plain.parameter_of method.now.parameters.items))) places.new.items) }
{
    add_type(places, &method.result)?;
    add_parameters(places, method.parameters.as_slice())
}

fn add_parameters(places: &mut Vec<Place>, parameters: &[Parameter]) -> Result<(), NoMemory>
    ensures { OnOk result (AddsPlaces places.old.items (flat_map model.floats (map (λ p. p.type) (map plain.parameter_of parameters.now))) places.new.items) }
{
    for parameter in parameters {
        add_type(places, &parameter.kind)?;
    }
    Ok(())
}

// ---- members of services

fn add_constructors(places: &mut Vec<Place>, constructors: &[Constructor]) -> Result<(), NoMemory>
    ensures { OnOk result (AddsPlaces places.old.items (flat_map model.floats (flat_map (λ c. map (λ p. p.type) c.parameters) (map plain.constructor_of constructors.now))) places.new.items) }
{
    for constructor in constructors {
        add_constructor_parameters(places, constructor.parameters.as_slice())?;
    }
    Ok(())
}

fn add_constructor_parameters(
    places: &mut Vec<Place>,
    parameters: &[ConstructorParameter],
) -> Result<(), NoMemory>
    ensures { OnOk result (AddsPlaces places.old.items (flat_map model.floats (map (λ p. p.type) (map plain.constructor_parameter_of parameters.now))) places.new.items) }
{
    for parameter in parameters {
        add_type(places, &parameter.kind)?;
    }
    Ok(())
}

fn add_service_members(places: &mut Vec<Place>, members: &[ServiceMember]) -> Result<(), NoMemory>
    ensures { OnOk result (AddsPlaces places.old.items (flat_map model.floats (flat_map model.service_types (map plain.service_member_of members.now))) places.new.items) }
{
    for member in members {
        add_service_member(places, member)?;
    }
    Ok(())
}

fn add_service_member(places: &mut Vec<Place>, member: &ServiceMember) -> Result<(), NoMemory>
    ensures { OnOk result (AddsPlaces places.old.items (flat_map model.floats (model.service_types (plain.service_member_of member.now))) places.new.items) }
{
    match member {
        ServiceMember::Interface(_) => Ok(()),
        ServiceMember::Service(_) => Ok(()),
        ServiceMember::Property(property) => add_type(places, &property.kind),
    }
}
