//! The tenth rule: types stand where they may, and `...` follows any and is the last.
ghost use Rattle.std.specs.Prelude.{◌≡◌, ◌||◌, IfOk, OnOk, map, not};
ghost use Rattle.std.specs.List.{flat_map};
ghost use Rattle.idl_meaning_model.specs.Meaning.{name_meant, type_meant};
ghost use Rattle.idl_model.specs.Trees as tree;
ghost use Rattle.idl_places.specs.Classes.{KeepsClasses, class_may_stand};
ghost use Rattle.idl_places.specs.Places.{AddsPlaces};
ghost use Rattle.idl_places.specs.Standings.{standing_of, wrong_rest_of, wrong_stand, wrong_type};
ghost use Rattle.idl_rules_model.specs.TypePlaces as model;
ghost use Rattle.idl_rules_model.specs.TypePlaces.{as_value, at_unless, in_member, in_service, is_type_name, place_of_type, types_standing, wrong_rests};
ghost use Rattle.idl_trees.specs.Members.{constant_of, constructor_of, constructor_parameter_of, fields_of, interface_member_of, method_of, parameter_of, service_member_of};
ghost use Rattle.idl_trees.specs.Names.{path_of};
ghost use Rattle.idl_trees.specs.Trees.{declaration_of};
ghost use Rattle.idl_trees.specs.Types.{type_of};
ghost use Rattle.uno_entities.specs.Entities.{body_of, entities_of};
ghost use Rattle.uno_model.specs.Registry.{IsRising};
ghost use Rattle.uno_model.specs.Sound.{is_there};

use crate::places::add_unless;
use idl_entities::Meanings;
use idl_trees::{
    Constant, Constructor, ConstructorParameter, Declaration, Fields, InterfaceMember, Method,
    Parameter, Path, Place, ServiceMember, WrittenType,
};
use uno_base::NoMemory;
use uno_entities::{Body, Entity, TypeClass, place_in};

/// Where a type stands: at a member, parameter, constant or element, at a method's result, or at a typedef's target.
#[derive(Clone, Copy)]
pub enum Standing {
    Value,
    Result,
    Target,
}

/// The places of types that may not stand there. What stands inside a typedef's target is judged at the typedef alone.
#[tactic(auto, unfolding(idl_rules_model::specs::TypePlaces::wrong_types))]
pub fn add_wrong_types<M: Meanings>(
    meanings: &M,
    entities: &[Entity],
    places: &mut Vec<Place>,
) -> Result<(), NoMemory>
    requires rising { IsRising (entities_of entities.now) }
    requires classes { KeepsClasses (M.telling meanings.now).kept }
    ensures { OnOk result (AddsPlaces places.old.items (model.wrong_types (M.telling meanings.now).all (entities_of entities.now) (M.telling meanings.now).declared) places.new.items) }
{
    add_wrong_types_in(meanings, entities, meanings.body(), places)?;
    add_wrong_rests(meanings, meanings.body(), places)
}

#[tactic(auto, unfolding(idl_rules_model::specs::TypePlaces::types_standing))]
fn add_wrong_types_in<M: Meanings>(
    meanings: &M,
    entities: &[Entity],
    body: &Declaration,
    places: &mut Vec<Place>,
) -> Result<(), NoMemory>
    requires rising { IsRising (entities_of entities.now) }
    requires classes { KeepsClasses (M.telling meanings.now).kept }
    ensures { OnOk result (AddsPlaces places.old.items (flat_map (wrong_stand (M.telling meanings.now) (entities_of entities.now)) (types_standing (declaration_of body.now))) places.new.items) }
{
    match body {
        Declaration::Interface(_, members) => {
            add_members(meanings, entities, members.as_slice(), places)
        }
        Declaration::Struct(_, fields) | Declaration::Exception(_, fields) => {
            add_fields(meanings, entities, fields.as_slice(), places)
        }
        Declaration::Constants(constants) => {
            add_constants(meanings, entities, constants.as_slice(), places)
        }
        Declaration::Typedef(target) => {
            add_type(meanings, entities, Standing::Target, target, places)
        }
        Declaration::NewService(_, constructors) => {
            add_constructors(meanings, entities, constructors.as_slice(), places)
        }
        Declaration::OldService(members) => {
            add_properties(meanings, entities, members.as_slice(), places)
        }
        Declaration::Forward => Ok(()),
        Declaration::Enum(_) => Ok(()),
        Declaration::NewSingleton(_) => Ok(()),
        Declaration::OldSingleton(_) => Ok(()),
    }
}

// ---- one type

/// An element stands as a value.
#[tactic(auto, unfolding(idl_rules_model::specs::TypePlaces::wrong_in_type, idl_meaning_model::specs::Meaning::type_meant, idl_meaning_model::specs::Meaning::type_over))]
fn add_type<M: Meanings>(
    meanings: &M,
    entities: &[Entity],
    standing: Standing,
    written: &WrittenType,
    places: &mut Vec<Place>,
) -> Result<(), NoMemory>
    requires rising { IsRising (entities_of entities.now) }
    requires classes { KeepsClasses (M.telling meanings.now).kept }
    ensures { OnOk result (AddsPlaces places.old.items (wrong_type (M.telling meanings.now) (entities_of entities.now) (standing_of standing) (type_of written.now)) places.new.items) }
{
    match written {
        WrittenType::Simple(place, _) => {
            let right = kind_may_stand(meanings, standing, written)?;
            add_unless(places, right, *place)
        }
        WrittenType::Named(path) => {
            let right = path_may_stand(meanings, entities, standing, written, path)?;
            add_unless(places, right, path.place)
        }
        WrittenType::SequenceOf(_, inner) => {
            add_type(meanings, entities, Standing::Value, inner, places)
        }
    }
}

fn kind_may_stand<M: Meanings>(
    meanings: &M,
    standing: Standing,
    written: &WrittenType,
) -> Result<bool, NoMemory>
    requires classes { KeepsClasses (M.telling meanings.now).kept }
    ensures { IfOk result (λ b. b ≡ model.kind_may_stand (standing_of standing) (type_meant (M.telling meanings.now).all (M.telling meanings.now).declared.modules (type_of written.now))) }
{
    let kind = meanings.kind(written)?;
    Ok(class_may_stand(standing, kind.class()))
}

fn path_may_stand<M: Meanings>(
    meanings: &M,
    entities: &[Entity],
    standing: Standing,
    written: &WrittenType,
    path: &Path,
) -> Result<bool, NoMemory>
    requires rising { IsRising (entities_of entities.now) }
    requires classes { KeepsClasses (M.telling meanings.now).kept }
    requires named { type_of written.now ≡ tree.named (path_of path.now) tree.no_arguments }
    ensures { IfOk result (λ b. b ≡ model.path_may_stand (M.telling meanings.now).all (entities_of entities.now) (M.telling meanings.now).declared.modules (standing_of standing) (path_of path.now)) }
{
    if !is_type(meanings, entities, path)? {
        return Ok(false);
    }
    kind_may_stand(meanings, standing, written)
}

fn class_may_stand(standing: Standing, class: TypeClass) -> bool
    ensures { result ≡ class_may_stand (standing_of standing) class }
{
    match class {
        TypeClass::Void => may_be_void(standing),
        TypeClass::Exception => may_be_exception(standing),
        _ => true,
    }
}

fn may_be_void(standing: Standing) -> bool
    ensures { result ≡ model.may_be_void (standing_of standing) }
{
    matches!(standing, Standing::Result)
}

fn may_be_exception(standing: Standing) -> bool
    ensures { result ≡ model.may_be_exception (standing_of standing) }
{
    !matches!(standing, Standing::Value)
}

/// Whether a path names an entity that is a type, or a typedef.
fn is_type<M: Meanings>(meanings: &M, entities: &[Entity], path: &Path) -> Result<bool, NoMemory>
    requires rising { IsRising (entities_of entities.now) }
    ensures { IfOk result (λ b. b ≡ is_there (entities_of entities.now) is_type_name (name_meant (M.telling meanings.now).all (M.telling meanings.now).declared.modules (path_of path.now))) }
{
    let name = meanings.name(path)?;
    Ok(is_type_there(entities, name.as_str()))
}

fn is_type_there(entities: &[Entity], name: &str) -> bool
    requires rising { IsRising (entities_of entities.now) }
    ensures { result ≡ is_there (entities_of entities.now) is_type_name name.now }
{
    match place_in(entities, name) {
        Ok(place) => is_type_name(&entities[place].body),
        Err(_) => false,
    }
}

fn is_type_name(body: &Body) -> bool
    ensures { result ≡ is_type_name (body_of body.now) }
{
    match body {
        Body::Interface { .. } => true,
        Body::Struct { .. } => true,
        Body::Exception { .. } => true,
        Body::Enum { .. } => true,
        Body::Typedef { .. } => true,
        Body::Constants { .. } => false,
        Body::Service(_) => false,
        Body::Singleton(_) => false,
    }
}

// ---- where types stand

fn add_members<M: Meanings>(
    meanings: &M,
    entities: &[Entity],
    members: &[InterfaceMember],
    places: &mut Vec<Place>,
) -> Result<(), NoMemory>
    requires rising { IsRising (entities_of entities.now) }
    requires classes { KeepsClasses (M.telling meanings.now).kept }
    ensures { OnOk result (AddsPlaces places.old.items (flat_map (wrong_stand (M.telling meanings.now) (entities_of entities.now)) (flat_map in_member (map interface_member_of members.now))) places.new.items) }
{
    for member in members {
        add_member(meanings, entities, member, places)?;
    }
    Ok(())
}

fn add_member<M: Meanings>(
    meanings: &M,
    entities: &[Entity],
    member: &InterfaceMember,
    places: &mut Vec<Place>,
) -> Result<(), NoMemory>
    requires rising { IsRising (entities_of entities.now) }
    requires classes { KeepsClasses (M.telling meanings.now).kept }
    ensures { OnOk result (AddsPlaces places.old.items (flat_map (wrong_stand (M.telling meanings.now) (entities_of entities.now)) (in_member (interface_member_of member.now))) places.new.items) }
{
    match member {
        InterfaceMember::Base(_) => Ok(()),
        InterfaceMember::Attribute(attribute) => {
            add_type(meanings, entities, Standing::Value, &attribute.kind, places)
        }
        InterfaceMember::Method(method) => add_method(meanings, entities, method, places),
    }
}

fn add_method<M: Meanings>(
    meanings: &M,
    entities: &[Entity],
    method: &Method,
    places: &mut Vec<Place>,
) -> Result<(), NoMemory>
    requires rising { IsRising (entities_of entities.now) }
    requires classes { KeepsClasses (M.telling meanings.now).kept }
    ensures { OnOk result (AddsPlaces places.old.items (flat_map (wrong_stand (M.telling meanings.now) (entities_of entities.now)) (in_member (tree.method (method_of method.now)))) places.new.items) }
{
    add_type(meanings, entities, Standing::Result, &method.result, places)?;
    add_parameters(meanings, entities, method.parameters.as_slice(), places)
}

fn add_parameters<M: Meanings>(
    meanings: &M,
    entities: &[Entity],
    parameters: &[Parameter],
    places: &mut Vec<Place>,
) -> Result<(), NoMemory>
    requires rising { IsRising (entities_of entities.now) }
    requires classes { KeepsClasses (M.telling meanings.now).kept }
    ensures { OnOk result (AddsPlaces places.old.items (flat_map (wrong_stand (M.telling meanings.now) (entities_of entities.now)) (map (λ p. as_value p.type) (map parameter_of parameters.now))) places.new.items) }
{
    for parameter in parameters {
        add_type(meanings, entities, Standing::Value, &parameter.kind, places)?;
    }
    Ok(())
}

fn add_fields<M: Meanings>(
    meanings: &M,
    entities: &[Entity],
    fields: &[Fields],
    places: &mut Vec<Place>,
) -> Result<(), NoMemory>
    requires rising { IsRising (entities_of entities.now) }
    requires classes { KeepsClasses (M.telling meanings.now).kept }
    ensures { OnOk result (AddsPlaces places.old.items (flat_map (wrong_stand (M.telling meanings.now) (entities_of entities.now)) (map (λ m. as_value m.type) (map fields_of fields.now))) places.new.items) }
{
    for line in fields {
        add_type(meanings, entities, Standing::Value, &line.kind, places)?;
    }
    Ok(())
}

fn add_constants<M: Meanings>(
    meanings: &M,
    entities: &[Entity],
    constants: &[Constant],
    places: &mut Vec<Place>,
) -> Result<(), NoMemory>
    requires rising { IsRising (entities_of entities.now) }
    requires classes { KeepsClasses (M.telling meanings.now).kept }
    ensures { OnOk result (AddsPlaces places.old.items (flat_map (wrong_stand (M.telling meanings.now) (entities_of entities.now)) (map (λ c. as_value c.type) (map constant_of constants.now))) places.new.items) }
{
    for constant in constants {
        add_type(meanings, entities, Standing::Value, &constant.kind, places)?;
    }
    Ok(())
}

fn add_constructors<M: Meanings>(
    meanings: &M,
    entities: &[Entity],
    constructors: &[Constructor],
    places: &mut Vec<Place>,
) -> Result<(), NoMemory>
    requires rising { IsRising (entities_of entities.now) }
    requires classes { KeepsClasses (M.telling meanings.now).kept }
    ensures { OnOk result (AddsPlaces places.old.items (flat_map (wrong_stand (M.telling meanings.now) (entities_of entities.now)) (flat_map (λ c. map (λ p. as_value p.type) c.parameters) (map constructor_of constructors.now))) places.new.items) }
{
    for constructor in constructors {
        let parameters = constructor.parameters.as_slice();
        add_constructor_parameters(meanings, entities, parameters, places)?;
    }
    Ok(())
}

fn add_constructor_parameters<M: Meanings>(
    meanings: &M,
    entities: &[Entity],
    parameters: &[ConstructorParameter],
    places: &mut Vec<Place>,
) -> Result<(), NoMemory>
    requires rising { IsRising (entities_of entities.now) }
    requires classes { KeepsClasses (M.telling meanings.now).kept }
    ensures { OnOk result (AddsPlaces places.old.items (flat_map (wrong_stand (M.telling meanings.now) (entities_of entities.now)) (map (λ p. as_value p.type) (map constructor_parameter_of parameters.now))) places.new.items) }
{
    for parameter in parameters {
        add_type(meanings, entities, Standing::Value, &parameter.kind, places)?;
    }
    Ok(())
}

fn add_properties<M: Meanings>(
    meanings: &M,
    entities: &[Entity],
    members: &[ServiceMember],
    places: &mut Vec<Place>,
) -> Result<(), NoMemory>
    requires rising { IsRising (entities_of entities.now) }
    requires classes { KeepsClasses (M.telling meanings.now).kept }
    ensures { OnOk result (AddsPlaces places.old.items (flat_map (wrong_stand (M.telling meanings.now) (entities_of entities.now)) (flat_map in_service (map service_member_of members.now))) places.new.items) }
{
    for member in members {
        add_property(meanings, entities, member, places)?;
    }
    Ok(())
}

fn add_property<M: Meanings>(
    meanings: &M,
    entities: &[Entity],
    member: &ServiceMember,
    places: &mut Vec<Place>,
) -> Result<(), NoMemory>
    requires rising { IsRising (entities_of entities.now) }
    requires classes { KeepsClasses (M.telling meanings.now).kept }
    ensures { OnOk result (AddsPlaces places.old.items (flat_map (wrong_stand (M.telling meanings.now) (entities_of entities.now)) (in_service (service_member_of member.now))) places.new.items) }
{
    match member {
        ServiceMember::Property(property) => {
            add_type(meanings, entities, Standing::Value, &property.kind, places)
        }
        ServiceMember::Interface(_) => Ok(()),
        ServiceMember::Service(_) => Ok(()),
    }
}

// ---- `...`

fn add_wrong_rests<M: Meanings>(
    meanings: &M,
    body: &Declaration,
    places: &mut Vec<Place>,
) -> Result<(), NoMemory>
    requires classes { KeepsClasses (M.telling meanings.now).kept }
    ensures { OnOk result (AddsPlaces places.old.items (wrong_rests (M.telling meanings.now).all (M.telling meanings.now).declared.modules (declaration_of body.now)) places.new.items) }
{
    match body {
        Declaration::NewService(_, constructors) => {
            add_rests(meanings, constructors.as_slice(), places)
        }
        Declaration::Forward => Ok(()),
        Declaration::Interface(_, _) => Ok(()),
        Declaration::Struct(_, _) => Ok(()),
        Declaration::Exception(_, _) => Ok(()),
        Declaration::Enum(_) => Ok(()),
        Declaration::Constants(_) => Ok(()),
        Declaration::Typedef(_) => Ok(()),
        Declaration::OldService(_) => Ok(()),
        Declaration::NewSingleton(_) => Ok(()),
        Declaration::OldSingleton(_) => Ok(()),
    }
}

fn add_rests<M: Meanings>(
    meanings: &M,
    constructors: &[Constructor],
    places: &mut Vec<Place>,
) -> Result<(), NoMemory>
    requires classes { KeepsClasses (M.telling meanings.now).kept }
    ensures { OnOk result (AddsPlaces places.old.items (flat_map (λ c. wrong_rest_of (M.telling meanings.now) c.parameters) (map constructor_of constructors.now)) places.new.items) }
{
    for constructor in constructors {
        add_rest(meanings, constructor.parameters.as_slice(), places)?;
    }
    Ok(())
}

/// The places of `...` behind another type than any, or of one that is not the last.
fn add_rest<M: Meanings>(
    meanings: &M,
    parameters: &[ConstructorParameter],
    places: &mut Vec<Place>,
) -> Result<(), NoMemory>
    requires classes { KeepsClasses (M.telling meanings.now).kept }
    ensures { OnOk result (AddsPlaces places.old.items (wrong_rest_of (M.telling meanings.now) (map constructor_parameter_of parameters.now)) places.new.items) }
{
    match parameters.split_last() {
        Some((last, before)) => {
            add_early_rests(before, places)?;
            add_last_rest(meanings, last, places)
        }
        None => Ok(()),
    }
}

fn add_early_rests(
    parameters: &[ConstructorParameter],
    places: &mut Vec<Place>,
) -> Result<(), NoMemory>
    ensures { OnOk result (AddsPlaces places.old.items (flat_map (λ p. at_unless (place_of_type p.type) (not p.rest)) (map constructor_parameter_of parameters.now)) places.new.items) }
{
    for parameter in parameters {
        add_unless(places, !parameter.rest, parameter.kind.place())?;
    }
    Ok(())
}

fn add_last_rest<M: Meanings>(
    meanings: &M,
    last: &ConstructorParameter,
    places: &mut Vec<Place>,
) -> Result<(), NoMemory>
    requires classes { KeepsClasses (M.telling meanings.now).kept }
    ensures { OnOk result (AddsPlaces places.old.items (at_unless (place_of_type (constructor_parameter_of last.now).type) (not last.now.rest || model.is_any (type_meant (M.telling meanings.now).all (M.telling meanings.now).declared.modules (type_of last.now.kind)))) places.new.items) }
{
    if !last.rest {
        return Ok(());
    }
    let right = is_any(meanings, &last.kind)?;
    add_unless(places, right, last.kind.place())
}

fn is_any<M: Meanings>(meanings: &M, written: &WrittenType) -> Result<bool, NoMemory>
    requires classes { KeepsClasses (M.telling meanings.now).kept }
    ensures { IfOk result (λ b. b ≡ model.is_any (type_meant (M.telling meanings.now).all (M.telling meanings.now).declared.modules (type_of written.now))) }
{
    let kind = meanings.kind(written)?;
    Ok(matches!(kind.class(), TypeClass::Any))
}
