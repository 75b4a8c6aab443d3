//! The eighth rule: services stand over interfaces and services.
ghost use Rattle.std.specs.Prelude.{◌++◌, OnOk, map};
ghost use Rattle.std.specs.List.{flat_map};
ghost use Rattle.idl_places.specs.Places.{AddsPlaces, wrong_paths};
ghost use Rattle.idl_rules_model.specs.Services as model;
ghost use Rattle.idl_rules_model.specs.Services.{face_in, subservice_in, wrong_parts_in};
ghost use Rattle.idl_trees.specs.Members.{service_member_of};
ghost use Rattle.idl_trees.specs.Trees.{declaration_of};
ghost use Rattle.uno_entities.specs.Entities.{entities_of};
ghost use Rattle.uno_model.specs.Registry.{IsRising};
ghost use Rattle.uno_model.specs.Sound.{is_interface, is_service};

use crate::named::add_unnamed;
use entity_rules::Wanted;
use idl_entities::Meanings;
use idl_trees::{Declaration, Place, ServiceMember};
use uno_base::NoMemory;
use uno_entities::Entity;

/// The places of the base and of the parts of a service that are of another kind.
#[tactic(auto, unfolding(idl_rules_model::specs::Services::wrong_parts))]
pub fn add_wrong_parts<M: Meanings>(
    meanings: &M,
    entities: &[Entity],
    places: &mut Vec<Place>,
) -> Result<(), NoMemory>
    requires rising { IsRising (entities_of entities.now) }
    ensures { OnOk result (AddsPlaces places.old.items (model.wrong_parts (M.telling meanings.now).all (entities_of entities.now) (M.telling meanings.now).declared) places.new.items) }
{
    add_wrong_parts_in(meanings, entities, meanings.body(), places)
}

fn add_wrong_parts_in<M: Meanings>(
    meanings: &M,
    entities: &[Entity],
    body: &Declaration,
    places: &mut Vec<Place>,
) -> Result<(), NoMemory>
    requires rising { IsRising (entities_of entities.now) }
    ensures { OnOk result (AddsPlaces places.old.items (wrong_parts_in (M.telling meanings.now).all (entities_of entities.now) (M.telling meanings.now).declared.modules (declaration_of body.now)) places.new.items) }
{
    match body {
        Declaration::NewService(base, _) => {
            add_unnamed(meanings, entities, Wanted::Interface, base, places)
        }
        Declaration::OldService(members) => {
            add_members(meanings, entities, members.as_slice(), places)
        }
        Declaration::Forward => Ok(()),
        Declaration::Interface(_, _) => Ok(()),
        Declaration::Struct(_, _) => Ok(()),
        Declaration::Exception(_, _) => Ok(()),
        Declaration::Enum(_) => Ok(()),
        Declaration::Constants(_) => Ok(()),
        Declaration::Typedef(_) => Ok(()),
        Declaration::NewSingleton(_) => Ok(()),
        Declaration::OldSingleton(_) => Ok(()),
    }
}

fn add_members<M: Meanings>(
    meanings: &M,
    entities: &[Entity],
    members: &[ServiceMember],
    places: &mut Vec<Place>,
) -> Result<(), NoMemory>
    requires rising { IsRising (entities_of entities.now) }
    ensures { OnOk result (AddsPlaces places.old.items (wrong_paths (M.telling meanings.now) (entities_of entities.now) is_interface (flat_map face_in (map service_member_of members.now)) ++ wrong_paths (M.telling meanings.now) (entities_of entities.now) is_service (flat_map subservice_in (map service_member_of members.now))) places.new.items) }
{
    add_faces(meanings, entities, members, places)?;
    add_subservices(meanings, entities, members, places)
}

fn add_faces<M: Meanings>(
    meanings: &M,
    entities: &[Entity],
    members: &[ServiceMember],
    places: &mut Vec<Place>,
) -> Result<(), NoMemory>
    requires rising { IsRising (entities_of entities.now) }
    ensures { OnOk result (AddsPlaces places.old.items (wrong_paths (M.telling meanings.now) (entities_of entities.now) is_interface (flat_map face_in (map service_member_of members.now))) places.new.items) }
{
    for member in members {
        add_face(meanings, entities, member, places)?;
    }
    Ok(())
}

fn add_subservices<M: Meanings>(
    meanings: &M,
    entities: &[Entity],
    members: &[ServiceMember],
    places: &mut Vec<Place>,
) -> Result<(), NoMemory>
    requires rising { IsRising (entities_of entities.now) }
    ensures { OnOk result (AddsPlaces places.old.items (wrong_paths (M.telling meanings.now) (entities_of entities.now) is_service (flat_map subservice_in (map service_member_of members.now))) places.new.items) }
{
    for member in members {
        add_subservice(meanings, entities, member, places)?;
    }
    Ok(())
}

fn add_face<M: Meanings>(
    meanings: &M,
    entities: &[Entity],
    member: &ServiceMember,
    places: &mut Vec<Place>,
) -> Result<(), NoMemory>
    requires rising { IsRising (entities_of entities.now) }
    ensures { OnOk result (AddsPlaces places.old.items (wrong_paths (M.telling meanings.now) (entities_of entities.now) is_interface (face_in (service_member_of member.now))) places.new.items) }
{
    match member {
        ServiceMember::Interface(part) => {
            add_unnamed(meanings, entities, Wanted::Interface, &part.path, places)
        }
        ServiceMember::Service(_) => Ok(()),
        ServiceMember::Property(_) => Ok(()),
    }
}

fn add_subservice<M: Meanings>(
    meanings: &M,
    entities: &[Entity],
    member: &ServiceMember,
    places: &mut Vec<Place>,
) -> Result<(), NoMemory>
    requires rising { IsRising (entities_of entities.now) }
    ensures { OnOk result (AddsPlaces places.old.items (wrong_paths (M.telling meanings.now) (entities_of entities.now) is_service (subservice_in (service_member_of member.now))) places.new.items) }
{
    match member {
        ServiceMember::Service(part) => {
            add_unnamed(meanings, entities, Wanted::Service, &part.path, places)
        }
        ServiceMember::Interface(_) => Ok(()),
        ServiceMember::Property(_) => Ok(()),
    }
}
