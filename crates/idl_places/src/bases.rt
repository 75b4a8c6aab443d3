//! The first rule: a base is of the same kind as what stands on it, and bases are written in one way.
ghost use Rattle.std.specs.Prelude.{◌≡◌, ◌++◌, OnOk, map, option_map};
ghost use Rattle.std.specs.List.{list_any};
ghost use Rattle.std.specs.Option.{option_to_list};
ghost use Rattle.idl_places.specs.Places.{AddsPlaces, wrong_paths};
ghost use Rattle.idl_rules_model.specs.Bases as model;
ghost use Rattle.idl_rules_model.specs.Bases.{base_in, bases_in, two_ways, wrong_bases_in};
ghost use Rattle.idl_trees.specs.Members.{interface_member_of};
ghost use Rattle.idl_trees.specs.Names.{path_of};
ghost use Rattle.idl_trees.specs.Trees.{declaration_of};
ghost use Rattle.uno_entities.specs.Entities.{entities_of};
ghost use Rattle.uno_model.specs.Registry.{IsRising};
ghost use Rattle.uno_model.specs.Sound.{is_interface, is_some_list};

use crate::named::{add_unnamed, add_unnamed_if_any};
use crate::places::add_place;
use entity_rules::Wanted;
use idl_entities::Meanings;
use idl_trees::{Declaration, InterfaceMember, Path, Place};
use uno_base::NoMemory;
use uno_entities::Entity;

/// The places of bases that are of another kind, and of a base behind `:` where there are bases among the members.
#[tactic(auto, unfolding(idl_rules_model::specs::Bases::wrong_bases))]
pub fn add_wrong_bases<M: Meanings>(
    meanings: &M,
    entities: &[Entity],
    places: &mut Vec<Place>,
) -> Result<(), NoMemory>
    requires rising { IsRising (entities_of entities.now) }
    ensures { OnOk result (AddsPlaces places.old.items (model.wrong_bases (M.telling meanings.now).all (entities_of entities.now) (M.telling meanings.now).declared) places.new.items) }
{
    add_wrong_bases_in(meanings, entities, meanings.body(), places)
}

fn add_wrong_bases_in<M: Meanings>(
    meanings: &M,
    entities: &[Entity],
    body: &Declaration,
    places: &mut Vec<Place>,
) -> Result<(), NoMemory>
    requires rising { IsRising (entities_of entities.now) }
    ensures { OnOk result (AddsPlaces places.old.items (wrong_bases_in (M.telling meanings.now).all (entities_of entities.now) (M.telling meanings.now).declared.modules (declaration_of body.now)) places.new.items) }
{
    match body {
        Declaration::Interface(base, members) => {
            add_wrong_interface_bases(meanings, entities, base, members.as_slice(), places)
        }
        Declaration::Struct(base, _) => {
            add_unnamed_if_any(meanings, entities, Wanted::Struct, base, places)
        }
        Declaration::Exception(base, _) => {
            add_unnamed_if_any(meanings, entities, Wanted::Exception, base, places)
        }
        Declaration::Forward => Ok(()),
        Declaration::Enum(_) => Ok(()),
        Declaration::Constants(_) => Ok(()),
        Declaration::Typedef(_) => Ok(()),
        Declaration::NewService(_, _) => Ok(()),
        Declaration::OldService(_) => Ok(()),
        Declaration::NewSingleton(_) => Ok(()),
        Declaration::OldSingleton(_) => Ok(()),
    }
}

fn add_wrong_interface_bases<M: Meanings>(
    meanings: &M,
    entities: &[Entity],
    base: &Option<Path>,
    members: &[InterfaceMember],
    places: &mut Vec<Place>,
) -> Result<(), NoMemory>
    requires rising { IsRising (entities_of entities.now) }
    ensures { OnOk result (AddsPlaces places.old.items (wrong_paths (M.telling meanings.now) (entities_of entities.now) is_interface (option_to_list (option_map path_of base.now) ++ bases_in (map interface_member_of members.now)) ++ two_ways (option_map path_of base.now) (map interface_member_of members.now)) places.new.items) }
{
    add_unnamed_if_any(meanings, entities, Wanted::Interface, base, places)?;
    add_wrong_base_members(meanings, entities, members, places)?;
    add_two_ways(base, members, places)
}

fn add_wrong_base_members<M: Meanings>(
    meanings: &M,
    entities: &[Entity],
    members: &[InterfaceMember],
    places: &mut Vec<Place>,
) -> Result<(), NoMemory>
    requires rising { IsRising (entities_of entities.now) }
    ensures { OnOk result (AddsPlaces places.old.items (wrong_paths (M.telling meanings.now) (entities_of entities.now) is_interface (bases_in (map interface_member_of members.now))) places.new.items) }
{
    for member in members {
        add_wrong_base_member(meanings, entities, member, places)?;
    }
    Ok(())
}

fn add_wrong_base_member<M: Meanings>(
    meanings: &M,
    entities: &[Entity],
    member: &InterfaceMember,
    places: &mut Vec<Place>,
) -> Result<(), NoMemory>
    requires rising { IsRising (entities_of entities.now) }
    ensures { OnOk result (AddsPlaces places.old.items (wrong_paths (M.telling meanings.now) (entities_of entities.now) is_interface (base_in (interface_member_of member.now))) places.new.items) }
{
    match member {
        InterfaceMember::Base(part) => {
            add_unnamed(meanings, entities, Wanted::Interface, &part.path, places)
        }
        InterfaceMember::Attribute(_) => Ok(()),
        InterfaceMember::Method(_) => Ok(()),
    }
}

/// The place of the base behind `:`, where there are bases among the members.
#[tactic(auto, unfolding(idl_rules_model::specs::Bases::two_ways))]
fn add_two_ways(
    base: &Option<Path>,
    members: &[InterfaceMember],
    places: &mut Vec<Place>,
) -> Result<(), NoMemory>
    ensures { OnOk result (AddsPlaces places.old.items (two_ways (option_map path_of base.now) (map interface_member_of members.now)) places.new.items) }
{
    let Some(path) = base else {
        return Ok(());
    };
    if !has_bases(members) {
        return Ok(());
    }
    add_place(places, path.place)
}

#[tactic(auto, using(crate::proofs::TestLemmas::some_joined))]
fn has_bases(members: &[InterfaceMember]) -> bool
    ensures { result ≡ is_some_list (bases_in (map interface_member_of members.now)) }
{
    any_is_base(members)
}

fn any_is_base(members: &[InterfaceMember]) -> bool
    ensures { result ≡ list_any (λ m. is_some_list (base_in (interface_member_of m))) members.now }
{
    members.iter().any(|member| is_base(member))
}

fn is_base(member: &InterfaceMember) -> bool
    ensures { result ≡ is_some_list (base_in (interface_member_of member.now)) }
{
    match member {
        InterfaceMember::Base(_) => true,
        InterfaceMember::Attribute(_) => false,
        InterfaceMember::Method(_) => false,
    }
}
