//! The fifth rule: what is raised are exceptions, and a read-only attribute has no setter that raises.
ghost use Rattle.std.specs.Prelude.{◌≡◌, ◌++◌, OnOk, map, not, option_map};
ghost use Rattle.std.specs.List.{flat_map, list_any};
ghost use Rattle.idl_meaning_model.specs.Meaning.{is_readonly};
ghost use Rattle.idl_meaning_model.specs.Uses.{accessor_raises};
ghost use Rattle.idl_places.specs.Places.{AddsPlaces, wrong_paths};
ghost use Rattle.idl_places.specs.Setters.{raising_wrongly, setting_wrongly, sets_rightly};
ghost use Rattle.idl_rules_model.specs.Raised as model;
ghost use Rattle.idl_rules_model.specs.Raised.{attribute_in, raised_by};
ghost use Rattle.idl_trees.specs.Members.{attribute_of, constructor_of, flag_of, interface_member_of, paths_of};
ghost use Rattle.idl_trees.specs.Trees.{declaration_of};
ghost use Rattle.uno_entities.specs.Entities.{entities_of};
ghost use Rattle.uno_model.specs.Registry.{IsRising};
ghost use Rattle.uno_model.specs.Sound.{is_exception, is_some_list};

use crate::named::add_all_unnamed;
use crate::places::add_unless;
use entity_rules::Wanted;
use idl_entities::Meanings;
use idl_trees::{Attribute, Constructor, Declaration, Flag, InterfaceMember, Path, Place};
use uno_base::NoMemory;
use uno_entities::Entity;

/// The places of what is raised and is no exception, and of read-only attributes whose setter raises.
#[tactic(auto, unfolding(idl_rules_model::specs::Raised::wrong_raises))]
pub fn add_wrong_raises<M: Meanings>(
    meanings: &M,
    entities: &[Entity],
    places: &mut Vec<Place>,
) -> Result<(), NoMemory>
    requires rising { IsRising (entities_of entities.now) }
    ensures { OnOk result (AddsPlaces places.old.items (model.wrong_raises (M.telling meanings.now).all (entities_of entities.now) (M.telling meanings.now).declared) places.new.items) }
{
    add_wrong_raises_in(meanings, entities, meanings.body(), places)
}

fn add_wrong_raises_in<M: Meanings>(
    meanings: &M,
    entities: &[Entity],
    body: &Declaration,
    places: &mut Vec<Place>,
) -> Result<(), NoMemory>
    requires rising { IsRising (entities_of entities.now) }
    ensures { OnOk result (AddsPlaces places.old.items (raising_wrongly (M.telling meanings.now) (entities_of entities.now) (declaration_of body.now)) places.new.items) }
{
    match body {
        Declaration::Interface(_, members) => {
            add_members(meanings, entities, members.as_slice(), places)
        }
        Declaration::NewService(_, constructors) => {
            add_constructors(meanings, entities, constructors.as_slice(), places)
        }
        Declaration::Forward => Ok(()),
        Declaration::Struct(_, _) => Ok(()),
        Declaration::Exception(_, _) => Ok(()),
        Declaration::Enum(_) => Ok(()),
        Declaration::Constants(_) => Ok(()),
        Declaration::Typedef(_) => Ok(()),
        Declaration::OldService(_) => Ok(()),
        Declaration::NewSingleton(_) => Ok(()),
        Declaration::OldSingleton(_) => Ok(()),
    }
}

fn add_constructors<M: Meanings>(
    meanings: &M,
    entities: &[Entity],
    constructors: &[Constructor],
    places: &mut Vec<Place>,
) -> Result<(), NoMemory>
    requires rising { IsRising (entities_of entities.now) }
    ensures { OnOk result (AddsPlaces places.old.items (wrong_paths (M.telling meanings.now) (entities_of entities.now) is_exception (flat_map (λ c. c.raises) (map constructor_of constructors.now))) places.new.items) }
{
    for constructor in constructors {
        let raises = constructor.raises.as_slice();
        add_all_unnamed(meanings, entities, Wanted::Exception, raises, places)?;
    }
    Ok(())
}

fn add_members<M: Meanings>(
    meanings: &M,
    entities: &[Entity],
    members: &[InterfaceMember],
    places: &mut Vec<Place>,
) -> Result<(), NoMemory>
    requires rising { IsRising (entities_of entities.now) }
    ensures { OnOk result (AddsPlaces places.old.items (wrong_paths (M.telling meanings.now) (entities_of entities.now) is_exception (flat_map raised_by (map interface_member_of members.now)) ++ setting_wrongly (flat_map attribute_in (map interface_member_of members.now))) places.new.items) }
{
    add_all_raised(meanings, entities, members, places)?;
    add_setters(members, places)
}

fn add_all_raised<M: Meanings>(
    meanings: &M,
    entities: &[Entity],
    members: &[InterfaceMember],
    places: &mut Vec<Place>,
) -> Result<(), NoMemory>
    requires rising { IsRising (entities_of entities.now) }
    ensures { OnOk result (AddsPlaces places.old.items (wrong_paths (M.telling meanings.now) (entities_of entities.now) is_exception (flat_map raised_by (map interface_member_of members.now))) places.new.items) }
{
    for member in members {
        add_raised(meanings, entities, member, places)?;
    }
    Ok(())
}

fn add_raised<M: Meanings>(
    meanings: &M,
    entities: &[Entity],
    member: &InterfaceMember,
    places: &mut Vec<Place>,
) -> Result<(), NoMemory>
    requires rising { IsRising (entities_of entities.now) }
    ensures { OnOk result (AddsPlaces places.old.items (wrong_paths (M.telling meanings.now) (entities_of entities.now) is_exception (raised_by (interface_member_of member.now))) places.new.items) }
{
    match member {
        InterfaceMember::Base(_) => Ok(()),
        InterfaceMember::Attribute(attribute) => {
            add_accessors(meanings, entities, attribute, places)
        }
        InterfaceMember::Method(method) => {
            let raises = method.raises.as_slice();
            add_all_unnamed(meanings, entities, Wanted::Exception, raises, places)
        }
    }
}

fn add_accessors<M: Meanings>(
    meanings: &M,
    entities: &[Entity],
    attribute: &Attribute,
    places: &mut Vec<Place>,
) -> Result<(), NoMemory>
    requires rising { IsRising (entities_of entities.now) }
    ensures { OnOk result (AddsPlaces places.old.items (wrong_paths (M.telling meanings.now) (entities_of entities.now) is_exception (accessor_raises (option_map paths_of attribute.now.get) ++ accessor_raises (option_map paths_of attribute.now.set))) places.new.items) }
{
    add_accessor(meanings, entities, &attribute.get, places)?;
    add_accessor(meanings, entities, &attribute.set, places)
}

/// What `get` or `set` raises, where it is written.
fn add_accessor<M: Meanings>(
    meanings: &M,
    entities: &[Entity],
    raised: &Option<Vec<Path>>,
    places: &mut Vec<Place>,
) -> Result<(), NoMemory>
    requires rising { IsRising (entities_of entities.now) }
    ensures { OnOk result (AddsPlaces places.old.items (wrong_paths (M.telling meanings.now) (entities_of entities.now) is_exception (accessor_raises (option_map paths_of raised.now))) places.new.items) }
{
    match raised {
        Some(paths) => {
            let raises = paths.as_slice();
            add_all_unnamed(meanings, entities, Wanted::Exception, raises, places)
        }
        None => Ok(()),
    }
}

fn add_setters(members: &[InterfaceMember], places: &mut Vec<Place>) -> Result<(), NoMemory>
    ensures { OnOk result (AddsPlaces places.old.items (setting_wrongly (flat_map attribute_in (map interface_member_of members.now))) places.new.items) }
{
    for member in members {
        add_setter(member, places)?;
    }
    Ok(())
}

fn add_setter(member: &InterfaceMember, places: &mut Vec<Place>) -> Result<(), NoMemory>
    ensures { OnOk result (AddsPlaces places.old.items (setting_wrongly (attribute_in (interface_member_of member.now))) places.new.items) }
{
    match member {
        InterfaceMember::Attribute(attribute) => {
            add_unless(places, sets_rightly(attribute), attribute.name.place)
        }
        InterfaceMember::Base(_) => Ok(()),
        InterfaceMember::Method(_) => Ok(()),
    }
}

fn sets_rightly(attribute: &Attribute) -> bool
    ensures { result ≡ sets_rightly (attribute_of attribute.now) }
{
    if !is_read_only(attribute.flags.as_slice()) {
        return true;
    }
    raises_nothing(&attribute.set)
}

fn raises_nothing(raised: &Option<Vec<Path>>) -> bool
    ensures { result ≡ not (is_some_list (accessor_raises (option_map paths_of raised.now))) }
{
    match raised {
        Some(paths) => paths.is_empty(),
        None => true,
    }
}

/// Whether an attribute with these flags is read-only.
#[tactic(auto, using(crate::proofs::TestLemmas::any_mapped))]
pub fn is_read_only(flags: &[Flag]) -> bool
    ensures { result ≡ list_any is_readonly (map flag_of flags.now) }
{
    any_forbids_setting(flags)
}

fn any_forbids_setting(flags: &[Flag]) -> bool
    ensures { result ≡ list_any (λ f. is_readonly (flag_of f)) flags.now }
{
    flags.iter().any(|flag| forbids_setting(*flag))
}

fn forbids_setting(flag: Flag) -> bool
    ensures { result ≡ is_readonly (flag_of flag) }
{
    matches!(flag, Flag::ReadOnly)
}
