//! The fourth rule: a one-way method gives nothing back.
ghost use Rattle.std.specs.Prelude.{◌≡◌, ◌&&◌, ◌∷◌, [], IfOk, List, OnOk, map, not};
ghost use Rattle.std.specs.List.{flat_map, list_all};
ghost use Rattle.idl_meaning_model.specs.Meaning.{method_meant};
ghost use Rattle.idl_places.specs.Classes.{KeepsClasses};
ghost use Rattle.idl_places.specs.Places.{AddsPlaces};
ghost use Rattle.idl_places.specs.Methods.{giving_back};
ghost use Rattle.idl_rules_model.specs.OneWay as model;
ghost use Rattle.idl_rules_model.specs.OneWay.{method_in, methods_in};
ghost use Rattle.idl_trees.specs.Members.{interface_member_of, method_of};
ghost use Rattle.idl_trees.specs.Trees.{declaration_of};
ghost use Rattle.idl_trees.specs.Types.{type_of};
ghost use Rattle.idl_meaning_model.specs.Meaning.{type_meant};
ghost use Rattle.registry_text_model.specs.OneWayMethods as plain;
ghost use Rattle.registry_text_model.specs.OneWayMethods.{goes_in_alone};
ghost use Rattle.uno_model.specs.Entities as uno;
ghost use Rattle.uno_model.specs.Sound.{is_some_list};

use crate::places::add_unless;
use idl_entities::Meanings;
use idl_trees::{Declaration, InterfaceMember, Method, Parameter, Place, Way, WrittenType};
use uno_base::NoMemory;
use uno_entities::TypeClass;

/// The names of one-way methods that give something back.
#[tactic(auto, unfolding(idl_rules_model::specs::OneWay::giving_one_way))]
pub fn add_giving_one_way<M: Meanings>(
    meanings: &M,
    places: &mut Vec<Place>,
) -> Result<(), NoMemory>
    requires classes { KeepsClasses (M.telling meanings.now).kept }
    ensures { (reg : List uno.Entity) → OnOk result (AddsPlaces places.old.items (model.giving_one_way (M.telling meanings.now).all reg (M.telling meanings.now).declared) places.new.items) }
{
    add_giving_in(meanings, meanings.body(), places)
}

fn add_giving_in<M: Meanings>(
    meanings: &M,
    body: &Declaration,
    places: &mut Vec<Place>,
) -> Result<(), NoMemory>
    requires classes { KeepsClasses (M.telling meanings.now).kept }
    ensures { OnOk result (AddsPlaces places.old.items (giving_back (M.telling meanings.now) (methods_in (declaration_of body.now))) places.new.items) }
{
    match body {
        Declaration::Interface(_, members) => add_members(meanings, members.as_slice(), places),
        Declaration::Forward => Ok(()),
        Declaration::Struct(_, _) => Ok(()),
        Declaration::Exception(_, _) => Ok(()),
        Declaration::Enum(_) => Ok(()),
        Declaration::Constants(_) => Ok(()),
        Declaration::Typedef(_) => Ok(()),
        Declaration::NewService(_, _) => Ok(()),
        Declaration::OldService(_) => Ok(()),
        Declaration::NewSingleton(_) => Ok(()),
        Declaration::OldSingleton(_) => Ok(()),
    }
}

fn add_members<M: Meanings>(
    meanings: &M,
    members: &[InterfaceMember],
    places: &mut Vec<Place>,
) -> Result<(), NoMemory>
    requires classes { KeepsClasses (M.telling meanings.now).kept }
    ensures { OnOk result (AddsPlaces places.old.items (giving_back (M.telling meanings.now) (flat_map method_in (map interface_member_of members.now))) places.new.items) }
{
    for member in members {
        add_member(meanings, member, places)?;
    }
    Ok(())
}

fn add_member<M: Meanings>(
    meanings: &M,
    member: &InterfaceMember,
    places: &mut Vec<Place>,
) -> Result<(), NoMemory>
    requires classes { KeepsClasses (M.telling meanings.now).kept }
    ensures { OnOk result (AddsPlaces places.old.items (giving_back (M.telling meanings.now) (method_in (interface_member_of member.now))) places.new.items) }
{
    match member {
        InterfaceMember::Method(method) => add_method(meanings, method, places),
        InterfaceMember::Base(_) => Ok(()),
        InterfaceMember::Attribute(_) => Ok(()),
    }
}

fn add_method<M: Meanings>(
    meanings: &M,
    method: &Method,
    places: &mut Vec<Place>,
) -> Result<(), NoMemory>
    requires classes { KeepsClasses (M.telling meanings.now).kept }
    ensures { OnOk result (AddsPlaces places.old.items (giving_back (M.telling meanings.now) (method_of method.now ∷ [])) places.new.items) }
{
    if !method.oneway {
        return Ok(());
    }
    let right = gives_nothing(meanings, method)?;
    add_unless(places, right, method.name.place)
}

#[tactic(auto, using(crate::proofs::TestLemmas::all_mapped_twice, crate::proofs::TestLemmas::some_mapped_twice))]
fn gives_nothing<M: Meanings>(meanings: &M, method: &Method) -> Result<bool, NoMemory>
    requires classes { KeepsClasses (M.telling meanings.now).kept }
    ensures { IfOk result (λ b. b ≡ plain.gives_nothing (method_meant (M.telling meanings.now).all (M.telling meanings.now).declared.modules (method_of method.now))) }
{
    if !is_void(meanings, &method.result)? {
        return Ok(false);
    }
    Ok(goes_in(method))
}

/// Whether nothing comes back but the result.
fn goes_in(method: &Method) -> bool
    ensures { result ≡ (list_all (λ p. goes_in_alone p.way) method.now.parameters.items && not (is_some_list method.now.raises.items)) }
{
    all_go_in(method.parameters.as_slice()) && method.raises.is_empty()
}

fn is_void<M: Meanings>(meanings: &M, written: &WrittenType) -> Result<bool, NoMemory>
    requires classes { KeepsClasses (M.telling meanings.now).kept }
    ensures { IfOk result (λ b. b ≡ plain.is_void (type_meant (M.telling meanings.now).all (M.telling meanings.now).declared.modules (type_of written.now))) }
{
    let kind = meanings.kind(written)?;
    Ok(matches!(kind.class(), TypeClass::Void))
}

fn all_go_in(parameters: &[Parameter]) -> bool
    ensures { result ≡ list_all (λ p. goes_in_alone p.way) parameters.now }
{
    parameters
        .iter()
        .all(|parameter| matches!(parameter.way, Way::Into))
}
