//! The ninth rule: a singleton is of an interface, in the old form of a service.
ghost use Rattle.std.specs.Prelude.{OnOk};
ghost use Rattle.idl_places.specs.Places.{AddsPlaces};
ghost use Rattle.idl_rules_model.specs.Singletons as model;
ghost use Rattle.idl_rules_model.specs.Singletons.{wrong_targets_in};
ghost use Rattle.idl_trees.specs.Trees.{declaration_of};
ghost use Rattle.uno_entities.specs.Entities.{entities_of};
ghost use Rattle.uno_model.specs.Registry.{IsRising};

use crate::named::add_unnamed;
use entity_rules::Wanted;
use idl_entities::Meanings;
use idl_trees::{Declaration, Place};
use uno_base::NoMemory;
use uno_entities::Entity;

/// The place of the target of a singleton that is of another kind.
#[tactic(auto, unfolding(idl_rules_model::specs::Singletons::wrong_targets))]
pub fn add_wrong_targets<M: Meanings>(
    meanings: &M,
    entities: &[Entity],
    places: &mut Vec<Place>,
) -> Result<(), NoMemory>
    requires rising { IsRising (entities_of entities.now) }
    ensures { OnOk result (AddsPlaces places.old.items (model.wrong_targets (M.telling meanings.now).all (entities_of entities.now) (M.telling meanings.now).declared) places.new.items) }
{
    add_wrong_targets_in(meanings, entities, meanings.body(), places)
}

fn add_wrong_targets_in<M: Meanings>(
    meanings: &M,
    entities: &[Entity],
    body: &Declaration,
    places: &mut Vec<Place>,
) -> Result<(), NoMemory>
    requires rising { IsRising (entities_of entities.now) }
    ensures { OnOk result (AddsPlaces places.old.items (wrong_targets_in (M.telling meanings.now).all (entities_of entities.now) (M.telling meanings.now).declared.modules (declaration_of body.now)) places.new.items) }
{
    match body {
        Declaration::NewSingleton(base) => {
            add_unnamed(meanings, entities, Wanted::Interface, base, places)
        }
        Declaration::OldSingleton(service) => {
            add_unnamed(meanings, entities, Wanted::Service, service, places)
        }
        Declaration::Forward => Ok(()),
        Declaration::Interface(_, _) => Ok(()),
        Declaration::Struct(_, _) => Ok(()),
        Declaration::Exception(_, _) => Ok(()),
        Declaration::Enum(_) => Ok(()),
        Declaration::Constants(_) => Ok(()),
        Declaration::Typedef(_) => Ok(()),
        Declaration::NewService(_, _) => Ok(()),
        Declaration::OldService(_) => Ok(()),
    }
}
