//! Rules that ask each entity by itself: the place of the first that breaks one.
ghost use Rattle.std.specs.Prelude.{◌≡◌, not};
ghost use Rattle.std.specs.List.{position};
ghost use Rattle.uno_model.specs.Registry.{IsRising};
ghost use Rattle.uno_entities.specs.Entities.{entity_of, entities_of, body_of};
ghost use Rattle.registry_text_model.specs.BasesAreOfTheirKind.{bases_are_of_their_kind};
ghost use Rattle.registry_text_model.specs.OneWayMethods.{one_way_gives_nothing};
ghost use Rattle.registry_text_model.specs.RaisedExceptions.{raises_exceptions};
ghost use Rattle.registry_text_model.specs.ConstantValues.{constants_are_in_range};
ghost use Rattle.registry_text_model.specs.ServiceParts.{services_have_parts};
ghost use Rattle.registry_text_model.specs.SingletonTargets.{singletons_have_targets};
ghost use Rattle.registry_text_model.specs.TypesAtTheirPlaces.{types_stand_at_their_places};

use crate::one_way::one_way_gives_nothing;
use crate::raised::setters_raise_rightly;
use crate::services::{services_have_parts, singletons_have_targets};
use crate::values::constants_are_in_range;
use entity_rules::{bases_known, raises_known, types_allowed, types_known};
use uno_entities::Entity;

/// The first entity with a base that is not of its kind.
pub fn first_with_wrong_base(entities: &[Entity]) -> Option<usize>
    requires { IsRising (entities_of entities.now) }
    ensures { result ≡ position (λ e. not (bases_are_of_their_kind (entities_of entities.now) (entity_of e))) entities.now }
{
    entities
        .iter()
        .position(|entity| !bases_are_of_their_kind(entities, entity))
}

#[tactic(auto, unfolding(registry_text_model::specs::BasesAreOfTheirKind::bases_are_of_their_kind))]
fn bases_are_of_their_kind(entities: &[Entity], entity: &Entity) -> bool
    requires { IsRising (entities_of entities.now) }
    ensures { result ≡ bases_are_of_their_kind (entities_of entities.now) (entity_of entity.now) }
{
    bases_known(entities, &entity.body)
}

/// The first entity with a one-way method that gives something back.
pub fn first_two_way(entities: &[Entity]) -> Option<usize>
    ensures { result ≡ position (λ e. not (one_way_gives_nothing (entity_of e))) entities.now }
{
    entities
        .iter()
        .position(|entity| !one_way_gives_nothing(entity))
}

/// The first entity with a name among those raised that is no exception's, or with a read-only attribute whose setter raises.
pub fn first_with_wrong_raises(entities: &[Entity]) -> Option<usize>
    requires { IsRising (entities_of entities.now) }
    ensures { result ≡ position (λ e. not (raises_exceptions (entities_of entities.now) (entity_of e))) entities.now }
{
    entities
        .iter()
        .position(|entity| !raises_exceptions(entities, entity))
}

#[tactic(auto, unfolding(registry_text_model::specs::RaisedExceptions::raises_exceptions))]
fn raises_exceptions(entities: &[Entity], entity: &Entity) -> bool
    requires { IsRising (entities_of entities.now) }
    ensures { result ≡ raises_exceptions (entities_of entities.now) (entity_of entity.now) }
{
    raises_known(entities, &entity.body) && setters_raise_rightly(entity)
}

/// The first entity with a constant that is of no whole type, or whose value is not one of it.
pub fn first_out_of_range(entities: &[Entity]) -> Option<usize>
    ensures { result ≡ position (λ e. not (constants_are_in_range (entity_of e))) entities.now }
{
    entities
        .iter()
        .position(|entity| !constants_are_in_range(entity))
}

/// The first service that stands over something else than interfaces and services.
pub fn first_with_wrong_parts(entities: &[Entity]) -> Option<usize>
    requires { IsRising (entities_of entities.now) }
    ensures { result ≡ position (λ e. not (services_have_parts (entities_of entities.now) (entity_of e))) entities.now }
{
    entities
        .iter()
        .position(|entity| !services_have_parts(entities, entity))
}

/// The first singleton that is of no interface, or in the old form of no service.
pub fn first_without_target(entities: &[Entity]) -> Option<usize>
    requires { IsRising (entities_of entities.now) }
    ensures { result ≡ position (λ e. not (singletons_have_targets (entities_of entities.now) (entity_of e))) entities.now }
{
    entities
        .iter()
        .position(|entity| !singletons_have_targets(entities, entity))
}

/// The first entity with a type that may not stand at its place.
pub fn first_with_wrong_types(entities: &[Entity]) -> Option<usize>
    requires { IsRising (entities_of entities.now) }
    ensures { result ≡ position (λ e. not (types_stand_at_their_places (entities_of entities.now) (entity_of e))) entities.now }
{
    entities
        .iter()
        .position(|entity| !types_stand_at_their_places(entities, entity))
}

#[tactic(auto, unfolding(registry_text_model::specs::TypesAtTheirPlaces::types_stand_at_their_places))]
fn types_stand_at_their_places(entities: &[Entity], entity: &Entity) -> bool
    requires { IsRising (entities_of entities.now) }
    ensures { result ≡ types_stand_at_their_places (entities_of entities.now) (entity_of entity.now) }
{
    types_known(entities, &entity.body) && types_allowed(&entity.body)
}
