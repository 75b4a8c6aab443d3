//! A service stands over an interface, or has interfaces and services; a singleton stands over an interface or a service.
ghost use Rattle.std.specs.Prelude.{◌≡◌, ◌&&◌};
ghost use Rattle.std.specs.List.{list_all};
ghost use Rattle.uno_model.specs.Registry.{IsRising};
ghost use Rattle.uno_model.specs.Sound.{services_known, is_interface, is_service, is_there};
ghost use Rattle.uno_model.specs.Uses.{interfaces_of_part, services_of_part};
ghost use Rattle.uno_entities.specs.Entities.{body_of, entities_of, part_of};

use crate::{Wanted, is_there};
use uno_entities::{Body, Entity, Part, Service, Singleton};

/// Whether they do.
#[tactic(auto, using(crate::proofs::AllLemmas::both_flat))]
pub fn services_known(entities: &[Entity], body: &Body) -> bool
    requires { IsRising (entities_of entities.now) }
    ensures { result ≡ services_known (entities_of entities.now) (body_of body.now) }
{
    match body {
        Body::Service(Service::New { base, .. }) | Body::Singleton(Singleton::New { base }) => {
            is_there(entities, Wanted::Interface, base.as_str())
        }
        Body::Service(Service::Old { parts }) => parts_known(entities, parts),
        Body::Singleton(Singleton::Old { service }) => {
            is_there(entities, Wanted::Service, service.as_str())
        }
        _ => true,
    }
}

fn parts_known(entities: &[Entity], parts: &[Part]) -> bool
    requires { IsRising (entities_of entities.now) }
    ensures { result ≡ list_all (λ p. list_all (is_there (entities_of entities.now) is_interface) (interfaces_of_part (part_of p)) && list_all (is_there (entities_of entities.now) is_service) (services_of_part (part_of p))) parts.now }
{
    parts.iter().all(|part| part_known(entities, part))
}

/// An interface or a service, optional ones too.
fn part_known(entities: &[Entity], part: &Part) -> bool
    requires { IsRising (entities_of entities.now) }
    ensures { result ≡ (list_all (is_there (entities_of entities.now) is_interface) (interfaces_of_part (part_of part.now))
        && list_all (is_there (entities_of entities.now) is_service) (services_of_part (part_of part.now))) }
{
    match part {
        Part::Interface { name, .. } => is_there(entities, Wanted::Interface, name.as_str()),
        Part::Service { name, .. } => is_there(entities, Wanted::Service, name.as_str()),
        Part::Property { .. } => true,
    }
}
