//! What services and singletons stand over.
ghost use Rattle.std.specs.Prelude.{◌≡◌};
ghost use Rattle.uno_model.specs.Registry.{IsRising};
ghost use Rattle.registry_text_model.specs.ServiceParts.{parts_of_service_known, services_have_parts};
ghost use Rattle.registry_text_model.specs.SingletonTargets.{target_known, singletons_have_targets};
ghost use Rattle.uno_entities.specs.Entities.{entity_of, entities_of, body_of};

use entity_rules::services_known;
use uno_entities::{Body, Entity};

/// Whether a service stands over interfaces and services.
#[tactic(auto, unfolding(registry_text_model::specs::ServiceParts::services_have_parts))]
pub(crate) fn services_have_parts(entities: &[Entity], entity: &Entity) -> bool
    requires { IsRising (entities_of entities.now) }
    ensures { result ≡ services_have_parts (entities_of entities.now) (entity_of entity.now) }
{
    match &entity.body {
        Body::Service(_) => services_known(entities, &entity.body),
        _ => true,
    }
}

/// Whether a singleton is of an interface, or in the old form of a service.
#[tactic(auto, unfolding(registry_text_model::specs::SingletonTargets::singletons_have_targets))]
pub(crate) fn singletons_have_targets(entities: &[Entity], entity: &Entity) -> bool
    requires { IsRising (entities_of entities.now) }
    ensures { result ≡ singletons_have_targets (entities_of entities.now) (entity_of entity.now) }
{
    match &entity.body {
        Body::Singleton(_) => services_known(entities, &entity.body),
        _ => true,
    }
}
