//! An interface has a base that is not optional, but for the one on which all stand; an enum has an item, a service a constructor.
ghost use Rattle.std.specs.Prelude.{◌≡◌, not};
ghost use Rattle.std.specs.List.{list_any};
ghost use Rattle.uno_model.specs.Sound.{is_complete};
ghost use Rattle.uno_entities.specs.Entities.{entity_of};

use uno_entities::{Base, Body, Entity, Service, X_INTERFACE};

/// Whether it has.
#[tactic(auto, using(crate::proofs::AllLemmas::any_required))]
pub fn is_complete(entity: &Entity) -> bool
    ensures { result ≡ is_complete (entity_of entity.now) }
{
    match &entity.body {
        Body::Interface { bases, .. } => entity.name.as_str() == X_INTERFACE || any_required(bases),
        Body::Enum { items } => !items.is_empty(),
        Body::Service(Service::New { constructors, .. }) => !constructors.is_empty(),
        _ => true,
    }
}

/// Whether one of the bases is not optional.
fn any_required(bases: &[Base]) -> bool
    ensures { result ≡ list_any (λ b. not b.optional) bases.now }
{
    bases.iter().any(|base| !base.optional)
}
