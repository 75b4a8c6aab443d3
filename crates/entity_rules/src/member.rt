//! A struct or an exception has a member, those of its bases counted.
ghost use Rattle.std.specs.Prelude.{◌≡◌};
ghost use Rattle.std.specs.List.{list_all, list_any};
ghost use Rattle.uno_model.specs.Circles.{HasNoCircle};
ghost use Rattle.uno_model.specs.Registry.{IsRising, at_most_one, leads_to};
ghost use Rattle.uno_model.specs.Sound.{has_member, is_there};
ghost use Rattle.uno_entities.specs.Entities.{body_of, entity_of, entities_of};
ghost use Rattle.entity_rules.specs.NearMembers.{carries, has_near_member};

use uno_entities::{Body, Entity, Name, place_in};

/// Whether each struct and each exception has a member; it looks at each once, and walks up no bases.
pub fn all_have_members(entities: &[Entity]) -> bool
    requires rising { IsRising (entities_of entities.now) }
    requires no_circle { HasNoCircle (leads_to (entities_of entities.now)) }
    ensures { result ≡ list_all (has_member (entities_of entities.now)) (entities_of entities.now) }
{
    all_near(entities, entities)
}

fn all_near(entities: &[Entity], asked: &[Entity]) -> bool
    requires { IsRising (entities_of entities.now) }
    ensures { result ≡ list_all (λ e. has_near_member (entities_of entities.now) (entity_of e)) asked.now }
{
    asked.iter().all(|entity| has_near_member(entities, entity))
}

/// Whether a struct or an exception has a member of its own, or a base that is one too. Where all have and there is no circle, all
/// have a member; one that has not has none.
pub fn has_near_member(entities: &[Entity], entity: &Entity) -> bool
    requires { IsRising (entities_of entities.now) }
    ensures { result ≡ has_near_member (entities_of entities.now) (entity_of entity.now) }
{
    match &entity.body {
        Body::Struct { base, members } | Body::Exception { base, members } => {
            !members.is_empty() || base_carries(entities, base)
        }
        _ => true,
    }
}

fn base_carries(entities: &[Entity], base: &Option<Name>) -> bool
    requires { IsRising (entities_of entities.now) }
    ensures { result ≡ list_any (is_there (entities_of entities.now) carries) (at_most_one base.now) }
{
    let Some(name) = base else { return false };
    let Ok(place) = place_in(entities, name.as_str()) else {
        return false;
    };
    carries(&entities[place].body)
}

/// Whether it is a struct or an exception.
fn carries(body: &Body) -> bool
    ensures { result ≡ carries (body_of body.now) }
{
    match body {
        Body::Struct { .. } | Body::Exception { .. } => true,
        _ => false,
    }
}
