//! A name is there where its entity is of the kind that the place asks.
ghost use Rattle.std.specs.Prelude.{◌≡◌};
ghost use Rattle.uno_model.specs.Registry.{IsRising};
ghost use Rattle.uno_model.specs.Sound.{is_there};
ghost use Rattle.uno_entities.specs.Entities.{body_of, entities_of};
ghost use Rattle.entity_rules.specs.Wanted.{is_wanted};

use uno_entities::{Body, Entity, place_in};

/// The kind of entity that a place asks.
#[derive(Clone, Copy)]
pub enum Wanted {
    Interface,
    Struct,
    Exception,
    Enum,
    Service,
}

/// Whether the name has an entity, and that is of this kind.
pub fn is_there(entities: &[Entity], wanted: Wanted, name: &str) -> bool
    requires { IsRising (entities_of entities.now) }
    ensures { result ≡ is_there (entities_of entities.now) (is_wanted wanted) name.now }
{
    match place_in(entities, name) {
        Ok(place) => is_wanted(wanted, &entities[place].body),
        Err(_) => false,
    }
}

/// Services of both forms are services; no place asks for constants, a typedef or a singleton.
fn is_wanted(wanted: Wanted, body: &Body) -> bool
    ensures { result ≡ is_wanted wanted (body_of body.now) }
{
    match body {
        Body::Interface { .. } => matches!(wanted, Wanted::Interface),
        Body::Struct { .. } => matches!(wanted, Wanted::Struct),
        Body::Exception { .. } => matches!(wanted, Wanted::Exception),
        Body::Enum { .. } => matches!(wanted, Wanted::Enum),
        Body::Service(_) => matches!(wanted, Wanted::Service),
        Body::Constants { .. } | Body::Typedef { .. } | Body::Singleton(_) => false,
    }
}
