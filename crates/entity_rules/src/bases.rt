//! The bases of an interface are interfaces, that of a struct is a struct, that of an exception an exception.
ghost use Rattle.std.specs.Prelude.{◌≡◌};
ghost use Rattle.std.specs.List.{list_all};
ghost use Rattle.uno_model.specs.Registry.{IsRising, at_most_one};
ghost use Rattle.uno_model.specs.Sound.{bases_known, is_interface, is_there};
ghost use Rattle.uno_entities.specs.Entities.{body_of, entities_of};
ghost use Rattle.entity_rules.specs.Wanted.{is_wanted};

use crate::{Wanted, is_there};
use uno_entities::{Base, Body, Entity, Name};

/// Whether they are; optional bases are asked too.
#[tactic(auto, using(crate::proofs::AllLemmas::all_mapped))]
pub fn bases_known(entities: &[Entity], body: &Body) -> bool
    requires { IsRising (entities_of entities.now) }
    ensures { result ≡ bases_known (entities_of entities.now) (body_of body.now) }
{
    match body {
        Body::Interface { bases, .. } => all_interfaces(entities, bases),
        Body::Struct { base, .. } => base_known(entities, Wanted::Struct, base),
        Body::Exception { base, .. } => base_known(entities, Wanted::Exception, base),
        _ => true,
    }
}

fn all_interfaces(entities: &[Entity], bases: &[Base]) -> bool
    requires { IsRising (entities_of entities.now) }
    ensures { result ≡ list_all (λ b. is_there (entities_of entities.now) is_interface b.name) bases.now }
{
    bases.iter().all(|base| is_there(entities, Wanted::Interface, base.name.as_str()))
}

fn base_known(entities: &[Entity], wanted: Wanted, base: &Option<Name>) -> bool
    requires { IsRising (entities_of entities.now) }
    ensures { result ≡ list_all (is_there (entities_of entities.now) (is_wanted wanted)) (at_most_one base.now) }
{
    match base {
        Some(name) => is_there(entities, wanted, name.as_str()),
        None => true,
    }
}
