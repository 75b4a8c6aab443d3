//! What members of an interface and constructors of a service may raise are exceptions.
ghost use Rattle.std.specs.Prelude.{◌≡◌};
ghost use Rattle.std.specs.List.{list_all};
ghost use Rattle.uno_model.specs.Registry.{IsRising};
ghost use Rattle.uno_model.specs.Sound.{raises_known, is_exception, is_there};
ghost use Rattle.uno_model.specs.Uses.{raised_by};
ghost use Rattle.uno_entities.specs.Entities.{body_of, entities_of, member_of};

use crate::{Wanted, is_there};
use uno_entities::{Body, Constructor, Entity, Member, Name, Service};

/// Whether they are.
#[tactic(auto, using(crate::proofs::AllLemmas::all_flat))]
pub fn raises_known(entities: &[Entity], body: &Body) -> bool
    requires { IsRising (entities_of entities.now) }
    ensures { result ≡ raises_known (entities_of entities.now) (body_of body.now) }
{
    match body {
        Body::Interface { members, .. } => members_raise(entities, members),
        Body::Service(Service::New { constructors, .. }) => {
            constructors_raise(entities, constructors)
        }
        _ => true,
    }
}

fn members_raise(entities: &[Entity], members: &[Member]) -> bool
    requires { IsRising (entities_of entities.now) }
    ensures { result ≡ list_all (λ m. list_all (is_there (entities_of entities.now) is_exception) (raised_by (member_of m))) members.now }
{
    members.iter().all(|member| member_raises(entities, member))
}

fn constructors_raise(entities: &[Entity], constructors: &[Constructor]) -> bool
    requires { IsRising (entities_of entities.now) }
    ensures { result ≡ list_all (λ k. list_all (is_there (entities_of entities.now) is_exception) k.raises.items) constructors.now }
{
    constructors
        .iter()
        .all(|constructor| all_raised(entities, &constructor.raises))
}

fn member_raises(entities: &[Entity], member: &Member) -> bool
    requires { IsRising (entities_of entities.now) }
    ensures { result ≡ list_all (is_there (entities_of entities.now) is_exception) (raised_by (member_of member.now)) }
{
    match member {
        Member::Attribute(attribute) => {
            all_raised(entities, &attribute.get_raises)
                && all_raised(entities, &attribute.set_raises)
        }
        Member::Method(method) => all_raised(entities, &method.raises),
    }
}

fn all_raised(entities: &[Entity], names: &[Name]) -> bool
    requires { IsRising (entities_of entities.now) }
    ensures { result ≡ list_all (is_there (entities_of entities.now) is_exception) names.now }
{
    names.iter().all(|name| is_there(entities, Wanted::Exception, name.as_str()))
}
