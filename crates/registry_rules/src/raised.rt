//! A read-only attribute has no setter that could raise something.
ghost use Rattle.std.specs.Prelude.{◌≡◌};
ghost use Rattle.std.specs.List.{list_all};
ghost use Rattle.registry_text_model.specs.RaisedExceptions.{setter_raises_rightly, setters_raise_rightly};
ghost use Rattle.uno_entities.specs.Entities.{entity_of, body_of, member_of};

use uno_entities::{Body, Entity, Member};

#[tactic(auto, using(entity_rules::proofs::AllLemmas::all_mapped))]
pub(crate) fn setters_raise_rightly(entity: &Entity) -> bool
    ensures { result ≡ setters_raise_rightly (entity_of entity.now).body }
{
    match &entity.body {
        Body::Interface { members, .. } => all_raise_rightly(members),
        _ => true,
    }
}

fn all_raise_rightly(members: &[Member]) -> bool
    ensures { result ≡ list_all (λ m. setter_raises_rightly (member_of m)) members.now }
{
    members.iter().all(|member| setter_raises_rightly(member))
}

fn setter_raises_rightly(member: &Member) -> bool
    ensures { result ≡ setter_raises_rightly (member_of member.now) }
{
    match member {
        Member::Attribute(attribute) => !attribute.read_only || attribute.set_raises.is_empty(),
        Member::Method(_) => true,
    }
}
