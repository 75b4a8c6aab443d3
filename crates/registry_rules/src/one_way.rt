//! A one-way method gives nothing back: its result is void, all its parameters go in, and it raises nothing.
ghost use Rattle.std.specs.Prelude.{◌≡◌, map};
ghost use Rattle.std.specs.List.{list_all};
ghost use Rattle.registry_text_model.specs.OneWayMethods.{goes_in_alone, is_void, gives_nothing, member_goes_one_way, body_goes_one_way, one_way_gives_nothing};
ghost use Rattle.uno_entities.specs.Entities.{entity_of, body_of, member_of, method_of, param_of};
ghost use Rattle.uno_entities.specs.TypeNames.{kind_of};

use uno_entities::{Body, Entity, Member, Method, Param, TypeClass, TypeName, Way};

/// Whether the one-way methods of an entity give nothing back.
#[tactic(auto, unfolding(registry_text_model::specs::OneWayMethods::one_way_gives_nothing))]
pub(crate) fn one_way_gives_nothing(entity: &Entity) -> bool
    ensures { result ≡ one_way_gives_nothing (entity_of entity.now) }
{
    body_goes_one_way(&entity.body)
}

#[tactic(auto, using(entity_rules::proofs::AllLemmas::all_mapped))]
fn body_goes_one_way(body: &Body) -> bool
    ensures { result ≡ body_goes_one_way (body_of body.now) }
{
    match body {
        Body::Interface { members, .. } => members_go_one_way(members),
        _ => true,
    }
}

fn members_go_one_way(members: &[Member]) -> bool
    ensures { result ≡ list_all (λ m. member_goes_one_way (member_of m)) members.now }
{
    members.iter().all(|member| member_goes_one_way(member))
}

fn member_goes_one_way(member: &Member) -> bool
    ensures { result ≡ member_goes_one_way (member_of member.now) }
{
    match member {
        Member::Attribute(_) => true,
        Member::Method(method) => !method.oneway || gives_nothing(method),
    }
}

#[tactic(auto, using(entity_rules::proofs::AllLemmas::all_mapped))]
fn gives_nothing(method: &Method) -> bool
    ensures { result ≡ gives_nothing (method_of method.now) }
{
    is_void(&method.result) && (all_go_in(&method.params) && method.raises.is_empty())
}

fn is_void(kind: &TypeName) -> bool
    ensures { result ≡ is_void (kind_of kind.now) }
{
    matches!(kind, TypeName::Void)
}

fn all_go_in(params: &[Param]) -> bool
    ensures { result ≡ list_all (λ p. goes_in_alone p.way) params.now }
{
    params.iter().all(|param| goes_in_alone(param.way))
}

fn goes_in_alone(way: Way) -> bool
    ensures { result ≡ goes_in_alone way }
{
    matches!(way, Way::Into)
}
