//! The limits on modules, on the names of types, and on parameters.
ghost use Rattle.std.specs.Prelude.{◌≡◌, ◌+◌, ◌<◌, length};
ghost use Rattle.std.specs.List.{list_all};
ghost use Rattle.uno_model.specs.Registry.{at_most_one};
ghost use Rattle.uno_model.specs.Sound.{is_within_limits, few_params, is_type_body};
ghost use Rattle.uno_model.specs.Uses.{param_counts, param_counts_of};
ghost use Rattle.uno_entities.specs.Entities.{body_of, constructor_of, entity_of, member_of};

use crate::types::{KindTest, kinds_pass};
use uno_entities::{
    Body, Constructor, Entity, MOST_BYTES, MOST_LEVELS, Member, Service, few_modules,
};

/// Whether it stands in at most 64 modules, its name has at most 4,096 bytes where it is a type, the types that it writes have
/// short names, and a method or a constructor has at most 64 parameters.
pub fn is_within_limits(entity: &Entity) -> bool
    ensures { result ≡ is_within_limits (entity_of entity.now) }
{
    let name = entity.name.as_str();
    few_modules(name)
        && (!is_type_body(&entity.body) || name.len() <= MOST_BYTES)
        && (kinds_pass(KindTest::Namable, &entity.body) && few_params(&entity.body))
}

/// Whether an entity is a type.
fn is_type_body(body: &Body) -> bool
    ensures { result ≡ is_type_body (body_of body.now) }
{
    match body {
        Body::Interface { .. } | Body::Enum { .. } | Body::Struct { .. } | Body::Exception { .. } =>
            { true }
        _ => false,
    }
}

#[tactic(auto, using(crate::proofs::AllLemmas::all_twice, crate::proofs::AllLemmas::all_flat))]
fn few_params(body: &Body) -> bool
    ensures { result ≡ list_all few_params (param_counts (body_of body.now)) }
{
    match body {
        Body::Interface { members, .. } => members_few_params(members),
        Body::Service(Service::New { constructors, .. }) => constructors_few_params(constructors),
        _ => true,
    }
}

fn members_few_params(members: &[Member]) -> bool
    ensures { result ≡ list_all (λ m. list_all few_params (param_counts_of (member_of m))) members.now }
{
    members.iter().all(|member| member_few_params(member))
}

fn constructors_few_params(constructors: &[Constructor]) -> bool
    ensures { result ≡ list_all (λ k. few_params (length (constructor_of k).params + length (at_most_one k.rest))) constructors.now }
{
    constructors
        .iter()
        .all(|constructor| constructor_few_params(constructor))
}

fn member_few_params(member: &Member) -> bool
    ensures { result ≡ list_all few_params (param_counts_of (member_of member.now)) }
{
    match member {
        Member::Attribute(_) => true,
        Member::Method(method) => method.params.len() <= MOST_LEVELS,
    }
}

/// A rest parameter is one of them.
fn constructor_few_params(constructor: &Constructor) -> bool
    ensures { result ≡ few_params (length (constructor_of constructor.now).params + length (at_most_one constructor.now.rest)) }
{
    match constructor.rest {
        None => constructor.params.len() <= MOST_LEVELS,
        Some(_) => constructor.params.len() < MOST_LEVELS,
    }
}
