//! That all names of an entity, its own and those that it declares inside, are built right.
ghost use Rattle.std.specs.Prelude.{◌≡◌, ◌++◌, map};
ghost use Rattle.std.specs.List.{list_all};
ghost use Rattle.uno_model.specs.Names.{is_identifier};
ghost use Rattle.uno_model.specs.Registry.{at_most_one};
ghost use Rattle.uno_model.specs.Sound.{is_named};
ghost use Rattle.uno_model.specs.Uses.{inner_names, member_names, constructor_names, part_names};
ghost use Rattle.uno_entities.specs.Entities.{body_of, constructor_of, entity_of, field_of, member_of, part_of};

use uno_entities::{
    Body, Constant, Constructor, Entity, Field, Item, Member, Name, Param, Part, Service,
    is_entity_name, is_identifier,
};

/// Whether its name is identifiers joined by points, and the names inside are identifiers.
pub fn is_named(entity: &Entity) -> bool
    ensures { result ≡ is_named (entity_of entity.now) }
{
    is_entity_name(entity.name.as_str()) && inner_named(&entity.body)
}

#[tactic(auto, using(crate::proofs::AllLemmas::all_twice, crate::proofs::AllLemmas::all_flat))]
fn inner_named(body: &Body) -> bool
    ensures { result ≡ list_all is_identifier (inner_names (body_of body.now)) }
{
    match body {
        Body::Interface { members, .. } => members_named(members),
        Body::Struct { members, .. } | Body::Exception { members, .. } => fields_named(members),
        Body::Enum { items } => items_named(items),
        Body::Constants { constants } => constants_named(constants),
        Body::Service(Service::New { constructors, .. }) => constructors_named(constructors),
        Body::Service(Service::Old { parts }) => parts_named(parts),
        Body::Typedef { .. } | Body::Singleton(_) => true,
    }
}

fn members_named(members: &[Member]) -> bool
    ensures { result ≡ list_all (λ m. list_all is_identifier (member_names (member_of m))) members.now }
{
    members.iter().all(|member| member_named(member))
}

#[tactic(auto, using(crate::proofs::AllLemmas::all_twice))]
fn member_named(member: &Member) -> bool
    ensures { result ≡ list_all is_identifier (member_names (member_of member.now)) }
{
    match member {
        Member::Attribute(attribute) => is_identifier(attribute.name.as_str()),
        Member::Method(method) => {
            is_identifier(method.name.as_str()) && params_named(&method.params)
        }
    }
}

fn params_named(params: &[Param]) -> bool
    ensures { result ≡ list_all (λ p. is_identifier p.name) params.now }
{
    params
        .iter()
        .all(|param| is_identifier(param.name.as_str()))
}

fn fields_named(fields: &[Field]) -> bool
    ensures { result ≡ list_all (λ f. is_identifier f.name) fields.now }
{
    fields
        .iter()
        .all(|field| is_identifier(field.name.as_str()))
}

fn items_named(items: &[Item]) -> bool
    ensures { result ≡ list_all (λ i. is_identifier i.name) items.now }
{
    items.iter().all(|item| is_identifier(item.name.as_str()))
}

fn constants_named(constants: &[Constant]) -> bool
    ensures { result ≡ list_all (λ k. is_identifier k.name) constants.now }
{
    constants
        .iter()
        .all(|constant| is_identifier(constant.name.as_str()))
}

fn constructors_named(constructors: &[Constructor]) -> bool
    ensures { result ≡ list_all (λ k. list_all is_identifier (constructor_names (constructor_of k))) constructors.now }
{
    constructors
        .iter()
        .all(|constructor| constructor_named(constructor))
}

fn constructor_named(constructor: &Constructor) -> bool
    ensures { result ≡ list_all is_identifier (constructor_names (constructor_of constructor.now)) }
{
    is_identifier(constructor.name.as_str())
        && params_and_rest_named(&constructor.params, &constructor.rest)
}

#[tactic(auto, using(crate::proofs::AllLemmas::all_front))]
fn params_and_rest_named(params: &[Field], rest: &Option<Name>) -> bool
    ensures { result ≡ list_all is_identifier (map (λ p. p.name) (map field_of params.now) ++ at_most_one rest.now) }
{
    fields_named(params) && rest_named(rest)
}

fn rest_named(rest: &Option<Name>) -> bool
    ensures { result ≡ list_all is_identifier (at_most_one rest.now) }
{
    match rest {
        None => true,
        Some(name) => is_identifier(name.as_str()),
    }
}

fn parts_named(parts: &[Part]) -> bool
    ensures { result ≡ list_all (λ p. list_all is_identifier (part_names (part_of p))) parts.now }
{
    parts.iter().all(|part| part_named(part))
}

fn part_named(part: &Part) -> bool
    ensures { result ≡ list_all is_identifier (part_names (part_of part.now)) }
{
    match part {
        Part::Interface { .. } | Part::Service { .. } => true,
        Part::Property { name, .. } => is_identifier(name.as_str()),
    }
}
