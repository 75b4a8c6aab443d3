//! That the names differ that a body declares itself.
ghost use Rattle.std.specs.Prelude.{◌≡◌, ◌++◌, [], map, IfOk};
ghost use Rattle.std.specs.List.{flat_map, list_all};
ghost use Rattle.uno_model.specs.Entities as plain;
ghost use Rattle.uno_model.specs.Registry.{at_most_one};
ghost use Rattle.uno_model.specs.Sound.{all_differ};
ghost use Rattle.uno_model.specs.Uses.{part_names};
ghost use Rattle.uno_entities.specs.Entities.{body_of, service_of, member_of, constructor_of, part_of};
ghost use Rattle.registry_text_model.specs.NamesDiffer.{own_names_differ, params_differ, given_differ, declared_name};
ghost use Rattle.rules_over_bases.specs.Seen.{Sees};

use crate::named::{add_all, names_differ};
use crate::seen::Seen;
use std::alloc::Global;
use uno_base::NoMemory;
use uno_entities::{Body, Constructor, Member, Name, Part, Service};

/// Whether they differ; what structs and exceptions declare is asked together with their bases.
#[tactic(auto, using(crate::proofs::OwnLemmas::differ_through))]
pub(crate) fn own_names_differ(alloc: Global, body: &Body) -> Result<bool, NoMemory>
    ensures { IfOk result (λ b. b ≡ own_names_differ (body_of body.now)) }
{
    match body {
        Body::Interface { members, .. } => members_differ(alloc, members.as_slice()),
        Body::Enum { items } => names_differ(alloc, items.as_slice()),
        Body::Constants { constants } => names_differ(alloc, constants.as_slice()),
        Body::Service(service) => service_differs(alloc, service),
        Body::Struct { .. } | Body::Exception { .. } | Body::Typedef { .. } | Body::Singleton(_) =>
            Ok(true),
    }
}

/// An attribute and a method of one interface have different names too.
#[tactic(auto, using(crate::proofs::OwnLemmas::differ_through))]
fn members_differ(alloc: Global, members: &[Member]) -> Result<bool, NoMemory>
    ensures { IfOk result (λ b. b ≡ own_names_differ (plain.interface [] (map member_of members.now))) }
{
    if !names_differ(alloc, members)? {
        return Ok(false);
    }
    all_params_differ(alloc, members)
}

fn all_params_differ(alloc: Global, members: &[Member]) -> Result<bool, NoMemory>
    ensures { IfOk result (λ b. b ≡ list_all params_differ (map member_of members.now)) }
{
    for member in members {
        if !params_differ(alloc, member)? {
            return Ok(false);
        }
    }
    Ok(true)
}

#[tactic(auto, using(crate::proofs::OwnLemmas::differ_through))]
fn params_differ(alloc: Global, member: &Member) -> Result<bool, NoMemory>
    ensures { IfOk result (λ b. b ≡ params_differ (member_of member.now)) }
{
    match member {
        Member::Attribute(_) => Ok(true),
        Member::Method(method) => names_differ(alloc, method.params.as_slice()),
    }
}

fn service_differs(alloc: Global, service: &Service) -> Result<bool, NoMemory>
    ensures { IfOk result (λ b. b ≡ own_names_differ (service_of service.now)) }
{
    match service {
        Service::New { constructors, .. } => constructors_differ(alloc, constructors.as_slice()),
        Service::Old { parts } => parts_differ(alloc, parts.as_slice()),
    }
}

#[tactic(auto, using(crate::proofs::OwnLemmas::differ_through))]
fn constructors_differ(alloc: Global, constructors: &[Constructor]) -> Result<bool, NoMemory>
    ensures { IfOk result (λ b. b ≡ own_names_differ (plain.new_service [] (map constructor_of constructors.now))) }
{
    if !names_differ(alloc, constructors)? {
        return Ok(false);
    }
    all_given_differ(alloc, constructors)
}

fn all_given_differ(alloc: Global, constructors: &[Constructor]) -> Result<bool, NoMemory>
    ensures { IfOk result (λ b. b ≡ list_all given_differ (map constructor_of constructors.now)) }
{
    for constructor in constructors {
        if !given_differ(alloc, constructor)? {
            return Ok(false);
        }
    }
    Ok(true)
}

/// A rest parameter is one of the parameters.
fn given_differ(alloc: Global, constructor: &Constructor) -> Result<bool, NoMemory>
    ensures { IfOk result (λ b. b ≡ given_differ (constructor_of constructor.now)) }
{
    let mut seen = Seen::new(alloc);
    if !add_all(&mut seen, constructor.params.as_slice())? {
        return Ok(false);
    }
    add_rest(&mut seen, &constructor.rest)
}

fn add_rest<'a>(seen: &mut Seen<'a>, rest: &'a Option<Name>) -> Result<bool, NoMemory>
    ensures { IfOk result (λ is_new. Sees seen.old seen.new (at_most_one rest.now) is_new) }
{
    match rest {
        Some(name) => seen.add(name.as_str()),
        None => Ok(true),
    }
}

fn parts_differ(alloc: Global, parts: &[Part]) -> Result<bool, NoMemory>
    ensures { IfOk result (λ b. b ≡ all_differ (flat_map part_names (map part_of parts.now))) }
{
    let mut seen = Seen::new(alloc);
    for part in parts {
        if !add_part(&mut seen, part)? {
            return Ok(false);
        }
    }
    Ok(true)
}

/// Only a property is declared under a name.
fn add_part<'a>(seen: &mut Seen<'a>, part: &'a Part) -> Result<bool, NoMemory>
    ensures { IfOk result (λ is_new. Sees seen.old seen.new (part_names (part_of part.now)) is_new) }
{
    let Part::Property { name, .. } = part else {
        return Ok(true);
    };
    seen.add(name.as_str())
}
