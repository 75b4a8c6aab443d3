//! A test of all types that an entity writes, by their places.
ghost use Rattle.std.specs.Prelude.{◌≡◌};
ghost use Rattle.std.specs.List.{list_all};
ghost use Rattle.uno_model.specs.Uses.{kinds_in, value_kinds, result_kinds, target_kinds, value_kinds_of, result_kinds_of, property_kinds};
ghost use Rattle.uno_entities.specs.Entities.{body_of, member_of, part_of};
ghost use Rattle.uno_entities.specs.TypeNames.{kind_of};
ghost use Rattle.entity_rules.specs.KindTests.{IsAskable, passes};

use crate::kind_known;
use uno_entities::{
    Body, Constant, Constructor, Entity, Field, Member, Param, Part, Service, TypeName,
    elements_storable, is_target, is_value,
};

/// What is asked of a type.
#[derive(Clone, Copy)]
pub(crate) enum KindTest<'a> {
    /// That the name in it is one of these entities.
    Known(&'a [Entity]),
    Value,
    Result,
    Target,
    Namable,
}

/// Whether all types that an entity writes pass.
#[tactic(auto, using(crate::proofs::AllLemmas::all_three))]
pub(crate) fn kinds_pass(test: KindTest<'_>, body: &Body) -> bool
    requires { IsAskable test }
    ensures { result ≡ list_all (passes test.entry) (kinds_in (body_of body.now)) }
{
    value_kinds_pass(test, body) && result_kinds_pass(test, body) && target_kinds_pass(test, body)
}

/// Those of attributes and parameters, of members, constants and properties.
#[tactic(auto, using(crate::proofs::AllLemmas::all_twice, crate::proofs::AllLemmas::all_flat))]
pub(crate) fn value_kinds_pass(test: KindTest<'_>, body: &Body) -> bool
    requires { IsAskable test }
    ensures { result ≡ list_all (passes test.entry) (value_kinds (body_of body.now)) }
{
    match body {
        Body::Interface { members, .. } => members_pass(test, members),
        Body::Struct { members, .. } | Body::Exception { members, .. } => {
            fields_pass(test, members)
        }
        Body::Constants { constants } => constants_pass(test, constants),
        Body::Service(Service::New { constructors, .. }) => constructors_pass(test, constructors),
        Body::Service(Service::Old { parts }) => parts_pass(test, parts),
        _ => true,
    }
}

/// Those of the results of methods.
#[tactic(auto, using(crate::proofs::AllLemmas::all_flat))]
pub(crate) fn result_kinds_pass(test: KindTest<'_>, body: &Body) -> bool
    requires { IsAskable test }
    ensures { result ≡ list_all (passes test.entry) (result_kinds (body_of body.now)) }
{
    let Body::Interface { members, .. } = body else {
        return true;
    };
    results_pass(test, members)
}

/// What a typedef stands for.
pub(crate) fn target_kinds_pass(test: KindTest<'_>, body: &Body) -> bool
    requires { IsAskable test }
    ensures { result ≡ list_all (passes test.entry) (target_kinds (body_of body.now)) }
{
    let Body::Typedef { kind } = body else {
        return true;
    };
    passes(test, kind)
}

fn members_pass(test: KindTest<'_>, members: &[Member]) -> bool
    requires { IsAskable test }
    ensures { result ≡ list_all (λ m. list_all (passes test.entry) (value_kinds_of (member_of m))) members.now }
{
    members.iter().all(|member| member_passes(test, member))
}

#[tactic(auto, using(crate::proofs::AllLemmas::all_twice))]
fn member_passes(test: KindTest<'_>, member: &Member) -> bool
    requires { IsAskable test }
    ensures { result ≡ list_all (passes test.entry) (value_kinds_of (member_of member.now)) }
{
    match member {
        Member::Attribute(attribute) => passes(test, &attribute.kind),
        Member::Method(method) => params_pass(test, &method.params),
    }
}

fn params_pass(test: KindTest<'_>, params: &[Param]) -> bool
    requires { IsAskable test }
    ensures { result ≡ list_all (λ p. passes test.entry (kind_of p.kind)) params.now }
{
    params.iter().all(|param| passes(test, &param.kind))
}

fn fields_pass(test: KindTest<'_>, fields: &[Field]) -> bool
    requires { IsAskable test }
    ensures { result ≡ list_all (λ f. passes test.entry (kind_of f.kind)) fields.now }
{
    fields.iter().all(|field| passes(test, &field.kind))
}

fn constants_pass(test: KindTest<'_>, constants: &[Constant]) -> bool
    requires { IsAskable test }
    ensures { result ≡ list_all (λ k. passes test.entry (kind_of k.kind)) constants.now }
{
    constants
        .iter()
        .all(|constant| passes(test, &constant.kind))
}

fn constructors_pass(test: KindTest<'_>, constructors: &[Constructor]) -> bool
    requires { IsAskable test }
    ensures { result ≡ list_all (λ k. list_all (λ f. passes test.entry (kind_of f.kind)) k.params.items) constructors.now }
{
    constructors
        .iter()
        .all(|constructor| fields_pass(test, &constructor.params))
}

fn parts_pass(test: KindTest<'_>, parts: &[Part]) -> bool
    requires { IsAskable test }
    ensures { result ≡ list_all (λ p. list_all (passes test.entry) (property_kinds (part_of p))) parts.now }
{
    parts.iter().all(|part| property_passes(test, part))
}

fn property_passes(test: KindTest<'_>, part: &Part) -> bool
    requires { IsAskable test }
    ensures { result ≡ list_all (passes test.entry) (property_kinds (part_of part.now)) }
{
    let Part::Property { kind, .. } = part else {
        return true;
    };
    passes(test, kind)
}

fn results_pass(test: KindTest<'_>, members: &[Member]) -> bool
    requires { IsAskable test }
    ensures { result ≡ list_all (λ m. list_all (passes test.entry) (result_kinds_of (member_of m))) members.now }
{
    members.iter().all(|member| result_passes(test, member))
}

fn result_passes(test: KindTest<'_>, member: &Member) -> bool
    requires { IsAskable test }
    ensures { result ≡ list_all (passes test.entry) (result_kinds_of (member_of member.now)) }
{
    match member {
        Member::Attribute(_) => true,
        Member::Method(method) => passes(test, &method.result),
    }
}

fn passes(test: KindTest<'_>, kind: &TypeName) -> bool
    requires { IsAskable test }
    ensures { result ≡ passes test.entry (kind_of kind.now) }
{
    match test {
        KindTest::Known(entities) => kind_known(entities, kind),
        KindTest::Value => is_value(kind),
        KindTest::Result => elements_storable(kind),
        KindTest::Target => is_target(kind),
        KindTest::Namable => kind.is_namable(),
    }
}
