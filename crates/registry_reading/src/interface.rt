//! The lines of an interface.
ghost use Rattle.std.specs.Prelude.{◌≡◌, ℕ, List, [], IfOk, OnOk, Ok, Some, None, true, false, map, option_map};
ghost use Rattle.uno_model.specs.Kinds.{Kind};
ghost use Rattle.uno_entities.specs.TypeNames.{kind_of};
ghost use Rattle.uno_model.specs.Entities as plain;
ghost use Rattle.uno_entities.specs.Entities.{base_of, attribute_of, method_of, member_of, param_of};
ghost use Rattle.registry_reading_model.specs.Bodies as model;
ghost use Rattle.registry_reading_model.specs.Heads.{named_in};
ghost use Rattle.registry_reading_model.specs.Kept.{kept};
ghost use Rattle.registry_reading_model.specs.Words.{on_some};
ghost use Rattle.registry_reading.specs.Taken.{IsTaken};
ghost use Rattle.registry_reading.specs.Members.{member_line, added_under};

use crate::fields::field;
use crate::heads::Heads;
use crate::kind::kind;
use crate::names::{entity_name, identifier_alone, push_entity_name};
use crate::pushing::push_read;
use crate::words::{identifier, is_read_only, way, word};
use std::alloc::Global;
use uno_base::NoMemory;
use uno_types::{Attribute, Base, Field, Member, Method, Name, Param, TypeName};

/// `NAME rw TYPE`, or `ro`.
#[tactic(auto, unfolding(registry_reading_model::specs::Bodies::attribute_of))]
fn attribute(alloc: Global, heads: &Heads<'_>, text: &str) -> Result<Option<Member>, NoMemory>
    ensures { IfOk result (λ m. option_map member_of m ≡ on_some (model.attribute_of (kept (named_in heads.now)) text.now) (λ a. Some (plain.attribute a))) }
{
    let Some((name, behind)) = identifier(text) else {
        return Ok(None);
    };
    let Some((access, behind)) = word(behind) else {
        return Ok(None);
    };
    let Some(read_only) = is_read_only(access) else {
        return Ok(None);
    };
    let name = Name::of(alloc, name)?;
    match kind(alloc, heads, behind)? {
        Some(kind) => Ok(Some(Member::Attribute(Attribute {
            name,
            read_only,
            kind,
            get_raises: Vec::new(alloc),
            set_raises: Vec::new(alloc),
        }))),
        None => Ok(None),
    }
}

/// `NAME TYPE`.
fn method(alloc: Global, heads: &Heads<'_>, text: &str) -> Result<Option<Member>, NoMemory>
    ensures { IfOk result (λ m. option_map member_of m ≡ on_some (model.method_of (kept (named_in heads.now)) text.now) (λ m. Some (plain.method m))) }
{
    match field(alloc, heads, text)? {
        Some(Field { name, kind }) => Ok(Some(new_method(alloc, name, false, kind))),
        None => Ok(None),
    }
}

/// A one-way method, whose result is void.
#[tactic(auto, unfolding(registry_reading_model::specs::Bodies::oneway_of, registry_reading_model::specs::Kept::resolved, registry_reading_model::specs::Kept::cut, registry_reading_model::specs::Kept::innermost, registry_reading_model::specs::Kinds::sequences))]
fn oneway(alloc: Global, heads: &Heads<'_>, text: &str) -> Result<Option<Member>, NoMemory>
    ensures { IfOk result (λ m. option_map member_of m ≡ on_some (model.oneway_of (kept (named_in heads.now)) text.now) (λ m. Some (plain.method m))) }
{
    match identifier_alone(alloc, text)? {
        Some(name) => Ok(Some(new_method(alloc, name, true, TypeName::Void))),
        None => Ok(None),
    }
}

fn new_method(alloc: Global, name: Name, oneway: bool, kind: TypeName) -> Member
    ensures { member_of result ≡ plain.method (record { name = name; oneway = oneway; result_kind = kind_of kind; params = []; raises = [] }) }
{
    Member::Method(Method {
        name,
        oneway,
        result: kind,
        params: Vec::new(alloc),
        raises: Vec::new(alloc),
    })
}

/// `in NAME TYPE`, or `out` or `inout`.
#[tactic(auto, unfolding(registry_reading_model::specs::Bodies::param_of))]
fn param(alloc: Global, heads: &Heads<'_>, text: &str) -> Result<Option<Param>, NoMemory>
    ensures { IfOk result (λ p. option_map param_of p ≡ model.param_of (kept (named_in heads.now)) text.now) }
{
    let Some((first, behind)) = word(text) else {
        return Ok(None);
    };
    let Some(way) = way(first) else {
        return Ok(None);
    };
    match field(alloc, heads, behind)? {
        Some(Field { name, kind }) => Ok(Some(Param { way, name, kind })),
        None => Ok(None),
    }
}

// ---- lines under a member

/// What reading an attribute raises, before what writing it raises.
#[tactic(auto, unfolding(registry_reading_model::specs::Bodies::get_raises_added))]
fn push_get_raises(
    alloc: Global,
    heads: &Heads<'_>,
    member: &mut Member,
    text: &str,
) -> Result<bool, NoMemory>
    ensures { IfOk result (λ taken. IsTaken taken (member_of member.new) (model.get_raises_added text.now (member_of member.old))) }
{
    let Member::Attribute(attribute) = member else {
        return Ok(false);
    };
    if !attribute.set_raises.is_empty() {
        return Ok(false);
    }
    push_entity_name(alloc, heads, &mut attribute.get_raises, text)
}

#[tactic(auto, unfolding(registry_reading_model::specs::Bodies::set_raises_added))]
fn push_set_raises(
    alloc: Global,
    heads: &Heads<'_>,
    member: &mut Member,
    text: &str,
) -> Result<bool, NoMemory>
    ensures { IfOk result (λ taken. IsTaken taken (member_of member.new) (model.set_raises_added text.now (member_of member.old))) }
{
    match member {
        Member::Attribute(attribute) => {
            push_entity_name(alloc, heads, &mut attribute.set_raises, text)
        }
        Member::Method(_) => Ok(false),
    }
}

/// A parameter of a method, before what it raises.
#[tactic(auto, unfolding(registry_reading_model::specs::Bodies::param_added))]
fn push_param(
    alloc: Global,
    heads: &Heads<'_>,
    member: &mut Member,
    text: &str,
) -> Result<bool, NoMemory>
    ensures { IfOk result (λ taken. IsTaken taken (member_of member.new) (model.param_added (kept (named_in heads.now)) text.now (member_of member.old))) }
{
    let Member::Method(method) = member else {
        return Ok(false);
    };
    if !method.raises.is_empty() {
        return Ok(false);
    }
    let read = param(alloc, heads, text)?;
    push_read(&mut method.params, read)
}

#[tactic(auto, unfolding(registry_reading_model::specs::Bodies::raises_added))]
fn push_raises(
    alloc: Global,
    heads: &Heads<'_>,
    member: &mut Member,
    text: &str,
) -> Result<bool, NoMemory>
    ensures { IfOk result (λ taken. IsTaken taken (member_of member.new) (model.raises_added text.now (member_of member.old))) }
{
    match member {
        Member::Method(method) => push_entity_name(alloc, heads, &mut method.raises, text),
        Member::Attribute(_) => Ok(false),
    }
}

// ---- the lines

/// A base, before all members.
fn push_base(
    alloc: Global,
    heads: &Heads<'_>,
    bases: &mut Vec<Base>,
    members: &[Member],
    optional: bool,
    text: &str,
) -> Result<bool, NoMemory>
    ensures { IfOk result (λ taken. IsTaken taken (plain.interface (map base_of bases.new.items) (map member_of members.now)) (model.base_added optional (map base_of bases.old.items) (map member_of members.now) text.now)) }
{
    if !members.is_empty() {
        return Ok(false);
    }
    let Some(name) = entity_name(alloc, heads, text)? else {
        return Ok(false);
    };
    bases.push(Base { optional, name })?;
    Ok(true)
}

/// One line more under an interface: a word, and what stands behind it.
#[tactic(auto, unfolding(registry_reading_model::specs::Bodies::interface_line))]
pub(crate) fn interface_line(
    alloc: Global,
    heads: &Heads<'_>,
    bases: &mut Vec<Base>,
    members: &mut Vec<Member>,
    word: &str,
    text: &str,
) -> Result<bool, NoMemory>
    ensures { IfOk result (λ taken. IsTaken taken (plain.interface (map base_of bases.new.items) (map member_of members.new.items)) (model.interface_line (kept (named_in heads.now)) (map base_of bases.old.items) (map member_of members.old.items) word.now text.now)) }
{
    match word {
        "base" => push_base(alloc, heads, bases, members, false, text),
        "optional" => push_base(alloc, heads, bases, members, true, text),
        _ => member_line(alloc, heads, members, word, text),
    }
}

/// A member, or a line under the last one.
#[tactic(auto, unfolding(crate::specs::Members::member_line))]
fn member_line(
    alloc: Global,
    heads: &Heads<'_>,
    members: &mut Vec<Member>,
    word: &str,
    text: &str,
) -> Result<bool, NoMemory>
    ensures { IfOk result (λ taken. IsTaken taken (map member_of members.new.items) (member_line (kept (named_in heads.now)) (map member_of members.old.items) word.now text.now)) }
{
    match word {
        "attribute" => push_attribute(alloc, heads, members, text),
        "method" => push_method(alloc, heads, members, text),
        "oneway" => push_oneway(alloc, heads, members, text),
        _ => line_under_member(alloc, heads, members, word, text),
    }
}

fn push_attribute(
    alloc: Global,
    heads: &Heads<'_>,
    members: &mut Vec<Member>,
    text: &str,
) -> Result<bool, NoMemory>
    ensures { IfOk result (λ taken. IsTaken taken (map member_of members.new.items) (model.pushed (map member_of members.old.items) (on_some (model.attribute_of (kept (named_in heads.now)) text.now) (λ a. Some (plain.attribute a))))) }
{
    let read = attribute(alloc, heads, text)?;
    push_read(members, read)
}

fn push_method(
    alloc: Global,
    heads: &Heads<'_>,
    members: &mut Vec<Member>,
    text: &str,
) -> Result<bool, NoMemory>
    ensures { IfOk result (λ taken. IsTaken taken (map member_of members.new.items) (model.pushed (map member_of members.old.items) (on_some (model.method_of (kept (named_in heads.now)) text.now) (λ m. Some (plain.method m))))) }
{
    let read = method(alloc, heads, text)?;
    push_read(members, read)
}

fn push_oneway(
    alloc: Global,
    heads: &Heads<'_>,
    members: &mut Vec<Member>,
    text: &str,
) -> Result<bool, NoMemory>
    ensures { IfOk result (λ taken. IsTaken taken (map member_of members.new.items) (model.pushed (map member_of members.old.items) (on_some (model.oneway_of (kept (named_in heads.now)) text.now) (λ m. Some (plain.method m))))) }
{
    let read = oneway(alloc, heads, text)?;
    push_read(members, read)
}

/// A line that goes into the last member.
fn line_under_member(
    alloc: Global,
    heads: &Heads<'_>,
    members: &mut Vec<Member>,
    word: &str,
    text: &str,
) -> Result<bool, NoMemory>
    ensures { IfOk result (λ taken. IsTaken taken (map member_of members.new.items) (model.last_changed (added_under (kept (named_in heads.now)) word.now text.now) (map member_of members.old.items))) }
{
    match members.last_mut() {
        Some(member) => push_line(alloc, heads, member, word, text),
        None => Ok(false),
    }
}

/// One line more under a member.
#[tactic(auto, unfolding(crate::specs::Members::added_under))]
fn push_line(
    alloc: Global,
    heads: &Heads<'_>,
    member: &mut Member,
    word: &str,
    text: &str,
) -> Result<bool, NoMemory>
    ensures { IfOk result (λ taken. IsTaken taken (member_of member.new) (added_under (kept (named_in heads.now)) word.now text.now (member_of member.old))) }
{
    match word {
        "getraises" => push_get_raises(alloc, heads, member, text),
        "setraises" => push_set_raises(alloc, heads, member, text),
        "param" => push_param(alloc, heads, member, text),
        "raises" => push_raises(alloc, heads, member, text),
        _ => Ok(false),
    }
}
