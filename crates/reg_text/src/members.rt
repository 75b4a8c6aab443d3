//! The lines of an interface.
ghost use Rattle.std.specs.Prelude.{◌≡◌, ◌++◌, ◌∷◌, [], map, OnOk};
ghost use Rattle.std.specs.List.{flat_map};
ghost use Rattle.uno_entities.specs.Entities.{base_of, attribute_of, method_of, member_of, param_of};
ghost use Rattle.registry_text_model.specs.Lines.{spaced, text_of, base_word, base_line, access_word, attribute_line, way_word, param_line, method_line, member_lines};

use crate::line::{push_last, push_named, push_names, push_type, push_word};
use uno_base::NoMemory;
use uno_types::{Attribute, Base, Member, Method, Param, Way};

#[tactic(auto, unfolding(registry_text_model::specs::Lines::base_word))]
fn base_word(optional: bool) -> &'static str
    ensures { result.now ≡ base_word optional }
{
    if optional { "optional" } else { "base" }
}

#[tactic(auto, unfolding(registry_text_model::specs::Lines::access_word))]
fn access_word(read_only: bool) -> &'static str
    ensures { result.now ≡ access_word read_only }
{
    if read_only { "ro" } else { "rw" }
}

#[tactic(auto, unfolding(registry_text_model::specs::Lines::way_word))]
fn way_word(way: Way) -> &'static str
    ensures { result.now ≡ way_word way }
{
    match way {
        Way::Into => "in",
        Way::Out => "out",
        Way::Both => "inout",
    }
}

fn push_base(text: &mut Vec<u8>, base: &Base) -> Result<(), NoMemory>
    ensures { OnOk result (text.new.items ≡ text.old.items ++ text_of (base_line (base_of base.now) ∷ [])) }
{
    push_named(text, base_word(base.optional), base.name.as_str())
}

pub(crate) fn push_bases(text: &mut Vec<u8>, bases: &[Base]) -> Result<(), NoMemory>
    ensures { OnOk result (text.new.items ≡ text.old.items ++ text_of (map base_line (map base_of bases.now))) }
{
    for base in bases {
        push_base(text, base)?;
    }
    Ok(())
}

#[tactic(auto, using(crate::proofs::TextLemmas::spaced_line))]
fn push_attribute_line(text: &mut Vec<u8>, attribute: &Attribute) -> Result<(), NoMemory>
    ensures { OnOk result (text.new.items ≡ text.old.items ++ text_of (attribute_line (attribute_of attribute.now) ∷ [])) }
{
    push_word(text, "attribute")?;
    push_word(text, attribute.name.as_str())?;
    push_word(text, access_word(attribute.read_only))?;
    push_type(text, &attribute.kind)
}

#[tactic(auto, using(crate::proofs::TextLemmas::lines_more))]
fn push_attribute(text: &mut Vec<u8>, attribute: &Attribute) -> Result<(), NoMemory>
    ensures { OnOk result (text.new.items ≡ text.old.items ++ text_of (member_lines (member_of (Member.Attribute attribute.now)))) }
{
    push_attribute_line(text, attribute)?;
    push_names(text, "getraises", &attribute.get_raises)?;
    push_names(text, "setraises", &attribute.set_raises)
}

/// A one-way method has no result to write.
#[tactic(auto, using(crate::proofs::TextLemmas::spaced_line))]
fn push_method_line(text: &mut Vec<u8>, method: &Method) -> Result<(), NoMemory>
    ensures { OnOk result (text.new.items ≡ text.old.items ++ text_of (method_line (method_of method.now) ∷ [])) }
{
    if method.oneway {
        return push_named(text, "oneway", method.name.as_str());
    }
    push_word(text, "method")?;
    push_word(text, method.name.as_str())?;
    push_type(text, &method.result)
}

#[tactic(auto, using(crate::proofs::TextLemmas::spaced_line))]
fn push_param(text: &mut Vec<u8>, param: &Param) -> Result<(), NoMemory>
    ensures { OnOk result (text.new.items ≡ text.old.items ++ text_of (param_line (param_of param.now) ∷ [])) }
{
    push_word(text, "param")?;
    push_word(text, way_word(param.way))?;
    push_word(text, param.name.as_str())?;
    push_type(text, &param.kind)
}

fn push_params(text: &mut Vec<u8>, params: &[Param]) -> Result<(), NoMemory>
    ensures { OnOk result (text.new.items ≡ text.old.items ++ text_of (map param_line (map param_of params.now))) }
{
    for param in params {
        push_param(text, param)?;
    }
    Ok(())
}

#[tactic(auto, using(crate::proofs::TextLemmas::lines_more))]
fn push_method(text: &mut Vec<u8>, method: &Method) -> Result<(), NoMemory>
    ensures { OnOk result (text.new.items ≡ text.old.items ++ text_of (member_lines (member_of (Member.Method method.now)))) }
{
    push_method_line(text, method)?;
    push_params(text, &method.params)?;
    push_names(text, "raises", &method.raises)
}

fn push_member(text: &mut Vec<u8>, member: &Member) -> Result<(), NoMemory>
    ensures { OnOk result (text.new.items ≡ text.old.items ++ text_of (member_lines (member_of member.now))) }
{
    match member {
        Member::Attribute(attribute) => push_attribute(text, attribute),
        Member::Method(method) => push_method(text, method),
    }
}

pub(crate) fn push_members(text: &mut Vec<u8>, members: &[Member]) -> Result<(), NoMemory>
    ensures { OnOk result (text.new.items ≡ text.old.items ++ text_of (flat_map member_lines (map member_of members.now))) }
{
    for member in members {
        push_member(text, member)?;
    }
    Ok(())
}
