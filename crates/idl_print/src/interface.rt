//! The tokens of an interface: its bases and its members.
ghost use Rattle.std.specs.Prelude.{◌≡◌, ◌++◌, ◌∷◌, [], ◌||◌, map, OnOk, codes};
ghost use Rattle.std.specs.List.{flat_map};
ghost use Rattle.uno_model.specs.Sound.{is_some_list};
ghost use Rattle.uno_entities.specs.Entities.{base_of, attribute_of, method_of, member_of, param_of};
ghost use Rattle.uno_entities.specs.TypeNames.{kind_of};
ghost use Rattle.registry_text_model.specs.Canonical.{absolute, kind_tokens, listed, raises_tokens, is_only_base, only_base, base_member, base_members, optional_flag, behind_colon, accessor_tokens, accessors, access_flag, attribute_tokens, param_tokens, oneway_flag, method_tokens, member_tokens};
ghost use Rattle.registry_text_model.specs.Lines.{way_word};
ghost use Rattle.idl_print.specs.Tokens.{followed, tokens_at};

use crate::token::{push_absolute, push_behind_colon, push_kind, push_token, push_tokens};
use uno_base::NoMemory;
use uno_types::{Attribute, Base, Member, Method, Name, Param, Way};

/// Whether there is one base alone, and it is not optional.
pub(crate) fn is_only_base(bases: &[Base]) -> bool
    ensures { result ≡ is_only_base (map base_of bases.now) }
{
    let [base] = bases else { return false };
    !base.optional
}

fn push_base_behind_colon(text: &mut Vec<u8>, base: &Base) -> Result<(), NoMemory>
    ensures { OnOk result (text.new.items ≡ text.old.items ++ followed (behind_colon (base_of base.now).name)) }
{
    push_behind_colon(text, base.name.as_str())
}

fn push_behind_colons(text: &mut Vec<u8>, bases: &[Base]) -> Result<(), NoMemory>
    ensures { OnOk result (text.new.items ≡ text.old.items ++ followed (flat_map (λ b. behind_colon b.name) (map base_of bases.now))) }
{
    for base in bases {
        push_base_behind_colon(text, base)?;
    }
    Ok(())
}

/// The only base stands behind `:`.
#[tactic(auto, using(crate::proofs::TokenLemmas::tokens_more, crate::proofs::TokenLemmas::no_tokens))]
pub(crate) fn push_only_base(text: &mut Vec<u8>, bases: &[Base]) -> Result<(), NoMemory>
    ensures { OnOk result (text.new.items ≡ text.old.items ++ followed (only_base (map base_of bases.now))) }
{
    if !is_only_base(bases) {
        return Ok(());
    }
    push_behind_colons(text, bases)
}

#[tactic(auto, using(crate::proofs::TokenLemmas::tokens_more, crate::proofs::TokenLemmas::no_tokens))]
pub(crate) fn push_optional(text: &mut Vec<u8>, optional: bool) -> Result<(), NoMemory>
    ensures { OnOk result (text.new.items ≡ text.old.items ++ followed (optional_flag optional)) }
{
    if optional {
        return push_tokens(text, &["[", "optional", "]"]);
    }
    Ok(())
}

/// A word, a name and `;`.
#[tactic(auto, using(crate::proofs::TokenLemmas::tokens_more, crate::proofs::TokenLemmas::no_tokens))]
pub(crate) fn push_named(text: &mut Vec<u8>, word: &str, name: &str) -> Result<(), NoMemory>
    ensures { OnOk result (text.new.items ≡ text.old.items ++ followed (word.now ∷ (absolute name.now ∷ (codes ";" ∷ [])))) }
{
    push_token(text, word)?;
    push_absolute(text, name)?;
    push_token(text, ";")
}

#[tactic(auto, using(crate::proofs::TokenLemmas::tokens_more, crate::proofs::TokenLemmas::no_tokens))]
fn push_base(text: &mut Vec<u8>, base: &Base) -> Result<(), NoMemory>
    ensures { OnOk result (text.new.items ≡ text.old.items ++ followed (base_member (base_of base.now))) }
{
    push_optional(text, base.optional)?;
    push_named(text, "interface", base.name.as_str())
}

fn push_all_bases(text: &mut Vec<u8>, bases: &[Base]) -> Result<(), NoMemory>
    ensures { OnOk result (text.new.items ≡ text.old.items ++ followed (flat_map base_member (map base_of bases.now))) }
{
    for base in bases {
        push_base(text, base)?;
    }
    Ok(())
}

/// Bases as members, unless there is one alone that is not optional.
#[tactic(auto, using(crate::proofs::TokenLemmas::tokens_more, crate::proofs::TokenLemmas::no_tokens))]
pub(crate) fn push_bases(text: &mut Vec<u8>, bases: &[Base]) -> Result<(), NoMemory>
    ensures { OnOk result (text.new.items ≡ text.old.items ++ followed (base_members (map base_of bases.now))) }
{
    if is_only_base(bases) {
        return Ok(());
    }
    push_all_bases(text, bases)
}

fn push_other_names(text: &mut Vec<u8>, names: &[Name]) -> Result<(), NoMemory>
    ensures { OnOk result (text.new.items ≡ text.old.items ++ followed (flat_map (λ n. codes "," ∷ (absolute n ∷ [])) names.now)) }
{
    for name in names {
        push_other_name(text, name.as_str())?;
    }
    Ok(())
}

#[tactic(auto, using(crate::proofs::TokenLemmas::tokens_more, crate::proofs::TokenLemmas::no_tokens))]
fn push_other_name(text: &mut Vec<u8>, name: &str) -> Result<(), NoMemory>
    ensures { OnOk result (text.new.items ≡ text.old.items ++ followed (codes "," ∷ (absolute name.now ∷ []))) }
{
    push_token(text, ",")?;
    push_absolute(text, name)
}

fn push_names(text: &mut Vec<u8>, names: &[Name]) -> Result<(), NoMemory>
    ensures { OnOk result (text.new.items ≡ text.old.items ++ followed (listed (λ n. absolute n ∷ []) names.now)) }
{
    let [first, others @ ..] = names else {
        return Ok(());
    };
    push_absolute(text, first.as_str())?;
    push_other_names(text, others)
}

/// What is raised, where there is something.
#[tactic(auto, using(crate::proofs::TokenLemmas::tokens_more, crate::proofs::TokenLemmas::no_tokens))]
pub(crate) fn push_raises(text: &mut Vec<u8>, names: &[Name]) -> Result<(), NoMemory>
    ensures { OnOk result (text.new.items ≡ text.old.items ++ followed (raises_tokens names.now)) }
{
    let [_, ..] = names else {
        return Ok(());
    };
    push_tokens(text, &["raises", "("])?;
    push_names(text, names)?;
    push_token(text, ")")
}

/// What reading or writing an attribute may raise, where there is something.
#[tactic(auto, using(crate::proofs::TokenLemmas::tokens_more, crate::proofs::TokenLemmas::no_tokens))]
fn push_accessor(text: &mut Vec<u8>, word: &str, raises: &[Name]) -> Result<(), NoMemory>
    ensures { OnOk result (text.new.items ≡ text.old.items ++ followed (accessor_tokens word.now raises.now)) }
{
    let [_, ..] = raises else {
        return Ok(());
    };
    push_token(text, word)?;
    push_raises(text, raises)?;
    push_token(text, ";")
}

/// Whether reading or writing an attribute may raise something.
fn has_raises(attribute: &Attribute) -> bool
    ensures { result ≡ (is_some_list (attribute_of attribute.now).get_raises || is_some_list (attribute_of attribute.now).set_raises) }
{
    !attribute.get_raises.is_empty() || !attribute.set_raises.is_empty()
}

#[tactic(auto, using(crate::proofs::TokenLemmas::tokens_more, crate::proofs::TokenLemmas::no_tokens))]
fn push_accessors(text: &mut Vec<u8>, attribute: &Attribute) -> Result<(), NoMemory>
    ensures { OnOk result (text.new.items ≡ text.old.items ++ followed (accessors (attribute_of attribute.now))) }
{
    if !has_raises(attribute) {
        return Ok(());
    }
    push_token(text, "{")?;
    push_accessor(text, "get", &attribute.get_raises)?;
    push_accessor(text, "set", &attribute.set_raises)?;
    push_token(text, "}")
}

#[tactic(auto, using(crate::proofs::TokenLemmas::tokens_more, crate::proofs::TokenLemmas::no_tokens))]
fn push_access(text: &mut Vec<u8>, read_only: bool) -> Result<(), NoMemory>
    ensures { OnOk result (text.new.items ≡ text.old.items ++ followed (access_flag read_only)) }
{
    if read_only {
        return push_tokens(text, &[",", "readonly"]);
    }
    Ok(())
}

#[tactic(auto, using(crate::proofs::TokenLemmas::tokens_more, crate::proofs::TokenLemmas::no_tokens))]
fn push_attribute(text: &mut Vec<u8>, attribute: &Attribute) -> Result<(), NoMemory>
    ensures { OnOk result (text.new.items ≡ text.old.items ++ followed (attribute_tokens (attribute_of attribute.now))) }
{
    push_access_flags(text, attribute.read_only)?;
    push_kind(text, &attribute.kind)?;
    push_token(text, attribute.name.as_str())?;
    push_accessors(text, attribute)?;
    push_token(text, ";")
}

#[tactic(auto, using(crate::proofs::TokenLemmas::tokens_more, crate::proofs::TokenLemmas::no_tokens))]
fn push_access_flags(text: &mut Vec<u8>, read_only: bool) -> Result<(), NoMemory>
    ensures { OnOk result (text.new.items ≡ text.old.items ++ followed (codes "[" ∷ (codes "attribute" ∷ (access_flag read_only ++ codes "]" ∷ [])))) }
{
    push_tokens(text, &["[", "attribute"])?;
    push_access(text, read_only)?;
    push_token(text, "]")
}

#[tactic(auto, unfolding(registry_text_model::specs::Lines::way_word))]
fn way_word(way: Way) -> &'static str
    ensures { result.now ≡ way_word way }
{
    match way {
        Way::Into => "in",
        Way::Out => "out",
        Way::Both => "inout",
    }
}

#[tactic(auto, using(crate::proofs::TokenLemmas::tokens_more, crate::proofs::TokenLemmas::no_tokens))]
fn push_param(text: &mut Vec<u8>, param: &Param) -> Result<(), NoMemory>
    ensures { OnOk result (text.new.items ≡ text.old.items ++ followed (param_tokens (param_of param.now))) }
{
    push_tokens(text, &["[", way_word(param.way), "]"])?;
    push_kind(text, &param.kind)?;
    push_token(text, param.name.as_str())
}

fn push_other_params(text: &mut Vec<u8>, params: &[Param]) -> Result<(), NoMemory>
    ensures { OnOk result (text.new.items ≡ text.old.items ++ followed (flat_map (λ p. codes "," ∷ param_tokens p) (map param_of params.now))) }
{
    for param in params {
        push_other_param(text, param)?;
    }
    Ok(())
}

#[tactic(auto, using(crate::proofs::TokenLemmas::tokens_more, crate::proofs::TokenLemmas::no_tokens))]
fn push_other_param(text: &mut Vec<u8>, param: &Param) -> Result<(), NoMemory>
    ensures { OnOk result (text.new.items ≡ text.old.items ++ followed (codes "," ∷ param_tokens (param_of param.now))) }
{
    push_token(text, ",")?;
    push_param(text, param)
}

#[tactic(auto, using(crate::proofs::TokenLemmas::tokens_more, crate::proofs::TokenLemmas::no_tokens))]
fn push_params(text: &mut Vec<u8>, params: &[Param]) -> Result<(), NoMemory>
    ensures { OnOk result (text.new.items ≡ text.old.items ++ followed (listed param_tokens (map param_of params.now))) }
{
    let [first, others @ ..] = params else {
        return Ok(());
    };
    push_param(text, first)?;
    push_other_params(text, others)
}

#[tactic(auto, using(crate::proofs::TokenLemmas::tokens_more, crate::proofs::TokenLemmas::no_tokens))]
fn push_oneway(text: &mut Vec<u8>, oneway: bool) -> Result<(), NoMemory>
    ensures { OnOk result (text.new.items ≡ text.old.items ++ followed (oneway_flag oneway)) }
{
    if oneway {
        return push_tokens(text, &["[", "oneway", "]"]);
    }
    Ok(())
}

#[tactic(auto, using(crate::proofs::TokenLemmas::tokens_more, crate::proofs::TokenLemmas::no_tokens))]
fn push_method(text: &mut Vec<u8>, method: &Method) -> Result<(), NoMemory>
    ensures { OnOk result (text.new.items ≡ text.old.items ++ followed (method_tokens (method_of method.now))) }
{
    push_oneway(text, method.oneway)?;
    push_kind(text, &method.result)?;
    push_tokens(text, &[method.name.as_str(), "("])?;
    push_params(text, &method.params)?;
    push_end(text, &method.raises)
}

/// What stands behind the last parameter.
#[tactic(auto, using(crate::proofs::TokenLemmas::tokens_more, crate::proofs::TokenLemmas::no_tokens))]
pub(crate) fn push_end(text: &mut Vec<u8>, raises: &[Name]) -> Result<(), NoMemory>
    ensures { OnOk result (text.new.items ≡ text.old.items ++ followed (codes ")" ∷ (raises_tokens raises.now ++ codes ";" ∷ []))) }
{
    push_token(text, ")")?;
    push_raises(text, raises)?;
    push_token(text, ";")
}

#[tactic(auto, using(crate::proofs::TokenLemmas::tokens_more, crate::proofs::TokenLemmas::no_tokens))]
fn push_member(text: &mut Vec<u8>, member: &Member) -> Result<(), NoMemory>
    ensures { OnOk result (text.new.items ≡ text.old.items ++ followed (member_tokens (member_of member.now))) }
{
    match member {
        Member::Attribute(attribute) => push_attribute(text, attribute),
        Member::Method(method) => push_method(text, method),
    }
}

pub(crate) fn push_members(text: &mut Vec<u8>, members: &[Member]) -> Result<(), NoMemory>
    ensures { OnOk result (text.new.items ≡ text.old.items ++ followed (flat_map member_tokens (map member_of members.now))) }
{
    for member in members {
        push_member(text, member)?;
    }
    Ok(())
}
