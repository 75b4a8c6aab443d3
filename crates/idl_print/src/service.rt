//! The tokens of services.
ghost use Rattle.std.specs.Prelude.{◌≡◌, ◌++◌, ◌∷◌, [], map, OnOk, codes};
ghost use Rattle.std.specs.List.{flat_map};
ghost use Rattle.uno_model.specs.Entities as plain;
ghost use Rattle.uno_model.specs.Sound.{is_some_list};
ghost use Rattle.uno_entities.specs.Entities.{field_of, constructor_of, part_of};
ghost use Rattle.uno_entities.specs.TypeNames.{kind_of};
ghost use Rattle.registry_text_model.specs.Canonical.{kind_tokens, listed, raises_tokens, given_tokens, rest_param, comma_behind, rest_tokens, constructor_tokens, is_implicit, is_implicit_alone, constructors_tokens, optional_flag, part_tokens};
ghost use Rattle.registry_text_model.specs.Lines.{flag_words};
ghost use Rattle.idl_print.specs.Tokens.{followed, tokens_at};

use crate::interface::{push_end, push_named, push_optional};
use crate::token::{push_kind, push_token, push_tokens};
use reg_text::flag_words;
use std::alloc::Global;
use uno_base::NoMemory;
use uno_types::{Constructor, Field, Flags, Name, Part, TypeName};

#[tactic(auto, using(crate::proofs::TokenLemmas::tokens_more, crate::proofs::TokenLemmas::no_tokens))]
fn push_given(text: &mut Vec<u8>, param: &Field) -> Result<(), NoMemory>
    ensures { OnOk result (text.new.items ≡ text.old.items ++ followed (given_tokens (field_of param.now))) }
{
    push_tokens(text, &["[", "in", "]"])?;
    push_kind(text, &param.kind)?;
    push_token(text, param.name.as_str())
}

#[tactic(auto, using(crate::proofs::TokenLemmas::tokens_more, crate::proofs::TokenLemmas::no_tokens))]
fn push_other_given(text: &mut Vec<u8>, param: &Field) -> Result<(), NoMemory>
    ensures { OnOk result (text.new.items ≡ text.old.items ++ followed (codes "," ∷ given_tokens (field_of param.now))) }
{
    push_token(text, ",")?;
    push_given(text, param)
}

fn push_others_given(text: &mut Vec<u8>, params: &[Field]) -> Result<(), NoMemory>
    ensures { OnOk result (text.new.items ≡ text.old.items ++ followed (flat_map (λ p. codes "," ∷ given_tokens p) (map field_of params.now))) }
{
    for param in params {
        push_other_given(text, param)?;
    }
    Ok(())
}

#[tactic(auto, using(crate::proofs::TokenLemmas::tokens_more, crate::proofs::TokenLemmas::no_tokens))]
fn push_all_given(text: &mut Vec<u8>, params: &[Field]) -> Result<(), NoMemory>
    ensures { OnOk result (text.new.items ≡ text.old.items ++ followed (listed given_tokens (map field_of params.now))) }
{
    let [first, others @ ..] = params else {
        return Ok(());
    };
    push_given(text, first)?;
    push_others_given(text, others)
}

#[tactic(auto, using(crate::proofs::TokenLemmas::tokens_more, crate::proofs::TokenLemmas::no_tokens))]
fn push_comma(text: &mut Vec<u8>, behind: bool) -> Result<(), NoMemory>
    ensures { OnOk result (text.new.items ≡ text.old.items ++ followed (comma_behind behind)) }
{
    if behind {
        return push_token(text, ",");
    }
    Ok(())
}

/// The rest parameter, where there is one, behind a comma if there are others.
#[tactic(auto, using(crate::proofs::TokenLemmas::tokens_more, crate::proofs::TokenLemmas::no_tokens))]
fn push_rest(text: &mut Vec<u8>, others: bool, rest: &Option<Name>) -> Result<(), NoMemory>
    ensures { OnOk result (text.new.items ≡ text.old.items ++ followed (rest_tokens others rest.now)) }
{
    let Some(name) = rest else { return Ok(()) };
    push_comma(text, others)?;
    push_tokens(text, &["[", "in", "]", "any", "...", name.as_str()])
}

fn has_params(constructor: &Constructor) -> bool
    ensures { result ≡ is_some_list (constructor_of constructor.now).params }
{
    !constructor.params.is_empty()
}

#[tactic(auto, using(crate::proofs::TokenLemmas::tokens_more, crate::proofs::TokenLemmas::no_tokens))]
fn push_constructor(text: &mut Vec<u8>, constructor: &Constructor) -> Result<(), NoMemory>
    ensures { OnOk result (text.new.items ≡ text.old.items ++ followed (constructor_tokens (constructor_of constructor.now))) }
{
    push_tokens(text, &[constructor.name.as_str(), "("])?;
    push_all_given(text, &constructor.params)?;
    push_rest(text, has_params(constructor), &constructor.rest)?;
    push_end(text, &constructor.raises)
}

fn push_all_constructors(text: &mut Vec<u8>, constructors: &[Constructor]) -> Result<(), NoMemory>
    ensures { OnOk result (text.new.items ≡ text.old.items ++ followed (flat_map constructor_tokens (map constructor_of constructors.now))) }
{
    for constructor in constructors {
        push_constructor(text, constructor)?;
    }
    Ok(())
}

/// Whether it is the constructor that a service without constructors has.
fn is_implicit(constructor: &Constructor) -> bool
    ensures { result ≡ is_implicit (constructor_of constructor.now) }
{
    constructor.name.as_str() == "create"
        && (constructor.params.is_empty()
            && (constructor.rest.is_none() && constructor.raises.is_empty()))
}

fn is_implicit_alone(constructors: &[Constructor]) -> bool
    ensures { result ≡ is_implicit_alone (map constructor_of constructors.now) }
{
    let [constructor] = constructors else {
        return false;
    };
    is_implicit(constructor)
}

#[tactic(auto, using(crate::proofs::TokenLemmas::tokens_more, crate::proofs::TokenLemmas::no_tokens))]
pub(crate) fn push_constructors(
    text: &mut Vec<u8>,
    constructors: &[Constructor],
) -> Result<(), NoMemory>
    ensures { OnOk result (text.new.items ≡ text.old.items ++ followed (constructors_tokens (map constructor_of constructors.now))) }
{
    if is_implicit_alone(constructors) {
        return Ok(());
    }
    push_token(text, "{")?;
    push_all_constructors(text, constructors)?;
    push_token(text, "}")
}

#[tactic(auto, using(crate::proofs::TokenLemmas::tokens_more, crate::proofs::TokenLemmas::no_tokens))]
fn push_flag(text: &mut Vec<u8>, flag: &str) -> Result<(), NoMemory>
    ensures { OnOk result (text.new.items ≡ text.old.items ++ followed (codes "," ∷ (flag.now ∷ []))) }
{
    push_token(text, ",")?;
    push_token(text, flag)
}

fn push_all_flags(text: &mut Vec<u8>, flags: &[&str]) -> Result<(), NoMemory>
    ensures { OnOk result (text.new.items ≡ text.old.items ++ followed (flat_map (λ w. codes "," ∷ (w ∷ [])) (tokens_at flags.now))) }
{
    for flag in flags {
        push_flag(text, flag)?;
    }
    Ok(())
}

#[tactic(auto, using(crate::proofs::TokenLemmas::tokens_more, crate::proofs::TokenLemmas::no_tokens))]
fn push_flags(alloc: Global, text: &mut Vec<u8>, flags: &Flags) -> Result<(), NoMemory>
    ensures { OnOk result (text.new.items ≡ text.old.items ++ followed (flat_map (λ w. codes "," ∷ (w ∷ [])) (flag_words flags.now))) }
{
    let words = flag_words(alloc, flags)?;
    push_all_flags(text, &words)
}

#[tactic(auto, using(crate::proofs::TokenLemmas::tokens_more, crate::proofs::TokenLemmas::no_tokens))]
fn push_property(
    alloc: Global,
    text: &mut Vec<u8>,
    name: &str,
    flags: &Flags,
    kind: &TypeName,
) -> Result<(), NoMemory>
    ensures { OnOk result (text.new.items ≡ text.old.items ++ followed (part_tokens (plain.property name.now flags.now (kind_of kind.now)))) }
{
    push_tokens(text, &["[", "property"])?;
    push_flags(alloc, text, flags)?;
    push_token(text, "]")?;
    push_kind(text, kind)?;
    push_token(text, name)?;
    push_token(text, ";")
}

#[tactic(auto, using(crate::proofs::TokenLemmas::tokens_more, crate::proofs::TokenLemmas::no_tokens))]
fn push_part(alloc: Global, text: &mut Vec<u8>, part: &Part) -> Result<(), NoMemory>
    ensures { OnOk result (text.new.items ≡ text.old.items ++ followed (part_tokens (part_of part.now))) }
{
    match part {
        Part::Interface { optional, name } => {
            push_optional(text, *optional)?;
            push_named(text, "interface", name.as_str())
        }
        Part::Service { optional, name } => {
            push_optional(text, *optional)?;
            push_named(text, "service", name.as_str())
        }
        Part::Property { name, flags, kind } => {
            push_property(alloc, text, name.as_str(), flags, kind)
        }
    }
}

pub(crate) fn push_parts(alloc: Global, text: &mut Vec<u8>, parts: &[Part]) -> Result<(), NoMemory>
    ensures { OnOk result (text.new.items ≡ text.old.items ++ followed (flat_map part_tokens (map part_of parts.now))) }
{
    for part in parts {
        push_part(alloc, text, part)?;
    }
    Ok(())
}
