//! The tokens of structs, exceptions, enums and constants.
ghost use Rattle.std.specs.Prelude.{◌≡◌, ◌++◌, ◌∷◌, [], map, OnOk, codes};
ghost use Rattle.std.specs.List.{flat_map};
ghost use Rattle.uno_entities.specs.Entities.{field_of, item_of, constant_of};
ghost use Rattle.uno_entities.specs.TypeNames.{kind_of};
ghost use Rattle.registry_text_model.specs.Canonical.{kind_tokens, number_tokens, listed, field_tokens, base_tokens, item_tokens, constant_tokens, behind_colon};
ghost use Rattle.idl_print.specs.Tokens.{followed, tokens_at};

use crate::token::{push_behind_colon, push_kind, push_number, push_token, push_tokens};
use std::alloc::Global;
use uno_base::NoMemory;
use uno_types::{Constant, Field, Item, Name};

/// The base behind `:`, where there is one.
#[tactic(auto, using(crate::proofs::TokenLemmas::tokens_more, crate::proofs::TokenLemmas::no_tokens))]
pub(crate) fn push_base(text: &mut Vec<u8>, base: &Option<Name>) -> Result<(), NoMemory>
    ensures { OnOk result (text.new.items ≡ text.old.items ++ followed (base_tokens base.now)) }
{
    match base {
        Some(name) => push_behind_colon(text, name.as_str()),
        None => Ok(()),
    }
}

#[tactic(auto, using(crate::proofs::TokenLemmas::tokens_more, crate::proofs::TokenLemmas::no_tokens))]
fn push_field(text: &mut Vec<u8>, field: &Field) -> Result<(), NoMemory>
    ensures { OnOk result (text.new.items ≡ text.old.items ++ followed (field_tokens (field_of field.now))) }
{
    push_kind(text, &field.kind)?;
    push_token(text, field.name.as_str())?;
    push_token(text, ";")
}

pub(crate) fn push_fields(text: &mut Vec<u8>, fields: &[Field]) -> Result<(), NoMemory>
    ensures { OnOk result (text.new.items ≡ text.old.items ++ followed (flat_map field_tokens (map field_of fields.now))) }
{
    for field in fields {
        push_field(text, field)?;
    }
    Ok(())
}

#[tactic(auto, using(crate::proofs::TokenLemmas::tokens_more, crate::proofs::TokenLemmas::no_tokens))]
fn push_item(alloc: Global, text: &mut Vec<u8>, item: &Item) -> Result<(), NoMemory>
    ensures { OnOk result (text.new.items ≡ text.old.items ++ followed (item_tokens (item_of item.now))) }
{
    push_token(text, item.name.as_str())?;
    push_token(text, "=")?;
    push_number(alloc, text, item.number as i128)
}

#[tactic(auto, using(crate::proofs::TokenLemmas::tokens_more, crate::proofs::TokenLemmas::no_tokens))]
fn push_other_item(alloc: Global, text: &mut Vec<u8>, item: &Item) -> Result<(), NoMemory>
    ensures { OnOk result (text.new.items ≡ text.old.items ++ followed (codes "," ∷ item_tokens (item_of item.now))) }
{
    push_token(text, ",")?;
    push_item(alloc, text, item)
}

fn push_other_items(alloc: Global, text: &mut Vec<u8>, items: &[Item]) -> Result<(), NoMemory>
    ensures { OnOk result (text.new.items ≡ text.old.items ++ followed (flat_map (λ i. codes "," ∷ item_tokens i) (map item_of items.now))) }
{
    for item in items {
        push_other_item(alloc, text, item)?;
    }
    Ok(())
}

#[tactic(auto, using(crate::proofs::TokenLemmas::tokens_more, crate::proofs::TokenLemmas::no_tokens))]
pub(crate) fn push_items(alloc: Global, text: &mut Vec<u8>, items: &[Item]) -> Result<(), NoMemory>
    ensures { OnOk result (text.new.items ≡ text.old.items ++ followed (listed item_tokens (map item_of items.now))) }
{
    let [first, others @ ..] = items else {
        return Ok(());
    };
    push_item(alloc, text, first)?;
    push_other_items(alloc, text, others)
}

#[tactic(auto, using(crate::proofs::TokenLemmas::tokens_more, crate::proofs::TokenLemmas::no_tokens))]
fn push_constant(alloc: Global, text: &mut Vec<u8>, constant: &Constant) -> Result<(), NoMemory>
    ensures { OnOk result (text.new.items ≡ text.old.items ++ followed (constant_tokens (constant_of constant.now))) }
{
    push_token(text, "const")?;
    push_kind(text, &constant.kind)?;
    push_token(text, constant.name.as_str())?;
    push_token(text, "=")?;
    push_number(alloc, text, constant.number)?;
    push_token(text, ";")
}

pub(crate) fn push_constants(
    alloc: Global,
    text: &mut Vec<u8>,
    constants: &[Constant],
) -> Result<(), NoMemory>
    ensures { OnOk result (text.new.items ≡ text.old.items ++ followed (flat_map constant_tokens (map constant_of constants.now))) }
{
    for constant in constants {
        push_constant(alloc, text, constant)?;
    }
    Ok(())
}
