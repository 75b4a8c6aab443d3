//! The lines of structs, exceptions, enums, constants and services.
ghost use Rattle.std.specs.Prelude.{◌≡◌, ◌++◌, ◌∷◌, [], map, OnOk, List, codes};
ghost use Rattle.std.specs.List.{flat_map};
ghost use Rattle.uno_model.specs.Entities as plain;
ghost use Rattle.uno_entities.specs.Entities.{field_of, item_of, constant_of, constructor_of, part_of};
ghost use Rattle.uno_entities.specs.TypeNames.{kind_of};
ghost use Rattle.registry_text_model.specs.Lines.{spaced, text_of, field_line, item_line, constant_line, given_line, rest_lines, name_lines, constructor_lines, flag_word, flag_words, joined_by_commas, face_word, subservice_word, part_line};

use crate::line::{push_last_number, push_named, push_names, push_number, push_type, push_word};
use std::alloc::Global;
use uno_base::NoMemory;
use uno_types::{Constant, Constructor, Field, Flags, Item, Name, Part, TypeName};

#[tactic(auto, using(crate::proofs::TextLemmas::spaced_line))]
fn push_field(text: &mut Vec<u8>, field: &Field) -> Result<(), NoMemory>
    ensures { OnOk result (text.new.items ≡ text.old.items ++ text_of (field_line (field_of field.now) ∷ [])) }
{
    push_word(text, "member")?;
    push_word(text, field.name.as_str())?;
    push_type(text, &field.kind)
}

pub(crate) fn push_fields(text: &mut Vec<u8>, fields: &[Field]) -> Result<(), NoMemory>
    ensures { OnOk result (text.new.items ≡ text.old.items ++ text_of (map field_line (map field_of fields.now))) }
{
    for field in fields {
        push_field(text, field)?;
    }
    Ok(())
}

#[tactic(auto, using(crate::proofs::TextLemmas::spaced_line))]
fn push_item(alloc: Global, text: &mut Vec<u8>, item: &Item) -> Result<(), NoMemory>
    ensures { OnOk result (text.new.items ≡ text.old.items ++ text_of (item_line (item_of item.now) ∷ [])) }
{
    push_word(text, "value")?;
    push_word(text, item.name.as_str())?;
    push_last_number(alloc, text, item.number)
}

pub(crate) fn push_items(alloc: Global, text: &mut Vec<u8>, items: &[Item]) -> Result<(), NoMemory>
    ensures { OnOk result (text.new.items ≡ text.old.items ++ text_of (map item_line (map item_of items.now))) }
{
    for item in items {
        push_item(alloc, text, item)?;
    }
    Ok(())
}

#[tactic(auto, using(crate::proofs::TextLemmas::spaced_line))]
fn push_constant(alloc: Global, text: &mut Vec<u8>, constant: &Constant) -> Result<(), NoMemory>
    ensures { OnOk result (text.new.items ≡ text.old.items ++ text_of (constant_line (constant_of constant.now) ∷ [])) }
{
    push_word(text, "const")?;
    push_word(text, constant.name.as_str())?;
    push_number(alloc, text, constant.number)?;
    push_type(text, &constant.kind)
}

pub(crate) fn push_constants(
    alloc: Global,
    text: &mut Vec<u8>,
    constants: &[Constant],
) -> Result<(), NoMemory>
    ensures { OnOk result (text.new.items ≡ text.old.items ++ text_of (map constant_line (map constant_of constants.now))) }
{
    for constant in constants {
        push_constant(alloc, text, constant)?;
    }
    Ok(())
}

#[tactic(auto, using(crate::proofs::TextLemmas::spaced_line))]
fn push_given(text: &mut Vec<u8>, param: &Field) -> Result<(), NoMemory>
    ensures { OnOk result (text.new.items ≡ text.old.items ++ text_of (given_line (field_of param.now) ∷ [])) }
{
    push_word(text, "param")?;
    push_word(text, "in")?;
    push_word(text, param.name.as_str())?;
    push_type(text, &param.kind)
}

fn push_all_given(text: &mut Vec<u8>, params: &[Field]) -> Result<(), NoMemory>
    ensures { OnOk result (text.new.items ≡ text.old.items ++ text_of (map given_line (map field_of params.now))) }
{
    for param in params {
        push_given(text, param)?;
    }
    Ok(())
}

#[tactic(auto, using(crate::proofs::TextLemmas::no_lines))]
fn push_rest(text: &mut Vec<u8>, rest: &Option<Name>) -> Result<(), NoMemory>
    ensures { OnOk result (text.new.items ≡ text.old.items ++ text_of (rest_lines rest.now)) }
{
    match rest {
        Some(name) => push_named(text, "rest", name.as_str()),
        None => Ok(()),
    }
}

#[tactic(auto, using(crate::proofs::TextLemmas::lines_more))]
fn push_constructor(text: &mut Vec<u8>, constructor: &Constructor) -> Result<(), NoMemory>
    ensures { OnOk result (text.new.items ≡ text.old.items ++ text_of (constructor_lines (constructor_of constructor.now))) }
{
    push_named(text, "constructor", constructor.name.as_str())?;
    push_all_given(text, &constructor.params)?;
    push_rest(text, &constructor.rest)?;
    push_names(text, "raises", &constructor.raises)
}

pub(crate) fn push_constructors(
    text: &mut Vec<u8>,
    constructors: &[Constructor],
) -> Result<(), NoMemory>
    ensures { OnOk result (text.new.items ≡ text.old.items ++ text_of (flat_map constructor_lines (map constructor_of constructors.now))) }
{
    for constructor in constructors {
        push_constructor(text, constructor)?;
    }
    Ok(())
}
