//! Members of structs and exceptions, items of enums, constants.
ghost use Rattle.std.specs.Prelude.{◌≡◌, ℕ, List, IfOk, OnOk, Ok, Some, None, true, false, map, option_map, codes};
ghost use Rattle.uno_model.specs.Kinds.{Kind};
ghost use Rattle.uno_entities.specs.Entities.{field_of, item_of, constant_of};
ghost use Rattle.registry_reading_model.specs.Bodies as model;
ghost use Rattle.registry_reading_model.specs.Heads.{named_in};
ghost use Rattle.registry_reading_model.specs.Kept.{kept, long_or_zero};
ghost use Rattle.registry_reading_model.specs.Numbers.{number_of};
ghost use Rattle.registry_reading_model.specs.Words.{on_some, behind};
ghost use Rattle.registry_reading.specs.Taken.{IsTaken};

use crate::heads::Heads;
use crate::kind::kind;
use crate::number::number;
use crate::pushing::push_read;
use crate::words::{behind, identifier, word};
use std::alloc::Global;
use uno_base::NoMemory;
use uno_types::{Constant, Field, Item, Name};

/// `NAME TYPE`.
#[tactic(auto, unfolding(registry_reading_model::specs::Bodies::field_of))]
pub(crate) fn field(alloc: Global, heads: &Heads<'_>, text: &str) -> Result<Option<Field>, NoMemory>
    ensures { IfOk result (λ f. option_map field_of f ≡ model.field_of (kept (named_in heads.now)) text.now) }
{
    let Some((name, behind)) = identifier(text) else {
        return Ok(None);
    };
    let name = Name::of(alloc, name)?;
    match kind(alloc, heads, behind)? {
        Some(kind) => Ok(Some(Field { name, kind })),
        None => Ok(None),
    }
}

/// `member NAME TYPE`.
#[tactic(auto, unfolding(registry_reading_model::specs::Bodies::fields_line))]
pub(crate) fn push_field(
    alloc: Global,
    heads: &Heads<'_>,
    members: &mut Vec<Field>,
    line: &str,
) -> Result<bool, NoMemory>
    ensures { IfOk result (λ taken. IsTaken taken (map field_of members.new.items) (model.fields_line (kept (named_in heads.now)) (map field_of members.old.items) line.now)) }
{
    let Some(text) = behind(line, "member ") else {
        return Ok(false);
    };
    let read = field(alloc, heads, text)?;
    push_read(members, read)
}

/// `NAME NUMBER`.
#[tactic(auto, unfolding(registry_reading_model::specs::Bodies::item_of))]
fn item(alloc: Global, heads: &Heads<'_>, text: &str) -> Result<Option<Item>, NoMemory>
    ensures { IfOk result (λ i. option_map item_of i ≡ model.item_of (kept (named_in heads.now)) text.now) }
{
    let Some((name, digits)) = identifier(text) else {
        return Ok(None);
    };
    let Some(number) = long(digits) else {
        return Ok(None);
    };
    let name = Name::of(alloc, name)?;
    Ok(Some(Item { name, number }))
}

/// The number that a text spells; one beyond those of `long` stands as 0, and the headers know of it.
fn long(text: &str) -> Option<i32>
    ensures { result ≡ option_map long_or_zero (number_of text.now) }
{
    match number(text) {
        Some(value) => Some(long_or_zero(value)),
        None => None,
    }
}

#[tactic(auto, unfolding(registry_reading_model::specs::Kept::long_or_zero))]
fn long_or_zero(number: i128) -> i32
    ensures { result ≡ long_or_zero number }
{
    if -2_147_483_648 <= number && number <= 2_147_483_647 {
        return number as i32;
    }
    0
}

/// `value NAME NUMBER`.
pub(crate) fn push_item(
    alloc: Global,
    heads: &Heads<'_>,
    items: &mut Vec<Item>,
    line: &str,
) -> Result<bool, NoMemory>
    ensures { IfOk result (λ taken. IsTaken taken (map item_of items.new.items) (model.pushed (map item_of items.old.items) (on_some (behind (codes "value ") line.now) (model.item_of (kept (named_in heads.now)))))) }
{
    let Some(text) = behind(line, "value ") else {
        return Ok(false);
    };
    let read = item(alloc, heads, text)?;
    push_read(items, read)
}

/// `NAME NUMBER TYPE`.
#[tactic(auto, unfolding(registry_reading_model::specs::Bodies::constant_of))]
fn constant(alloc: Global, heads: &Heads<'_>, text: &str) -> Result<Option<Constant>, NoMemory>
    ensures { IfOk result (λ c. option_map constant_of c ≡ model.constant_of (kept (named_in heads.now)) text.now) }
{
    let Some((name, behind)) = identifier(text) else {
        return Ok(None);
    };
    let Some((digits, behind)) = word(behind) else {
        return Ok(None);
    };
    let Some(number) = number(digits) else {
        return Ok(None);
    };
    let name = Name::of(alloc, name)?;
    match kind(alloc, heads, behind)? {
        Some(kind) => Ok(Some(Constant { name, number, kind })),
        None => Ok(None),
    }
}

/// `const NAME NUMBER TYPE`.
pub(crate) fn push_constant(
    alloc: Global,
    heads: &Heads<'_>,
    constants: &mut Vec<Constant>,
    line: &str,
) -> Result<bool, NoMemory>
    ensures { IfOk result (λ taken. IsTaken taken (map constant_of constants.new.items) (model.pushed (map constant_of constants.old.items) (on_some (behind (codes "const ") line.now) (model.constant_of (kept (named_in heads.now)))))) }
{
    let Some(text) = behind(line, "const ") else {
        return Ok(false);
    };
    let read = constant(alloc, heads, text)?;
    push_read(constants, read)
}
