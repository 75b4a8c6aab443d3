//! The lines of services.
ghost use Rattle.std.specs.Prelude.{◌≡◌, ℕ, List, [], IfOk, OnOk, Ok, Some, None, true, false, map, option_map};
ghost use Rattle.uno_model.specs.Entities as plain;
ghost use Rattle.uno_entities.specs.Entities.{constructor_of, part_of, field_of};
ghost use Rattle.registry_reading_model.specs.Bodies as model;
ghost use Rattle.registry_reading_model.specs.Heads.{named_in};
ghost use Rattle.registry_reading_model.specs.Kept.{kept};
ghost use Rattle.registry_reading_model.specs.Words.{on_some, entity_name_of};
ghost use Rattle.registry_reading.specs.Taken.{IsTaken};
ghost use Rattle.registry_reading.specs.Members.{added_to};

use crate::fields::field;
use crate::heads::Heads;
use crate::kind::kind;
use crate::names::{entity_name, identifier_alone, push_entity_name};
use crate::pushing::push_read;
use crate::words::{behind, flags, identifier, word};
use std::alloc::Global;
use uno_base::NoMemory;
use uno_types::{Constructor, Name, Part};

// ---- services of the new form

#[tactic(auto, unfolding(registry_reading_model::specs::Bodies::constructor_of))]
fn constructor(alloc: Global, text: &str) -> Result<Option<Constructor>, NoMemory>
    ensures { IfOk result (λ k. option_map constructor_of k ≡ model.constructor_of text.now) }
{
    let Some(name) = identifier_alone(alloc, text)? else {
        return Ok(None);
    };
    Ok(Some(Constructor {
        name,
        params: Vec::new(alloc),
        rest: None,
        raises: Vec::new(alloc),
    }))
}

/// Whether neither a rest parameter nor what is raised stands behind the parameters.
fn is_open(constructor: &Constructor) -> bool
    ensures { result ≡ model.is_open (constructor_of constructor.now) }
{
    constructor.rest.is_none() && constructor.raises.is_empty()
}

/// A parameter, before the rest parameter and what is raised.
#[tactic(auto, unfolding(registry_reading_model::specs::Bodies::given_added))]
fn push_param(
    alloc: Global,
    heads: &Heads<'_>,
    constructor: &mut Constructor,
    text: &str,
) -> Result<bool, NoMemory>
    ensures { IfOk result (λ taken. IsTaken taken (constructor_of constructor.new) (model.given_added (kept (named_in heads.now)) text.now (constructor_of constructor.old))) }
{
    if !is_open(constructor) {
        return Ok(false);
    }
    let Some(text) = behind(text, "in ") else {
        return Ok(false);
    };
    let read = field(alloc, heads, text)?;
    push_read(&mut constructor.params, read)
}

#[tactic(auto, unfolding(registry_reading_model::specs::Bodies::rest_added))]
fn set_rest(alloc: Global, constructor: &mut Constructor, text: &str) -> Result<bool, NoMemory>
    ensures { IfOk result (λ taken. IsTaken taken (constructor_of constructor.new) (model.rest_added text.now (constructor_of constructor.old))) }
{
    if !is_open(constructor) {
        return Ok(false);
    }
    let Some(name) = identifier_alone(alloc, text)? else {
        return Ok(false);
    };
    constructor.rest = Some(name);
    Ok(true)
}

#[tactic(auto, unfolding(registry_reading_model::specs::Bodies::raised_added))]
fn push_raises(
    alloc: Global,
    heads: &Heads<'_>,
    constructor: &mut Constructor,
    text: &str,
) -> Result<bool, NoMemory>
    ensures { IfOk result (λ taken. IsTaken taken (constructor_of constructor.new) (model.raised_added text.now (constructor_of constructor.old))) }
{
    push_entity_name(alloc, heads, &mut constructor.raises, text)
}

/// One line more under a constructor.
#[tactic(auto, unfolding(crate::specs::Members::added_to))]
fn push_line(
    alloc: Global,
    heads: &Heads<'_>,
    constructor: &mut Constructor,
    word: &str,
    text: &str,
) -> Result<bool, NoMemory>
    ensures { IfOk result (λ taken. IsTaken taken (constructor_of constructor.new) (added_to (kept (named_in heads.now)) word.now text.now (constructor_of constructor.old))) }
{
    match word {
        "param" => push_param(alloc, heads, constructor, text),
        "rest" => set_rest(alloc, constructor, text),
        "raises" => push_raises(alloc, heads, constructor, text),
        _ => Ok(false),
    }
}

/// One line more under a service of the new form: a word, and what stands behind it.
#[tactic(auto, unfolding(registry_reading_model::specs::Bodies::constructor_line))]
pub(crate) fn constructor_line(
    alloc: Global,
    heads: &Heads<'_>,
    constructors: &mut Vec<Constructor>,
    word: &str,
    text: &str,
) -> Result<bool, NoMemory>
    ensures { IfOk result (λ taken. IsTaken taken (map constructor_of constructors.new.items) (model.constructor_line (kept (named_in heads.now)) (map constructor_of constructors.old.items) word.now text.now)) }
{
    match word {
        "constructor" => push_constructor(alloc, constructors, text),
        _ => line_under_constructor(alloc, heads, constructors, word, text),
    }
}

fn push_constructor(
    alloc: Global,
    constructors: &mut Vec<Constructor>,
    text: &str,
) -> Result<bool, NoMemory>
    ensures { IfOk result (λ taken. IsTaken taken (map constructor_of constructors.new.items) (model.pushed (map constructor_of constructors.old.items) (model.constructor_of text.now))) }
{
    let read = constructor(alloc, text)?;
    push_read(constructors, read)
}

/// A line that goes into the last constructor.
fn line_under_constructor(
    alloc: Global,
    heads: &Heads<'_>,
    constructors: &mut Vec<Constructor>,
    word: &str,
    text: &str,
) -> Result<bool, NoMemory>
    ensures { IfOk result (λ taken. IsTaken taken (map constructor_of constructors.new.items) (model.last_changed (added_to (kept (named_in heads.now)) word.now text.now) (map constructor_of constructors.old.items))) }
{
    match constructors.last_mut() {
        Some(constructor) => push_line(alloc, heads, constructor, word, text),
        None => Ok(false),
    }
}

// ---- services of the old form

/// `NAME FLAGS TYPE`.
#[tactic(auto, unfolding(registry_reading_model::specs::Bodies::property_of))]
fn property(alloc: Global, heads: &Heads<'_>, text: &str) -> Result<Option<Part>, NoMemory>
    ensures { IfOk result (λ p. option_map part_of p ≡ model.property_of (kept (named_in heads.now)) text.now) }
{
    let Some((name, behind)) = identifier(text) else {
        return Ok(None);
    };
    let Some((word, behind)) = word(behind) else {
        return Ok(None);
    };
    let Some(flags) = flags(word) else {
        return Ok(None);
    };
    let name = Name::of(alloc, name)?;
    match kind(alloc, heads, behind)? {
        Some(kind) => Ok(Some(Part::Property { name, flags, kind })),
        None => Ok(None),
    }
}

fn interface_part(
    alloc: Global,
    heads: &Heads<'_>,
    optional: bool,
    text: &str,
) -> Result<Option<Part>, NoMemory>
    ensures { IfOk result (λ p. option_map part_of p ≡ on_some (entity_name_of text.now) (λ name. Some (plain.face optional name))) }
{
    match entity_name(alloc, heads, text)? {
        Some(name) => Ok(Some(Part::Interface { optional, name })),
        None => Ok(None),
    }
}

fn service_part(
    alloc: Global,
    heads: &Heads<'_>,
    optional: bool,
    text: &str,
) -> Result<Option<Part>, NoMemory>
    ensures { IfOk result (λ p. option_map part_of p ≡ on_some (entity_name_of text.now) (λ name. Some (plain.subservice optional name))) }
{
    match entity_name(alloc, heads, text)? {
        Some(name) => Ok(Some(Part::Service { optional, name })),
        None => Ok(None),
    }
}

/// A line under a service of the old form: a word, and what stands behind it.
#[tactic(auto, unfolding(registry_reading_model::specs::Bodies::part_of))]
pub(crate) fn part(
    alloc: Global,
    heads: &Heads<'_>,
    word: &str,
    text: &str,
) -> Result<Option<Part>, NoMemory>
    ensures { IfOk result (λ p. option_map part_of p ≡ model.part_of (kept (named_in heads.now)) word.now text.now) }
{
    match word {
        "interface" => interface_part(alloc, heads, false, text),
        "optinterface" => interface_part(alloc, heads, true, text),
        "service" => service_part(alloc, heads, false, text),
        "optservice" => service_part(alloc, heads, true, text),
        "property" => property(alloc, heads, text),
        _ => Ok(None),
    }
}
