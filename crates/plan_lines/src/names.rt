//! Names at the front of a text: identifiers, paths, functions, and names of exports between quotes.
ghost use Rattle.std.specs.Prelude.{◌≡◌, option_map, IfOk};
ghost use Rattle.std.specs.List.{list_all};
ghost use Rattle.uno_model.specs.Names.{goes_on_identifier, parts_of};
ghost use Rattle.literal_model.specs.Shapes.{is_word};
ghost use Rattle.plan_model.specs.Forms.{is_path, is_function_text, is_accessor, is_export_name, is_export_byte};
ghost use Rattle.plan_reading_model.specs.Parts as model;
ghost use Rattle.plan_lines.specs.Reads.{both};
ghost use Rattle.plan_lines.specs.Runs.{function_run};

use crate::class::{Class, as_text, is_in, split};
use crate::marks::behind;
use std::alloc::Global;
use uno_base::NoMemory;
use uno_entities::{begins_identifier, goes_on_identifier, is_identifier};
use uno_types::Name;

/// What stands in front of the name of an attribute.
const GET: &[u8] = b"get:";

const SET: &[u8] = b"set:";

/// What stands in front of a name between quotes, and behind it.
const QUOTE: &[u8] = b"\"";

/// The most bytes of the name of an export.
const MOST_EXPORTED: usize = 64;

/// An identifier.
#[tactic(auto, unfolding(plan_reading_model::specs::Parts::identifier_at))]
pub(crate) fn identifier_at(bytes: &[u8]) -> Option<(&str, &[u8])>
    ensures { option_map both result ≡ model.identifier_at bytes.now }
{
    let (run, rest) = split(Class::Word, bytes);
    let name = as_text(run);
    if !is_identifier(name) {
        return None;
    }
    Some((name, rest))
}

/// Words joined by points.
#[tactic(auto, unfolding(plan_reading_model::specs::Parts::path_at))]
pub(crate) fn path_at(bytes: &[u8]) -> Option<(&str, &[u8])>
    ensures { option_map both result ≡ model.path_at bytes.now }
{
    let (run, rest) = split(Class::Path, bytes);
    let path = as_text(run);
    if !is_path(path) {
        return None;
    }
    Some((path, rest))
}

/// Whether it is words joined by points.
pub(crate) fn is_path(path: &str) -> bool
    ensures { result ≡ is_path path.now }
{
    let mut rest = path;
    while let Some((part, behind)) = rest.split_once('.') {
        if !is_word(part.as_bytes()) {
            return false;
        }
        rest = behind;
    }
    is_word(rest.as_bytes())
}

fn is_word(bytes: &[u8]) -> bool
    ensures { result ≡ is_word bytes.now }
{
    let [first, rest @ ..] = bytes else {
        return false;
    };
    begins_identifier(*first) && go_on(rest)
}

fn go_on(bytes: &[u8]) -> bool
    ensures { result ≡ list_all goes_on_identifier bytes.now }
{
    bytes.iter().all(|byte| goes_on_identifier(*byte))
}

/// A function: a word, or one behind `get:` or `set:`.
#[tactic(auto, unfolding(plan_reading_model::specs::Parts::function_at))]
pub(crate) fn function_at(bytes: &[u8]) -> Option<(&str, &[u8])>
    ensures { option_map both result ≡ model.function_at bytes.now }
{
    let (name, rest) = function_run(bytes);
    if !is_function(name) {
        return None;
    }
    Some((name, rest))
}

/// A word, or `get:` or `set:` and what goes on a word.
fn function_run(bytes: &[u8]) -> (&str, &[u8])
    ensures { both result ≡ function_run bytes.now }
{
    if !is_accessor(bytes) {
        let (run, rest) = split(Class::Word, bytes);
        return (as_text(run), rest);
    }
    let (_, behind) = bytes.split_at(GET.len());
    let (run, rest) = split(Class::Word, behind);
    let (name, _) = bytes.split_at(GET.len() + run.len());
    (as_text(name), rest)
}

/// Whether `get:` or `set:` stands in front.
fn is_accessor(bytes: &[u8]) -> bool
    ensures { result ≡ is_accessor bytes.now }
{
    if bytes.len() < GET.len() {
        return false;
    }
    let (front, _) = bytes.split_at(GET.len());
    front == GET || front == SET
}

#[tactic(auto, unfolding(plan_model::specs::Forms::is_function_text))]
fn is_function(name: &str) -> bool
    ensures { result ≡ is_function_text name.now }
{
    let bytes = name.as_bytes();
    if !is_accessor(bytes) {
        return is_word(bytes);
    }
    let (_, word) = bytes.split_at(GET.len());
    is_word(word)
}

/// The name of an export between quotes.
#[tactic(auto, unfolding(plan_reading_model::specs::Parts::export_name_at))]
pub(crate) fn export_name_at(bytes: &[u8]) -> Option<(&str, &[u8])>
    ensures { option_map both result ≡ model.export_name_at bytes.now }
{
    let rest = behind(QUOTE, bytes)?;
    let (run, rest) = split(Class::Exported, rest);
    let name = as_text(run);
    if !is_export_name(name) {
        return None;
    }
    let rest = behind(QUOTE, rest)?;
    Some((name, rest))
}

/// Whether it is 1 to 64 letters, digits, `.`, `_` and `-`.
#[tactic(auto, unfolding(plan_model::specs::Forms::is_export_name))]
fn is_export_name(name: &str) -> bool
    ensures { result ≡ is_export_name name.now }
{
    !name.is_empty() && name.len() <= MOST_EXPORTED && are_exported(name.as_bytes())
}

fn are_exported(bytes: &[u8]) -> bool
    ensures { result ≡ list_all is_export_byte bytes.now }
{
    bytes.iter().all(|byte| is_in(Class::Exported, *byte))
}

/// Two names of these texts.
pub(crate) fn two_names(alloc: Global, one: &str, other: &str) -> Result<(Name, Name), NoMemory>
    ensures { IfOk result (λ names. (names.0 ≡ one.now) × (names.1 ≡ other.now)) }
{
    let one = Name::of(alloc, one)?;
    match Name::of(alloc, other) {
        Ok(other) => Ok((one, other)),
        Err(error) => {
            drop(one);
            Err(error)
        }
    }
}
