//! Words: the four of their own, and the items of enums.
ghost use Rattle.std.specs.Prelude.{◌≡◌, map};
ghost use Rattle.std.specs.List.{list_any};
ghost use Rattle.uno_model.specs.Defaults.{items_of};
ghost use Rattle.literal_model.specs.Literals.{first_item};
ghost use Rattle.literal_model.specs.Shapes.{word_at, is_known_word, is_own_word, is_first_name, is_some_name};
ghost use Rattle.uno_entities.specs.Entities.{item_of, entity_of, entities_of};
ghost use Rattle.literal_reading.specs.Scanning.{Scans, token_of};

use crate::items::{is_name_of, items_in};
use crate::scan::run::{Run, split_run};
use crate::scan::types::as_text;
use crate::stop::{Scan, Stop};
use crate::token::Token;
use std::alloc::Global;
use uno_types::{Entity, Item, Name, Registry};

/// A word that is known in the registry.
pub(crate) fn word_at<'a>(alloc: Global, registry: &Registry, bytes: &'a [u8]) -> Scan<'a, Token>
    ensures { Scans (λ x. (token_of x.0, x.1.now)) result (word_at registry.now bytes.now) }
{
    let (run, rest) = split_run(Run::Word, bytes);
    let word = as_text(Run::Word, run);
    if !is_known_word(registry, word) {
        return Err(Stop::Bad(bytes.len()));
    }
    Ok((Token::Word(Name::of(alloc, word)?), rest))
}

/// One of the four words, or the name of the first item of its number in some enum: each is looked at.
pub fn is_known_word(registry: &Registry, word: &str) -> bool
    ensures { result ≡ is_known_word registry.now word.now }
{
    is_own(word) || is_item_of_some(registry.entities(), word)
}

fn is_own(word: &str) -> bool
    ensures { result ≡ is_own_word word.now }
{
    matches!(word, "true" | "false" | "void" | "null")
}

fn is_item_of_some(entities: &[Entity], word: &str) -> bool
    ensures { result ≡ list_any (λ e. is_first_name (items_of (Some e)) word.now) (entities_of entities.now) }
{
    for entity in entities {
        if is_first_name(items_in(entity), word) {
            return true;
        }
    }
    false
}

/// Where items have different names, only one of them asks which item is the first of its number.
fn is_first_name(items: &[Item], word: &str) -> bool
    ensures { result ≡ is_first_name (map item_of items.now) word.now }
{
    for item in items {
        if item.name.as_str() == word && is_name_of(items, item.number, word) {
            return true;
        }
    }
    false
}
