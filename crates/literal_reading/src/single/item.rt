//! The literals of an enum: the name of the first item of a number, and a number that no item has.
ghost use Rattle.std.specs.Prelude.{◌≡◌, map, option_map};
ghost use Rattle.uno_model.specs.Defaults.{items_of};
ghost use Rattle.literal_model.specs.Readings.{number_named, item_of_word, item_of_number, item_in};
ghost use Rattle.uno_model.specs.Registry.{find_entity};
ghost use Rattle.uno_entities.specs.Entities.{item_of};
ghost use Rattle.literal_reading.specs.Scanning.{token_of};

use crate::items::{first_item, is_name_of, items_of};
use crate::token::Token;
use uno_types::{Item, Registry};

/// The number that a token gives in an enum.
pub(crate) fn item_in(registry: &Registry, name: &str, token: &Token) -> Option<i32>
    ensures { result ≡ item_in (items_of (find_entity name.now registry.now)) (token_of token.now) }
{
    let items = items_of(registry, name);
    match token {
        Token::Word(word) => item_of_word(items, word.as_str()),
        Token::Number(number) => item_of_number(items, *number),
        _ => None,
    }
}

fn item_of_word(items: &[Item], word: &str) -> Option<i32>
    ensures { result ≡ item_of_word (map item_of items.now) word.now }
{
    let number = number_named(items, word)?;
    if is_name_of(items, number, word) {
        return Some(number);
    }
    None
}

/// The number of the first item of this name.
#[tactic(auto, unfolding(literal_model::specs::Readings::number_named))]
fn number_named(items: &[Item], word: &str) -> Option<i32>
    ensures { result ≡ number_named (map item_of items.now) word.now }
{
    for item in items {
        if item.name.as_str() == word {
            return Some(item.number);
        }
    }
    None
}

fn item_of_number(items: &[Item], number: i128) -> Option<i32>
    ensures { result ≡ item_of_number (map item_of items.now) number }
{
    let number = i32::try_from(number).ok()?;
    match first_item(items, number) {
        Some(_) => None,
        None => Some(number),
    }
}
