//! The items of an enum, and the first of them that has a number.
ghost use Rattle.std.specs.Prelude.{◌≡◌, map, option_map};
ghost use Rattle.uno_model.specs.Defaults.{items_of};
ghost use Rattle.literal_model.specs.Literals.{first_item};
ghost use Rattle.uno_model.specs.Registry.{find_entity};
ghost use Rattle.literal_model.specs.Shapes.{is_some_name};
ghost use Rattle.uno_entities.specs.Entities.{item_of, body_of, entity_of};

use uno_types::{Body, Entity, Item, Name, Registry};

/// The items of the enum of this name; a name that is no enum has none.
pub fn items_of<'a>(registry: &'a Registry, name: &str) -> &'a [Item]
    ensures { map item_of result.now ≡ items_of (find_entity name.now registry.now) }
{
    match registry.find(name) {
        Some(entity) => items_in(entity),
        None => &[],
    }
}

pub(crate) fn items_in(entity: &Entity) -> &[Item]
    ensures { map item_of result.now ≡ items_of (Some (entity_of entity.now)) }
{
    match &entity.body {
        Body::Enum { items } => items.as_slice(),
        _ => &[],
    }
}

/// The name of the first item that has this number.
#[tactic(auto, unfolding(literal_model::specs::Literals::first_item))]
pub fn first_item(items: &[Item], number: i32) -> Option<&str>
    ensures { option_map (λ name. name.now) result ≡ first_item (map item_of items.now) number }
{
    for item in items {
        if item.number == number {
            return Some(item.name.as_str());
        }
    }
    None
}

/// Whether the first item of the number has this name.
pub(crate) fn is_name_of(items: &[Item], number: i32, word: &str) -> bool
    ensures { result ≡ is_some_name (first_item (map item_of items.now) number) word.now }
{
    match first_item(items, number) {
        Some(name) => name == word,
        None => false,
    }
}
