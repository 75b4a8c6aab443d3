//! The number of each item of an enum has 32 bits: laws, whose functions do nothing but walk through a registry.
ghost use Rattle.std.specs.Prelude.{map};
ghost use Rattle.std.specs.List.{AllByRecursion};
ghost use Rattle.bridge_laws.specs.Texts.{AreSmallItems, HasSmallItems, HasSmallNumber};
ghost use Rattle.uno_entities.specs.Entities.{body_of, entity_of, item_of};
ghost use Rattle.uno_model.specs.Defaults.{items_in};

use uno_entities::{Body, Entity, Item};
use uno_types::Registry;

pub(crate) fn every_item_is_small(registry: &Registry)
    ensures { AreSmallItems registry.now }
{
    entities_are_small(registry.entities())
}

fn entities_are_small(entities: &[Entity])
    ensures { AllByRecursion HasSmallItems (map entity_of entities.now) }
{
    for entity in entities {
        body_is_small(&entity.body);
    }
}

fn body_is_small(body: &Body)
    ensures { AllByRecursion HasSmallNumber (items_in (body_of body.now)) }
{
    let Body::Enum { items } = body else {
        return;
    };
    items_are_small(items);
}

fn items_are_small(items: &[Item])
    ensures { AllByRecursion HasSmallNumber (map item_of items.now) }
{
    for item in items {
        let _number = item.number;
    }
}
