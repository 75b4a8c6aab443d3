//! That the items of an enum have different names.
ghost use Rattle.std.specs.Prelude.{◌≡◌, IfOk, map};
ghost use Rattle.uno_model.specs.Sound.{all_differ, items_differ};
ghost use Rattle.uno_entities.specs.Entities.{item_of, entity_of};

use std::alloc::Global;
use std::collections::BTreeSet;
use uno_base::NoMemory;
use uno_entities::{Body, Entity, Item};

/// From the last item to the first, so that each name is looked up among those behind it.
fn names_differ(alloc: Global, items: &[Item]) -> Result<bool, NoMemory>
    ensures { IfOk result (λ b. b ≡ all_differ (map (λ i. i.name) (map item_of items.now))) }
{
    let mut names = BTreeSet::new(alloc);
    let mut left = items.len();
    while left > 0 {
        left -= 1;
        let is_new = names.insert(items[left].name.as_str())?;
        if !is_new {
            return Ok(false);
        }
    }
    Ok(true)
}

/// Whether the items of an enum have different names; what is no enum has none.
pub fn items_differ(alloc: Global, entity: &Entity) -> Result<bool, NoMemory>
    ensures { IfOk result (λ b. b ≡ items_differ (entity_of entity.now)) }
{
    let Body::Enum { items } = &entity.body else {
        return Ok(true);
    };
    names_differ(alloc, items)
}
