//! The words that are literals: an index of a registry's.
ghost use Rattle.std.specs.Prelude.{◌≡◌, ◌&&◌, ◌||◌, ℤ, Some, not, map, IfOk, OnOk};
ghost use Rattle.std.specs.Ordering.{int_eq};
ghost use Rattle.std.specs.Str.{bytes_eq};
ghost use Rattle.literal_model.specs.Shapes.{is_known_word, is_own_word, is_first_name};
ghost use Rattle.uno_model.specs.Defaults.{items_of};
ghost use Rattle.uno_entities.specs.Entities.{item_of, entity_of, entities_of};
ghost use Rattle.plan_lines.specs.Index.{Adds, is_some_first, seen_in};

use std::alloc::Global;
use std::collections::BTreeSet;
use std::marker::Model;
use uno_base::NoMemory;
use uno_types::{Body, Entity, Item, Registry};

/// The words that stand for a value in a registry: the names of the items that are the first of their numbers.
#[derive(Drop)]
pub struct Words<'a> {
    registry: &'a Registry,
    names: BTreeSet<&'a str>,
}

impl<'a> Model for Words<'a> {
    ghost use Rattle.std.specs.Prelude.{List};
    ghost use Rattle.uno_model.specs.Entities.{Entity as Plain};

    ghost Value = { List Plain };

    ghost use Rattle.std.specs.Coded.{codes};
    ghost use Rattle.uno_model.specs.Codes.{kind_code};

    ghost coded = { Prim.hlevel (codes, kind_code) };

    ghost use Rattle.plan_lines.specs.Index.{IsIndex};

    ghost view = { λ w. w.registry.now };

    ghost invariant = { λ w. IsIndex w.names w.registry.now };
}

impl<'a> Words<'a> {
    /// Those of a registry.
    pub fn new(alloc: Global, registry: &'a Registry) -> Result<Words<'a>, NoMemory>
        ensures { IfOk result (λ words. words ≡ registry.now) }
    {
        let mut names = BTreeSet::new(alloc);
        add_entities(alloc, registry.entities(), &mut names)?;
        Ok(Words { registry, names })
    }

    /// Whether some literal has the word.
    pub fn is_known(&self, word: &str) -> bool
        ensures { result ≡ is_known_word self.now word.now }
    {
        is_own(word) || self.names.contains(word)
    }
}

fn is_own(word: &str) -> bool
    ensures { result ≡ is_own_word word.now }
{
    matches!(word, "true" | "false" | "void" | "null")
}

/// The names of the enums among these.
fn add_entities<'a>(
    alloc: Global,
    entities: &'a [Entity],
    names: &mut BTreeSet<&'a str>,
) -> Result<(), NoMemory>
    ensures { OnOk result (Adds names.old names.new (is_some_first (entities_of entities.now))) }
{
    for entity in entities {
        add_items(alloc, items_in(entity), names)?;
    }
    Ok(())
}

fn items_in(entity: &Entity) -> &[Item]
    ensures { map item_of result.now ≡ items_of (Some (entity_of entity.now)) }
{
    match &entity.body {
        Body::Enum { items } => items.as_slice(),
        _ => &[],
    }
}

/// The names of the items that are the first of their numbers.
fn add_items<'a>(
    alloc: Global,
    items: &'a [Item],
    names: &mut BTreeSet<&'a str>,
) -> Result<(), NoMemory>
    ensures { OnOk result (Adds names.old names.new (is_first_name (map item_of items.now))) }
{
    let mut numbers = BTreeSet::new(alloc);
    for item in items {
        add_item(item, &mut numbers, names)?;
    }
    Ok(())
}

/// The name of an item whose number was not seen before it.
fn add_item<'a>(
    item: &'a Item,
    numbers: &mut BTreeSet<i32>,
    names: &mut BTreeSet<&'a str>,
) -> Result<(), NoMemory>
    ensures numbers { OnOk result ((n : ℤ) → seen_in numbers.new n ≡ (int_eq n item.now.number || seen_in numbers.old n)) }
    ensures names { OnOk result (Adds names.old names.new (λ w. not (seen_in numbers.old item.now.number) && bytes_eq item.now.name w)) }
{
    let is_new = sees(item, numbers)?;
    if !is_new {
        return Ok(());
    }
    names.insert(item.name.as_str())?;
    Ok(())
}

/// Sees the number of an item, and answers whether it is new.
fn sees(item: &Item, numbers: &mut BTreeSet<i32>) -> Result<bool, NoMemory>
    ensures told { IfOk result (λ is_new. is_new ≡ not (seen_in numbers.old item.now.number)) }
    ensures seen { OnOk result ((n : ℤ) → seen_in numbers.new n ≡ (int_eq n item.now.number || seen_in numbers.old n)) }
{
    let is_new = numbers.insert(item.number)?;
    Ok(is_new)
}
