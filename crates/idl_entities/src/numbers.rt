//! What has numbers: the items of enums and the constants of groups.
ghost use Rattle.std.specs.Prelude.{◌≡◌, IfOk, Some, map, slice_get};
ghost use Rattle.idl_entities.specs.Telling.{constant_told, constants_told, item_told, items_told, valued_told};
ghost use Rattle.idl_meaning_model.specs.Declarations.{Valued, constant_valued};
ghost use Rattle.idl_model.specs.Trees as tree;
ghost use Rattle.idl_trees.specs.Members as plain;
ghost use Rattle.uno_entities.specs.Entities.{body_of, constant_of, item_of};
ghost use Rattle.uno_model.specs.Entities as uno;

use crate::meanings::Meanings;
use idl_trees::{Constant, Item};
use std::alloc::Global;
use uno_base::NoMemory;
use uno_entities::{Body, Constant as MeantConstant, Item as MeantItem};

pub(crate) fn enum_body<M: Meanings>(
    alloc: Global,
    meanings: &M,
    items: &[Item],
) -> Result<Body, NoMemory>
    requires { tree.enum (map plain.item_of items.now) ≡ (M.telling meanings.now).declared.body }
    ensures { IfOk result (λ meant. body_of meant ≡ uno.enum (items_told (M.telling meanings.now) (map plain.item_of items.now))) }
{
    let items = items_meant(alloc, meanings, items)?;
    Ok(Body::Enum { items })
}

fn items_meant<M: Meanings>(
    alloc: Global,
    meanings: &M,
    items: &[Item],
) -> Result<Vec<MeantItem>, NoMemory>
    requires { tree.enum (map plain.item_of items.now) ≡ (M.telling meanings.now).declared.body }
    ensures { IfOk result (λ meant. map item_of meant.items ≡ items_told (M.telling meanings.now) (map plain.item_of items.now)) }
{
    let mut meant = Vec::new(alloc);
    let mut place = 0;
    for item in items {
        let one = item_meant(meanings, place, item)?;
        meant.push(one)?;
        place += 1;
    }
    Ok(meant)
}

/// The item at a place.
fn item_meant<M: Meanings>(meanings: &M, place: usize, item: &Item) -> Result<MeantItem, NoMemory>
    ensures { (v : Valued) → slice_get (valued_told (M.telling meanings.now)) place ≡ Some v → v.name.name ≡ item.now.name.name
        → IfOk result (λ meant. item_of meant ≡ item_told (M.telling meanings.now) v) }
{
    let name = item.name.name.copy()?;
    Ok(MeantItem {
        name,
        number: meanings.item(place),
    })
}

pub(crate) fn constants_body<M: Meanings>(
    alloc: Global,
    meanings: &M,
    constants: &[Constant],
) -> Result<Body, NoMemory>
    requires { tree.constants (map plain.constant_of constants.now) ≡ (M.telling meanings.now).declared.body }
    ensures { IfOk result (λ meant. body_of meant ≡ uno.constants (constants_told (M.telling meanings.now) (map plain.constant_of constants.now))) }
{
    let constants = constants_meant(alloc, meanings, constants)?;
    Ok(Body::Constants { constants })
}

fn constants_meant<M: Meanings>(
    alloc: Global,
    meanings: &M,
    constants: &[Constant],
) -> Result<Vec<MeantConstant>, NoMemory>
    requires { tree.constants (map plain.constant_of constants.now) ≡ (M.telling meanings.now).declared.body }
    ensures { IfOk result (λ meant. map constant_of meant.items ≡ constants_told (M.telling meanings.now) (map plain.constant_of constants.now)) }
{
    let mut meant = Vec::new(alloc);
    let mut place = 0;
    for constant in constants {
        let one = constant_meant(meanings, place, constant)?;
        meant.push(one)?;
        place += 1;
    }
    Ok(meant)
}

/// The constant at a place.
fn constant_meant<M: Meanings>(
    meanings: &M,
    place: usize,
    constant: &Constant,
) -> Result<MeantConstant, NoMemory>
    requires { slice_get (valued_told (M.telling meanings.now)) place ≡ Some (constant_valued (M.telling meanings.now).declared (plain.constant_of constant.now)) }
    ensures { IfOk result (λ meant. constant_of meant ≡ constant_told (M.telling meanings.now) (plain.constant_of constant.now)) }
{
    let kind = meanings.kind(&constant.kind)?;
    let name = constant.name.name.copy()?;
    Ok(MeantConstant {
        name,
        number: meanings.constant(place),
        kind,
    })
}
