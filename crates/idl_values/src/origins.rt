//! What gives each constant and item its value, in the order of all of them.
ghost use Rattle.std.specs.Prelude.{◌≡◌, IfOk, List, OnOk, map};
ghost use Rattle.idl_meaning_model.specs.Declarations as model;
ghost use Rattle.idl_names.specs.Collected.{declared_of};
ghost use Rattle.idl_names.specs.Paths.{Parts};
ghost use Rattle.idl_trees.specs.Members as plain;
ghost use Rattle.idl_trees.specs.Trees.{declaration_of};
ghost use Rattle.idl_values.specs.Origins.{AddsOrigins, all_origins, item_origins, constant_origins, one_origin, origin_of, origins_in, origins_of};

use idl_names::Declared;
use idl_trees::{Constant, Declaration, Expr, Item, Place};
use std::alloc::Global;
use uno_base::NoMemory;

/// An expression, or the item before, whose name stands at the place; without both, an item is the first of its enum.
#[derive(Clone, Copy)]
pub enum Origin<'a> {
    Expression(&'a Expr),
    FirstItem,
    ItemBefore(Place),
}

/// What gives the constants and items of these declarations their values.
pub fn declared_origins<'a>(
    alloc: Global,
    all: &[Declared<'a>],
) -> Result<Vec<Origin<'a>>, NoMemory>
    ensures { (paths : List Parts) → IfOk result (λ origins. origins_of origins.items ≡ all_origins (model.all_valued (map (declared_of paths) all.now))) }
{
    let mut origins = Vec::new(alloc);
    for declared in all {
        add_origins(&mut origins, declared.body)?;
    }
    Ok(origins)
}

fn add_origins<'a>(origins: &mut Vec<Origin<'a>>, body: &'a Declaration) -> Result<(), NoMemory>
    ensures { OnOk result (AddsOrigins origins.old.items (origins_in (declaration_of body.now)) origins.new.items) }
{
    match body {
        Declaration::Constants(constants) => add_constants(origins, constants.as_slice()),
        Declaration::Enum(items) => add_items(origins, items.as_slice()),
        Declaration::Forward => Ok(()),
        Declaration::Interface(_, _) => Ok(()),
        Declaration::Struct(_, _) => Ok(()),
        Declaration::Exception(_, _) => Ok(()),
        Declaration::Typedef(_) => Ok(()),
        Declaration::NewService(_, _) => Ok(()),
        Declaration::OldService(_) => Ok(()),
        Declaration::NewSingleton(_) => Ok(()),
        Declaration::OldSingleton(_) => Ok(()),
    }
}

fn add_constants<'a>(
    origins: &mut Vec<Origin<'a>>,
    constants: &'a [Constant],
) -> Result<(), NoMemory>
    ensures { OnOk result (AddsOrigins origins.old.items (constant_origins (map plain.constant_of constants.now)) origins.new.items) }
{
    for constant in constants {
        origins.push(Origin::Expression(&constant.value))?;
    }
    Ok(())
}

fn add_items<'a>(origins: &mut Vec<Origin<'a>>, items: &'a [Item]) -> Result<(), NoMemory>
    ensures { OnOk result (AddsOrigins origins.old.items (item_origins model.first_item (map plain.item_of items.now)) origins.new.items) }
{
    let mut unwritten = Origin::FirstItem;
    for item in items {
        add_item(origins, &unwritten, item)?;
        unwritten = Origin::ItemBefore(item.name.place);
    }
    Ok(())
}

/// An item without a value has what stands for it.
fn add_item<'a>(
    origins: &mut Vec<Origin<'a>>,
    unwritten: &Origin<'a>,
    item: &'a Item,
) -> Result<(), NoMemory>
    ensures { OnOk result (AddsOrigins origins.old.items (one_origin (origin_of unwritten.now) (plain.item_of item.now)) origins.new.items) }
{
    match &item.value {
        Some(value) => {
            origins.push(Origin::Expression(value))?;
            Ok(())
        }
        None => {
            origins.push(*unwritten)?;
            Ok(())
        }
    }
}
