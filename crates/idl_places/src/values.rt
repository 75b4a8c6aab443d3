//! The sixth and the seventh rule: items have values of `long`, and constants those of their types, which are whole.
ghost use Rattle.std.specs.Prelude.{◌≡◌, IfOk, List, OnOk, length, map};
ghost use Rattle.idl_entities.specs.Telling.{valued_told};
ghost use Rattle.idl_meaning_model.specs.ConstantsMeant.{value_meant};
ghost use Rattle.idl_meaning_model.specs.Declarations.{all_valued};
ghost use Rattle.idl_meaning_model.specs.Meaning.{type_meant};
ghost use Rattle.idl_places.specs.Classes.{KeepsClasses, has_value_in, is_in_class};
ghost use Rattle.idl_places.specs.Places.{AddsPlaces};
ghost use Rattle.idl_places.specs.ValuedNames.{judged_constant, judged_item, wrong_constants_of, wrong_items_of, wrong_values};
ghost use Rattle.idl_rules_model.specs.ConstantRanges as ranges;
ghost use Rattle.idl_rules_model.specs.ItemValues as numbers;
ghost use Rattle.idl_rules_model.specs.ItemValues.{passes};
ghost use Rattle.idl_trees.specs.Names.{place_of};
ghost use Rattle.idl_rules_model.specs.TypePlaces.{at_unless};
ghost use Rattle.idl_trees.specs.Trees.{declaration_of};
ghost use Rattle.idl_trees.specs.Types.{type_of};
ghost use Rattle.registry_text_model.specs.ConstantValues as plain;
ghost use Rattle.registry_text_model.specs.EnumValues.{is_between, is_long};
ghost use Rattle.uno_model.specs.Entities as uno;

use crate::places::add_unless;
use idl_entities::Meanings;
use idl_trees::{Constant, Declaration, Item, Place, WrittenType};
use uno_base::NoMemory;
use uno_entities::TypeClass;

/// The names of items whose value is none of `long`; these are the values of the items of the declaration.
#[tactic(auto, unfolding(idl_rules_model::specs::ItemValues::wrong_items))]
pub fn add_wrong_items<M: Meanings>(
    meanings: &M,
    values: &[Option<i128>],
    places: &mut Vec<Place>,
) -> Result<(), NoMemory>
    requires values { values.now ≡ map (value_meant (all_valued (M.telling meanings.now).all)) (valued_told (M.telling meanings.now)) }
    ensures { (reg : List uno.Entity) → OnOk result (AddsPlaces places.old.items (numbers.wrong_items (M.telling meanings.now).all reg (M.telling meanings.now).declared) places.new.items) }
{
    add_wrong_items_in(meanings, meanings.body(), values, places)
}

fn add_wrong_items_in<M: Meanings>(
    meanings: &M,
    body: &Declaration,
    values: &[Option<i128>],
    places: &mut Vec<Place>,
) -> Result<(), NoMemory>
    requires body { declaration_of body.now ≡ (M.telling meanings.now).declared.body }
    requires values { values.now ≡ map (value_meant (all_valued (M.telling meanings.now).all)) (valued_told (M.telling meanings.now)) }
    ensures { OnOk result (AddsPlaces places.old.items (wrong_items_of (M.telling meanings.now) (declaration_of body.now)) places.new.items) }
{
    match body {
        Declaration::Enum(items) => add_items(items.as_slice(), values, places),
        Declaration::Forward => Ok(()),
        Declaration::Interface(_, _) => Ok(()),
        Declaration::Struct(_, _) => Ok(()),
        Declaration::Exception(_, _) => Ok(()),
        Declaration::Constants(_) => Ok(()),
        Declaration::Typedef(_) => Ok(()),
        Declaration::NewService(_, _) => Ok(()),
        Declaration::OldService(_) => Ok(()),
        Declaration::NewSingleton(_) => Ok(()),
        Declaration::OldSingleton(_) => Ok(()),
    }
}

fn add_items(
    items: &[Item],
    values: &[Option<i128>],
    places: &mut Vec<Place>,
) -> Result<(), NoMemory>
    requires long { length items.now ≡ length values.now }
    ensures { OnOk result (AddsPlaces places.old.items (wrong_values (map judged_item items.now) values.now) places.new.items) }
{
    for place in 0..items.len() {
        add_item(&items[place], values[place], places)?;
    }
    Ok(())
}

fn add_item(item: &Item, value: Option<i128>, places: &mut Vec<Place>) -> Result<(), NoMemory>
    ensures { OnOk result (AddsPlaces places.old.items (at_unless (place_of item.now.name.place) (passes is_long value)) places.new.items) }
{
    add_unless(places, is_long(value), item.name.place)
}

fn is_long(value: Option<i128>) -> bool
    ensures { result ≡ passes is_long value }
{
    let Some(number) = value else {
        return false;
    };
    is_between(-2_147_483_648, 2_147_483_647, number)
}

/// The names of constants that are of no whole type, or whose value is none of it; these are the values of the constants of the declaration.
#[tactic(auto, unfolding(idl_rules_model::specs::ConstantRanges::wrong_constants))]
pub fn add_wrong_constants<M: Meanings>(
    meanings: &M,
    values: &[Option<i128>],
    places: &mut Vec<Place>,
) -> Result<(), NoMemory>
    requires classes { KeepsClasses (M.telling meanings.now).kept }
    requires values { values.now ≡ map (value_meant (all_valued (M.telling meanings.now).all)) (valued_told (M.telling meanings.now)) }
    ensures { (reg : List uno.Entity) → OnOk result (AddsPlaces places.old.items (ranges.wrong_constants (M.telling meanings.now).all reg (M.telling meanings.now).declared) places.new.items) }
{
    add_wrong_constants_in(meanings, meanings.body(), values, places)
}

fn add_wrong_constants_in<M: Meanings>(
    meanings: &M,
    body: &Declaration,
    values: &[Option<i128>],
    places: &mut Vec<Place>,
) -> Result<(), NoMemory>
    requires classes { KeepsClasses (M.telling meanings.now).kept }
    requires body { declaration_of body.now ≡ (M.telling meanings.now).declared.body }
    requires values { values.now ≡ map (value_meant (all_valued (M.telling meanings.now).all)) (valued_told (M.telling meanings.now)) }
    ensures { OnOk result (AddsPlaces places.old.items (wrong_constants_of (M.telling meanings.now) (declaration_of body.now)) places.new.items) }
{
    match body {
        Declaration::Constants(constants) => {
            add_constants(meanings, constants.as_slice(), values, places)
        }
        Declaration::Forward => Ok(()),
        Declaration::Interface(_, _) => Ok(()),
        Declaration::Struct(_, _) => Ok(()),
        Declaration::Exception(_, _) => Ok(()),
        Declaration::Enum(_) => Ok(()),
        Declaration::Typedef(_) => Ok(()),
        Declaration::NewService(_, _) => Ok(()),
        Declaration::OldService(_) => Ok(()),
        Declaration::NewSingleton(_) => Ok(()),
        Declaration::OldSingleton(_) => Ok(()),
    }
}

fn add_constants<M: Meanings>(
    meanings: &M,
    constants: &[Constant],
    values: &[Option<i128>],
    places: &mut Vec<Place>,
) -> Result<(), NoMemory>
    requires classes { KeepsClasses (M.telling meanings.now).kept }
    requires long { length constants.now ≡ length values.now }
    ensures { OnOk result (AddsPlaces places.old.items (wrong_values (map (judged_constant (M.telling meanings.now)) constants.now) values.now) places.new.items) }
{
    for place in 0..constants.len() {
        add_constant(meanings, &constants[place], values[place], places)?;
    }
    Ok(())
}

fn add_constant<M: Meanings>(
    meanings: &M,
    constant: &Constant,
    value: Option<i128>,
    places: &mut Vec<Place>,
) -> Result<(), NoMemory>
    requires classes { KeepsClasses (M.telling meanings.now).kept }
    ensures { OnOk result (AddsPlaces places.old.items (at_unless (place_of constant.now.name.place) (passes (plain.is_in_range (type_meant (M.telling meanings.now).all (M.telling meanings.now).declared.modules (type_of constant.now.kind))) value)) places.new.items) }
{
    let right = has_value(meanings, &constant.kind, value)?;
    add_unless(places, right, constant.name.place)
}

/// Whether there is a value, and it is one of this type.
fn has_value<M: Meanings>(
    meanings: &M,
    written: &WrittenType,
    value: Option<i128>,
) -> Result<bool, NoMemory>
    requires classes { KeepsClasses (M.telling meanings.now).kept }
    ensures { IfOk result (λ b. b ≡ passes (plain.is_in_range (type_meant (M.telling meanings.now).all (M.telling meanings.now).declared.modules (type_of written.now))) value) }
{
    let kind = meanings.kind(written)?;
    Ok(has_value_in(kind.class(), value))
}

fn has_value_in(class: TypeClass, value: Option<i128>) -> bool
    ensures { result ≡ has_value_in class value }
{
    let Some(number) = value else {
        return false;
    };
    is_in_class(class, number)
}

fn is_in_class(class: TypeClass, number: i128) -> bool
    ensures { result ≡ is_in_class class number }
{
    match class {
        TypeClass::Boolean => is_between(0, 1, number),
        TypeClass::Byte => is_between(-128, 127, number),
        TypeClass::Short => is_between(-32_768, 32_767, number),
        TypeClass::UnsignedShort => is_between(0, 65_535, number),
        TypeClass::Long => is_between(-2_147_483_648, 2_147_483_647, number),
        TypeClass::UnsignedLong => is_between(0, 4_294_967_295, number),
        TypeClass::Hyper => is_between(
            -9_223_372_036_854_775_808,
            9_223_372_036_854_775_807,
            number,
        ),
        TypeClass::UnsignedHyper => is_between(0, 18_446_744_073_709_551_615, number),
        _ => false,
    }
}

fn is_between(least: i128, most: i128, number: i128) -> bool
    ensures { result ≡ is_between least most number }
{
    least <= number && number <= most
}
