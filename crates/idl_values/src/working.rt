//! Values worked out one after the other, each behind those that give it.
ghost use Rattle.std.specs.Option.{option_and_then};
ghost use Rattle.std.specs.Prelude.{◌≡◌, IfOk, List, None, map, replicate, slice_set};
ghost use Rattle.graph_order.specs.Order.{EndsFirst};
ghost use Rattle.idl_meaning_model.specs.ConstantsMeant.{one_more, value_meant};
ghost use Rattle.idl_meaning_model.specs.Declarations.{Valued};
ghost use Rattle.idl_values.specs.Graph.{AreKnown, AreLow, StandInOrder, place_before, places_from};
ghost use Rattle.idl_values.specs.Known.{known_at, value_at};
ghost use Rattle.idl_values.specs.Origins.{all_origins, origin_of, origins_of};
ghost use Rattle.idl_values.specs.Places.{known_by};
ghost use Rattle.idl_values.specs.Told.{number_at};

use crate::expression::expression_value;
use crate::origins::Origin;
use crate::told::Told;
use circle_search::Graph;
use graph_order::ends_first;
use std::alloc::Global;
use uno_base::NoMemory;

/// The value of each constant and item, in their order; one that leads back to itself has none, nor has one whose value it gives.
pub fn values(
    alloc: Global,
    told: &Told,
    table: &[Option<u32>],
    origins: &[Origin<'_>],
    graph: &Graph,
) -> Result<Vec<Option<i128>>, NoMemory>
    requires { graph.now ≡ places_from (known_by (number_at told.now.numbers) table.now) 0 (origins_of origins.now) }
    ensures { (vs : List Valued) → origins_of origins.now ≡ all_origins vs → AreKnown vs (known_by (number_at told.now.numbers) table.now) → AreLow vs (known_by (number_at told.now.numbers) table.now) → StandInOrder vs
        → IfOk result (λ values. values.items ≡ map (value_meant vs) vs) }
{
    let order = ends_first(alloc, graph)?;
    let values = values_in(alloc, told, table, origins, order.as_slice())?;
    Ok(values)
}

fn values_in(
    alloc: Global,
    told: &Told,
    table: &[Option<u32>],
    origins: &[Origin<'_>],
    order: &[usize],
) -> Result<Vec<Option<i128>>, NoMemory>
    requires { EndsFirst (places_from (known_by (number_at told.now.numbers) table.now) 0 (origins_of origins.now)) order.now }
    ensures { (vs : List Valued) → origins_of origins.now ≡ all_origins vs → AreKnown vs (known_by (number_at told.now.numbers) table.now) → AreLow vs (known_by (number_at told.now.numbers) table.now) → StandInOrder vs
        → IfOk result (λ values. values.items ≡ map (value_meant vs) vs) }
{
    let mut values = no_values(alloc, origins.len())?;
    for place in order {
        let value = value(told, table, origins, *place, values.as_slice());
        put(&mut values, *place, value);
    }
    Ok(values)
}

fn no_values(alloc: Global, count: usize) -> Result<Vec<Option<i128>>, NoMemory>
    ensures { IfOk result (λ values. values.items ≡ replicate count None) }
{
    let values = vec![in alloc; None; count]?;
    Ok(values)
}

/// Puts a value at a place, if it is there.
fn put(values: &mut Vec<Option<i128>>, place: usize, value: Option<i128>)
    ensures { values.new.items ≡ slice_set values.old.items place value }
{
    if place < values.len() {
        values[place] = value;
    }
}

/// The value of the one at a place, where those of all to which it leads are known.
fn value(
    told: &Told,
    table: &[Option<u32>],
    origins: &[Origin<'_>],
    place: usize,
    values: &[Option<i128>],
) -> Option<i128>
    ensures { result ≡ value_at (known_by (number_at told.now.numbers) table.now) values.now (origins_of origins.now) place }
{
    let Some(origin) = origins.get(place) else {
        return None;
    };
    match origin {
        Origin::Expression(expr) => expression_value(told, table, values, expr),
        Origin::FirstItem => Some(0),
        Origin::ItemBefore(_) => value_before(values, place),
    }
}

/// One more than the value before, within 128 bits.
fn value_before(values: &[Option<i128>], place: usize) -> Option<i128>
    ensures { result ≡ option_and_then one_more (option_and_then (known_at values.now) (place_before place)) }
{
    if place == 0 {
        return None;
    }
    let Some(before) = known_value(values, place - 1) else {
        return None;
    };
    before.checked_add(1)
}

fn known_value(values: &[Option<i128>], place: usize) -> Option<i128>
    ensures { result ≡ known_at values.now place }
{
    match values.get(place) {
        Some(value) => *value,
        None => None,
    }
}
