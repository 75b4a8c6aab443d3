//! The graph of constants and items: each leads to those that give its value.
ghost use Rattle.std.specs.List.{filter_map};
ghost use Rattle.std.specs.Option.{option_to_list};
ghost use Rattle.std.specs.Prelude.{◌≡◌, ◌++◌, IfOk, OnOk};
ghost use Rattle.idl_meaning_model.specs.Uses.{expr_paths};
ghost use Rattle.idl_names.specs.Used.{all_used_of, used_of};
ghost use Rattle.idl_trees.specs.Expressions.{expr_of};
ghost use Rattle.idl_values.specs.Graph.{origin_places, place_before, places_from, used_place};
ghost use Rattle.idl_values.specs.Origins.{origin_of, origins_of};
ghost use Rattle.idl_values.specs.Places.{known_by};
ghost use Rattle.idl_values.specs.Told.{number_at};

use crate::origins::Origin;
use crate::told::{Told, known};
use circle_search::Graph;
use idl_names::{Used, names_in};
use idl_trees::Expr;
use std::alloc::Global;
use uno_base::NoMemory;

/// Nodes are in the order of all constants and items. What is told of names is the number of each, and the table has their places.
pub fn value_graph(
    alloc: Global,
    told: &Told,
    table: &[Option<u32>],
    origins: &[Origin<'_>],
) -> Result<Graph, NoMemory>
    ensures { IfOk result (λ graph. graph ≡ places_from (known_by (number_at told.now.numbers) table.now) 0 (origins_of origins.now)) }
{
    let mut graph = Graph::new(alloc);
    for place in 0..origins.len() {
        let row = row(alloc, told, table, &origins[place], place)?;
        graph.add_node(row)?;
    }
    Ok(graph)
}

/// The places of those to which the one at this place leads.
fn row(
    alloc: Global,
    told: &Told,
    table: &[Option<u32>],
    origin: &Origin<'_>,
    place: usize,
) -> Result<Vec<u32>, NoMemory>
    ensures { IfOk result (λ row. row.items ≡ origin_places (known_by (number_at told.now.numbers) table.now) (origin_of origin.now) place) }
{
    match origin {
        Origin::Expression(expr) => expression_row(alloc, told, table, expr),
        Origin::FirstItem => Ok(Vec::new(alloc)),
        Origin::ItemBefore(_) => row_before(alloc, place),
    }
}

fn row_before(alloc: Global, place: usize) -> Result<Vec<u32>, NoMemory>
    ensures { IfOk result (λ row. row.items ≡ option_to_list (place_before place)) }
{
    let mut row = Vec::new(alloc);
    if place == 0 {
        return Ok(row);
    }
    let Ok(before) = u32::try_from(place - 1) else {
        return Err(NoMemory);
    };
    row.push(before)?;
    Ok(row)
}

fn expression_row(
    alloc: Global,
    told: &Told,
    table: &[Option<u32>],
    expr: &Expr,
) -> Result<Vec<u32>, NoMemory>
    ensures { IfOk result (λ row. row.items ≡ filter_map (known_by (number_at told.now.numbers) table.now) (expr_paths (expr_of expr.now))) }
{
    let used = names_in(alloc, expr)?;
    let row = used_row(alloc, told, table, used.as_slice())?;
    Ok(row)
}

fn used_row(
    alloc: Global,
    told: &Told,
    table: &[Option<u32>],
    all: &[Used<'_>],
) -> Result<Vec<u32>, NoMemory>
    ensures { IfOk result (λ row. row.items ≡ filter_map (used_place (known_by (number_at told.now.numbers) table.now)) (all_used_of all.now)) }
{
    let mut row = Vec::new(alloc);
    for used in all {
        add_used(&mut row, told, table, used)?;
    }
    Ok(row)
}

fn add_used(
    row: &mut Vec<u32>,
    told: &Told,
    table: &[Option<u32>],
    used: &Used<'_>,
) -> Result<(), NoMemory>
    ensures { OnOk result (row.new.items ≡ row.old.items ++ option_to_list (used_place (known_by (number_at told.now.numbers) table.now) (used_of used.now))) }
{
    let Used::Value(path) = used else {
        return Ok(());
    };
    let Some(place) = known(told, table, path) else {
        return Ok(());
    };
    row.push(place)?;
    Ok(())
}
