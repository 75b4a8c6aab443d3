//! A graph with its nodes in another order, each known by where it stands first.
ghost use Rattle.std.specs.Prelude.{◌≡◌, ◌++◌, map, slice_get, IfOk, OnOk};
ghost use Rattle.std.specs.Option.{option_to_list};
ghost use Rattle.circle_ranks.specs.Order.{AreFirst, IsOrdered, below, graph_in_order, renumbered, set_within};

use crate::node::Node;
use circle_search::Graph;
use std::alloc::Global;
use uno_base::NoMemory;

/// These nodes in their order, and behind them all nodes of the graph.
pub(crate) fn in_order(alloc: Global, graph: &Graph, nodes: &[Node]) -> Result<Graph, NoMemory>
    ensures { IfOk result (λ ordered. IsOrdered graph.now nodes.now ordered) }
{
    let order = order_of(alloc, nodes, graph.len())?;
    let numbers = first_numbers(alloc, order.as_slice(), graph.len())?;
    graph_in_order(alloc, graph, order.as_slice(), numbers.as_slice())
}

fn order_of(alloc: Global, nodes: &[Node], count: usize) -> Result<Vec<u32>, NoMemory>
    ensures { IfOk result (λ order. order.items ≡ map (λ n. n.number) nodes.now ++ below count) }
{
    let mut order = numbers_of(alloc, nodes)?;
    add_all(&mut order, count)?;
    Ok(order)
}

fn numbers_of(alloc: Global, nodes: &[Node]) -> Result<Vec<u32>, NoMemory>
    ensures { IfOk result (λ order. order.items ≡ map (λ n. n.number) nodes.now) }
{
    let mut order = Vec::new(alloc);
    for node in nodes {
        order.push(node.number)?;
    }
    Ok(order)
}

fn add_all(order: &mut Vec<u32>, count: usize) -> Result<(), NoMemory>
    ensures { OnOk result (order.new.items ≡ order.old.items ++ below count) }
{
    for number in 0..count {
        let Ok(node) = u32::try_from(number) else {
            return Err(NoMemory);
        };
        order.push(node)?;
    }
    Ok(())
}

/// For each node of a graph of so many where it stands first.
fn first_numbers(alloc: Global, order: &[u32], count: usize) -> Result<Vec<u32>, NoMemory>
    ensures { IfOk result (λ numbers. AreFirst count order.now numbers.items) }
{
    let mut numbers = vec![in alloc; 0u32; count]?;
    let mut at = order.len();
    while at > 0 {
        at -= 1;
        number(&mut numbers, order[at] as usize, at)?;
    }
    Ok(numbers)
}

/// The node stands at this place, if it is one of the graph.
fn number(numbers: &mut Vec<u32>, node: usize, at: usize) -> Result<(), NoMemory>
    ensures { OnOk result (numbers.new.items ≡ set_within numbers.old.items node at) }
{
    let Ok(place) = u32::try_from(at) else {
        return Err(NoMemory);
    };
    if node >= numbers.len() {
        return Ok(());
    }
    numbers[node] = place;
    Ok(())
}

fn graph_in_order(
    alloc: Global,
    graph: &Graph,
    order: &[u32],
    numbers: &[u32],
) -> Result<Graph, NoMemory>
    ensures { IfOk result (λ ordered. ordered ≡ graph_in_order graph.now order.now numbers.now) }
{
    let mut ordered = Graph::new(alloc);
    for node in order {
        let row = renumbered(alloc, graph.targets(*node as usize), numbers)?;
        ordered.add_node(row)?;
    }
    Ok(ordered)
}

fn renumbered(alloc: Global, targets: &[u32], numbers: &[u32]) -> Result<Vec<u32>, NoMemory>
    ensures { IfOk result (λ row. row.items ≡ renumbered numbers.now targets.now) }
{
    let mut row = Vec::new(alloc);
    for target in targets {
        add_number(&mut row, numbers, *target)?;
    }
    Ok(row)
}

fn add_number(row: &mut Vec<u32>, numbers: &[u32], target: u32) -> Result<(), NoMemory>
    ensures { OnOk result (row.new.items ≡ row.old.items ++ option_to_list (slice_get numbers.now target)) }
{
    let Some(number) = numbers.get(target as usize) else {
        return Ok(());
    };
    row.push(*number)?;
    Ok(())
}
