//! All nodes by one search in depth that is never recursive: a node comes when all to which it leads were reached.
ghost use Rattle.std.specs.Prelude.{◌≡◌, ◌<◌, ◌+◌, ◌^◌, [], length, IfOk, IfSome, OnOk, slice_get, true};
ghost use Rattle.circle_search.specs.Graph.{targets};
ghost use Rattle.graph_order.specs.Order.{EndsFirst};
ghost use Rattle.graph_order.specs.Walk.{IsFine, IsFineWith, StayReached, is_reached, work, work_with};

use crate::walk::{Step, Walk, enter};
use circle_search::Graph;
use std::alloc::Global;
use uno_base::NoMemory;

/// Each node once; a node to which it leads stands before it, or leads back to it.
pub fn ends_first(alloc: Global, graph: &Graph) -> Result<Vec<usize>, NoMemory>
    ensures { IfOk result (λ order. EndsFirst graph.now order.items) }
{
    let mut walk = Walk {
        reached: vec![in alloc; false; graph.len()]?,
        way: Vec::new(alloc),
        order: Vec::new(alloc),
    };
    for node in 0..graph.len() {
        visit(graph, &mut walk, node)?;
    }
    Ok(walk.order)
}

/// Follows all ways from a node, until the way is back at its beginning.
fn visit(graph: &Graph, walk: &mut Walk, node: usize) -> Result<(), NoMemory>
    requires within { node < length graph.now }
    requires fine { IsFine graph.now walk.old }
    requires empty { walk.old.way.items ≡ [] }
    ensures fine { OnOk result (IsFine graph.now walk.new) }
    ensures empty { OnOk result (walk.new.way.items ≡ []) }
    ensures reached { OnOk result (is_reached walk.new.reached.items node ≡ true) }
    ensures kept { OnOk result (StayReached walk.old.reached.items walk.new.reached.items) }
{
    enter(walk, node)?;
    while let Some(step) = walk.way.pop() {
        advance(graph, walk, step)?;
    }
    Ok(())
}

/// Looks at one more target of the last node of the way, which is taken from it; a node without one more is the next in order.
fn advance(graph: &Graph, walk: &mut Walk, step: Step) -> Result<(), NoMemory>
    requires fine { IsFineWith graph.now walk.old step }
    ensures fine { OnOk result (IsFine graph.now walk.new) }
    ensures less { OnOk result (work graph.now walk.new < work_with graph.now walk.old step) }
    ensures kept { OnOk result (StayReached walk.old.reached.items walk.new.reached.items) }
{
    let Some(target) = target_at(graph, step) else {
        walk.order.push(step.node)?;
        return Ok(());
    };
    walk.way.push(Step {
        node: step.node,
        looked_at: step.looked_at + 1,
    })?;
    enter(walk, target as usize)?;
    Ok(())
}

/// The next target of a node that is to be looked at.
fn target_at(graph: &Graph, step: Step) -> Option<u32>
    ensures value { result ≡ slice_get (targets graph.now step.node) step.looked_at }
    ensures fits { IfSome result (λ _. step.looked_at + 1 < 2 ^ 64) }
{
    graph.targets(step.node).get(step.looked_at).copied()
}
