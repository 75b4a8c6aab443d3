//! The least rank of a node that leads back to itself.
ghost use Rattle.std.specs.Prelude.{◌≡◌, IfOk, MatchOption, option_map, slice_get};
ghost use Rattle.std.specs.Option.{option_and_then};
ghost use Rattle.circle_ranks.specs.Ranks.{IsLeastOnCircle, NoneOnCircle};

use crate::node::{Node, by_rank};
use crate::renumbering::in_order;
use circle_search::{Graph, first_on_circle};
use std::alloc::Global;
use uno_base::NoMemory;

/// The least rank of those of these nodes that lead back to themselves.
pub fn least_on_circle(
    alloc: Global,
    graph: &Graph,
    nodes: &[Node],
) -> Result<Option<u64>, NoMemory>
    ensures { IfOk result (λ found. MatchOption found (NoneOnCircle graph.now nodes.now) (λ rank. IsLeastOnCircle graph.now nodes.now rank)) }
{
    let sorted = by_rank(alloc, nodes)?;
    let ordered = in_order(alloc, graph, sorted.as_slice())?;
    let found = first_on_circle(alloc, &ordered)?;
    Ok(rank_at(sorted.as_slice(), found))
}

/// What stands behind the nodes has no rank.
fn rank_at(nodes: &[Node], found: Option<usize>) -> Option<u64>
    ensures { result ≡ option_map (λ n. n.rank) (option_and_then (slice_get nodes.now) found) }
{
    let at = found?;
    let node = nodes.get(at)?;
    Some(node.rank)
}
