//! Nodes of a graph, each with its rank, in the order of their ranks.
ghost use Rattle.std.specs.Prelude.{◌≡◌, IfOk};
ghost use Rattle.std.specs.List.Sorted.{IsNonDecreasingBy, IsPermutation};

use std::alloc::Global;
use uno_base::NoMemory;

/// A node of a graph, and its rank among others.
#[derive(Clone, Copy)]
pub struct Node {
    pub number: u32,
    pub rank: u64,
}

/// The nodes in the order of their ranks.
pub(crate) fn by_rank(alloc: Global, nodes: &[Node]) -> Result<Vec<Node>, NoMemory>
    ensures same { IfOk result (λ sorted. IsPermutation nodes.now sorted.items) }
    ensures rise { IfOk result (λ sorted. IsNonDecreasingBy (λ n. n.rank) sorted.items) }
{
    let mut sorted = copied(alloc, nodes)?;
    sort(&mut sorted);
    Ok(sorted)
}

fn copied(alloc: Global, nodes: &[Node]) -> Result<Vec<Node>, NoMemory>
    ensures { IfOk result (λ copies. copies.items ≡ nodes.now) }
{
    let mut copies = Vec::new(alloc);
    for node in nodes {
        copies.push(*node)?;
    }
    Ok(copies)
}

fn sort(nodes: &mut [Node])
    ensures same { IsPermutation nodes.old nodes.new }
    ensures rise { IsNonDecreasingBy (λ n. n.rank) nodes.new }
{
    nodes.sort_unstable_by_key(|node| node.rank);
}
