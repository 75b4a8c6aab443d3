//! A graph: for each node, from 0 on, the nodes to which it leads.
ghost use Rattle.std.specs.Prelude.{◌≡◌, List, [], ◌∷◌, ◌++◌, length, slice_get, ◌+◌, ◌<◌, ◌^◌, IfSome, OnOk, OnErr};
ghost use Rattle.circle_search.specs.Graph.{targets};

use std::alloc::Global;
use std::marker::Model;
use uno_base::NoMemory;

/// Nodes numbered from 0, each with its targets in order. A target that is no node leads nowhere.
#[derive(Drop)]
pub struct Graph {
    rows: Vec<Vec<u32>>,
}

impl Model for Graph {
    ghost use Rattle.std.specs.Prelude.{ℕ, List};
    ghost use Rattle.circle_search.specs.Graph.{targets_of};

    ghost Value = { List (List ℕ) };

    ghost view = { λ g. targets_of g.rows.items };
}

impl Graph {
    /// The graph with no node.
    pub fn new(alloc: Global) -> Graph
        ensures { result ≡ [] }
    {
        Graph {
            rows: Vec::new(alloc),
        }
    }

    /// Adds the next node. A target may be a node that comes later.
    pub fn add_node(&mut self, targets: Vec<u32>) -> Result<(), NoMemory>
        ensures added { OnOk result (self.new ≡ self.old ++ targets.items ∷ []) }
        ensures refused { OnErr result (self.new ≡ self.old) }
    {
        self.rows.push(targets)?;
        Ok(())
    }

    /// How many nodes there are.
    pub fn len(&self) -> usize
        ensures { result ≡ length self.now }
    {
        self.rows.len()
    }

    /// The targets of the node.
    pub fn targets(&self, node: usize) -> &[u32]
        ensures { result.now ≡ targets self.now node }
    {
        match self.rows.get(node) {
            Some(row) => row.as_slice(),
            None => &[],
        }
    }

    /// The target of the node at this place.
    pub(crate) fn target(&self, node: usize, place: usize) -> Option<u32>
        ensures value { result ≡ slice_get (targets self.now node) place }
        ensures fits { IfSome result (λ _. place + 1 < 2 ^ 64) }
    {
        self.targets(node).get(place).copied()
    }
}
