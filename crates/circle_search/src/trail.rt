//! The trail: what is known of each node, the nodes that were reached and not left, in groups, and the targets that wait to be looked at.
ghost use Rattle.std.specs.Prelude.{◌≡◌, ◌+◌, ◌<◌, ◌≤◌, [], ◌∷◌, ◌++◌, length, get_or, take, slice_set, MatchOption, OnOk};
ghost use Rattle.std.specs.List.{All, AllPairs};
ghost use Rattle.circle_search.specs.Graph.{targets};
ghost use Rattle.circle_search.specs.Search.{edges, IsCut};

use crate::Graph;
use crate::mark::Mark;
use uno_base::NoMemory;

/// A target of the node at a place of the trail.
#[derive(Clone, Copy)]
pub(crate) struct Edge {
    pub place: usize,
    pub target: u32,
}

/// A group is what stands from its start to the next: nodes that all lead to each other, or one node.
#[derive(Drop)]
pub(crate) struct Trail {
    pub marks: Vec<Mark>,
    pub nodes: Vec<usize>,
    pub starts: Vec<usize>,
    pub waiting: Vec<Edge>,
}

impl Trail {
    /// The node's mark. What is no node leads nowhere, so it is on no circle.
    pub(crate) fn mark(&self, node: usize) -> Mark
        ensures { result ≡ get_or self.now.marks.items node Mark.OffCircle }
    {
        if node < self.marks.len() {
            return self.marks[node];
        }
        Mark::OffCircle
    }
}

/// Lets the targets of the node at this place wait.
fn push_edges(waiting: &mut Vec<Edge>, place: usize, targets: &[u32]) -> Result<(), NoMemory>
    ensures { OnOk result (waiting.new.items ≡ waiting.old.items ++ edges place targets.now) }
{
    for target in targets {
        waiting.push(Edge {
            place,
            target: *target,
        })?;
    }
    Ok(())
}

/// Opens the node, as a group of its own at the end of the trail.
pub(crate) fn enter(graph: &Graph, trail: &mut Trail, node: usize) -> Result<(), NoMemory>
    requires { node < length trail.old.marks.items }
    ensures marked { OnOk result (trail.new.marks.items ≡ slice_set trail.old.marks.items node (Mark.Open (length trail.old.nodes.items))) }
    ensures nodes { OnOk result (trail.new.nodes.items ≡ trail.old.nodes.items ++ node ∷ []) }
    ensures starts { OnOk result (trail.new.starts.items ≡ trail.old.starts.items ++ length trail.old.nodes.items ∷ []) }
    ensures waiting { OnOk result (trail.new.waiting.items ≡ trail.old.waiting.items ++ edges (length trail.old.nodes.items) (targets graph.now node)) }
{
    let place = trail.nodes.len();
    trail.nodes.push(node)?;
    trail.starts.push(place)?;
    push_edges(&mut trail.waiting, place, graph.targets(node))?;
    trail.marks[node] = Mark::Open(place);
    Ok(())
}

/// Takes off the last edge, where it begins at this place or behind it.
pub(crate) fn next_edge(waiting: &mut Vec<Edge>, start: usize) -> Option<Edge>
    requires { AllPairs (λ a b. a.place ≤ b.place) waiting.old.items }
    ensures none { MatchOption result (All (λ e. e.place < start) waiting.old.items) (λ e. start ≤ e.place) }
    ensures rest { MatchOption result (waiting.new.items ≡ waiting.old.items) (λ e. waiting.old.items ≡ waiting.new.items ++ e ∷ []) }
{
    let edge = *waiting.last()?;
    if edge.place < start {
        return None;
    }
    waiting.pop()
}

/// Joins the groups behind this place with the one in which it stands.
pub(crate) fn join_groups(starts: &mut Vec<usize>, place: usize)
    requires { AllPairs (λ a b. a < b) starts.old.items }
    ensures cut { IsCut place starts.old.items (length starts.new.items) }
    ensures front { starts.new.items ≡ take (length starts.new.items) starts.old.items }
{
    while let Some(start) = starts.last() {
        if *start <= place {
            return;
        }
        starts.pop();
    }
}
