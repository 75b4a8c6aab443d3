//! The last group of the trail, whose nodes lead to nothing that is open but each other.
ghost use Rattle.std.specs.Prelude.{◌≡◌, ◌-◌, ◌<◌, length, take, drop};
ghost use Rattle.std.specs.List.{All};
ghost use Rattle.circle_search.specs.Search.{leads_to_itself, mark_of_group, IsMarked};

use crate::Graph;
use crate::mark::Mark;
use crate::trail::Trail;

/// Whether the node is a target of itself.
fn leads_to_itself(graph: &Graph, node: usize) -> bool
    ensures { result ≡ leads_to_itself graph.now node }
{
    graph
        .targets(node)
        .iter()
        .any(|target| *target as usize == node)
}

/// The mark that the nodes of the group, which lead to each other, get as they are left.
fn mark_of_group(graph: &Graph, group: &[usize]) -> Mark
    requires { 0 < length group.now }
    ensures { result ≡ mark_of_group graph.now group.now }
{
    if group.len() > 1 || leads_to_itself(graph, group[0]) {
        return Mark::OnCircle;
    }
    Mark::OffCircle
}

/// Gives each of these nodes the mark.
fn mark_all(marks: &mut [Mark], nodes: &[usize], mark: Mark)
    requires { All (λ node. node < length marks.old) nodes.now }
    ensures { IsMarked nodes.now mark marks.old marks.new }
{
    for node in nodes {
        marks[*node] = mark;
    }
}

/// Leaves the group that begins at this place, the last one.
pub(crate) fn leave(graph: &Graph, trail: &mut Trail, start: usize)
    requires within { start < length trail.old.nodes.items }
    requires nodes { All (λ node. node < length trail.old.marks.items) trail.old.nodes.items }
    ensures marked { IsMarked (drop start trail.old.nodes.items) (mark_of_group graph.now (drop start trail.old.nodes.items)) trail.old.marks.items trail.new.marks.items }
    ensures nodes { trail.new.nodes.items ≡ take start trail.old.nodes.items }
    ensures starts { trail.new.starts.items ≡ take (length trail.old.starts.items - 1) trail.old.starts.items }
    ensures waiting { trail.new.waiting.items ≡ trail.old.waiting.items }
{
    let (_, group) = trail.nodes.split_at(start);
    mark_all(&mut trail.marks, group, mark_of_group(graph, group));
    trail.nodes.truncate(start);
    trail.starts.pop();
}
