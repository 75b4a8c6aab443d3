//! The search from every node: along a trail, on to what is new, and back from groups that lead to no more.
ghost use Rattle.std.specs.Prelude.{◌≡◌, ◌≢◌, ◌-◌, ◌<◌, ◌↔◌, [], length, get_or, IfOk, IsTrue, MatchOption, OnOk};
ghost use Rattle.uno_model.specs.Circles.{HasNoCircle};
ghost use Rattle.circle_search.specs.Graph.{targets, IsFirstOnCircle};
ghost use Rattle.circle_search.specs.Search.{IsFine, StayReached, MarksAreRight, work};

use crate::Graph;
use crate::group::leave;
use crate::mark::Mark;
use crate::trail::{Trail, enter, join_groups, next_edge};
use std::alloc::Global;
use uno_base::NoMemory;

/// One move at the last group, which begins at this place.
#[tactic(auto, using(crate::proofs::Parts::open_low))]
fn advance(graph: &Graph, trail: &mut Trail, start: usize) -> Result<(), NoMemory>
    requires fine { IsFine graph.now trail.old }
    requires some { 0 < length trail.old.starts.items }
    requires last { get_or trail.old.starts.items (length trail.old.starts.items - 1) 0 ≡ start }
    ensures fine { OnOk result (IsFine graph.now trail.new) }
    ensures less { OnOk result (work graph.now trail.new < work graph.now trail.old) }
    ensures kept { OnOk result (StayReached trail.old.marks.items trail.new.marks.items) }
{
    let Some(edge) = next_edge(&mut trail.waiting, start) else {
        leave(graph, trail, start);
        return Ok(());
    };
    match trail.mark(edge.target as usize) {
        Mark::New => {
            enter(graph, trail, edge.target as usize)?;
            Ok(())
        }
        Mark::Open(place) => {
            join_groups(&mut trail.starts, place);
            Ok(())
        }
        Mark::OffCircle | Mark::OnCircle => Ok(()),
    }
}

/// Follows all ways from the node, until all that was reached is left.
fn visit(graph: &Graph, trail: &mut Trail, node: usize) -> Result<(), NoMemory>
    requires within { node < length graph.now }
    requires fine { IsFine graph.now trail.old }
    requires empty { trail.old.nodes.items ≡ [] }
    ensures fine { OnOk result (IsFine graph.now trail.new) }
    ensures empty { OnOk result (trail.new.nodes.items ≡ []) }
    ensures reached { OnOk result (get_or trail.new.marks.items node Mark.OffCircle ≢ Mark.New) }
    ensures kept { OnOk result (StayReached trail.old.marks.items trail.new.marks.items) }
{
    let Mark::New = trail.mark(node) else {
        return Ok(());
    };
    enter(graph, trail, node)?;
    while let Some(start) = trail.starts.last().copied() {
        advance(graph, trail, start)?;
    }
    Ok(())
}

/// Tells of every node whether it leads back to itself.
#[tactic(auto, using(crate::proofs::Ends::marks_are_right))]
fn search(alloc: Global, graph: &Graph) -> Result<Trail, NoMemory>
    ensures { IfOk result (λ trail. MarksAreRight graph.now trail.marks.items) }
{
    let mut trail = Trail {
        marks: vec![in alloc; Mark::New; graph.len()]?,
        nodes: Vec::new(alloc),
        starts: Vec::new(alloc),
        waiting: Vec::new(alloc),
    };
    for node in 0..graph.len() {
        visit(graph, &mut trail, node)?;
    }
    Ok(trail)
}

/// The first node that leads back to itself, in time linear in nodes and targets.
pub fn first_on_circle(alloc: Global, graph: &Graph) -> Result<Option<usize>, NoMemory>
    ensures { IfOk result (λ found. MatchOption found (HasNoCircle (targets graph.now)) (λ node. IsFirstOnCircle graph.now node)) }
{
    let trail = search(alloc, graph)?;
    Ok(
        trail
            .marks
            .iter()
            .position(|mark| matches!(mark, Mark::OnCircle)),
    )
}

/// Tells whether no node leads back to itself.
pub fn has_no_circle(alloc: Global, graph: &Graph) -> Result<bool, NoMemory>
    ensures { IfOk result (λ b. IsTrue b ↔ HasNoCircle (targets graph.now)) }
{
    Ok(first_on_circle(alloc, graph)?.is_none())
}
