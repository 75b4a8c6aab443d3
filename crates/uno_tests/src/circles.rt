//! That ample memory is enough; `limits` has, through `is_sound`, graphs that are deep or have many ways.
use crate::judging::see_number;
use circle_search::{Graph, first_on_circle, has_no_circle};
use std::alloc::Global;
use std::process::Abort;

/// The targets of each node, and the first that leads back to itself.
type Row = (&'static [&'static [u32]], Option<usize>);

const SMALL: &[Row] = &[
    (&[], None),
    (&[&[]], None),
    (&[&[0]], Some(0)),
    (&[&[1]], None),
    (&[&[1], &[0]], Some(0)),
    (&[&[1, 2], &[2], &[]], None),
    (&[&[1, 2], &[2], &[0]], Some(0)),
    (&[&[1, 1, 9], &[]], None),
    // the circle of 1 is found after that of 3, from which it is led to, and 0 is on neither
    (&[&[3], &[2], &[1], &[3, 2]], Some(1)),
    // the circle of 1 stands alone, and that of 3 is found first
    (&[&[3], &[1], &[], &[4], &[3]], Some(1)),
    // 1 leads from one circle to the other
    (&[&[2], &[3], &[4, 1], &[5], &[2], &[3]], Some(2)),
    // 0 leads to a circle, and a circle leads to 1
    (&[&[2], &[], &[3], &[2, 1]], Some(2)),
    // two circles over one node
    (&[&[], &[2], &[3, 4], &[2], &[1]], Some(1)),
];

/// A graph with a node for each row of targets.
fn graph_of(rt: &impl Abort, alloc: Global, rows: &[&[u32]]) -> Graph {
    let mut graph = Graph::new(alloc);
    for row in rows {
        let targets = Vec::from_slice(alloc, row).expect(rt, "no memory");
        graph.add_node(targets).expect(rt, "no memory");
    }
    graph
}

/// Whether the searches say so of the graph with these rows of targets.
fn is_right(rt: &impl Abort, alloc: Global, row: &Row) -> bool {
    let (targets, wanted) = row;
    let graph = graph_of(rt, alloc, targets);
    let first = first_on_circle(alloc, &graph);
    let free = has_no_circle(alloc, &graph);
    drop(graph);
    first == Ok(*wanted) && free == Ok(wanted.is_none())
}

#[test]
fn small_graphs(rt: HostRuntime) {
    for (number, row) in SMALL.iter().enumerate() {
        see_number(&rt, is_right(&rt, rt.alloc(), row), number);
    }
}
