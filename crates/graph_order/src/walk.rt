//! A walk along ways from node to node: which nodes were reached, the way on which it is, and the nodes that it has left.
ghost use Rattle.std.specs.Prelude.{◌≡◌, OnOk};
ghost use Rattle.graph_order.specs.Walk.{Enters, is_new};

use uno_base::NoMemory;

/// A node on the way, and how many of its targets were looked at.
#[derive(Clone, Copy)]
pub(crate) struct Step {
    pub node: usize,
    pub looked_at: usize,
}

#[derive(Drop)]
pub(crate) struct Walk {
    pub reached: Vec<bool>,
    pub way: Vec<Step>,
    pub order: Vec<usize>,
}

/// Goes on to a node that was not reached. What is no node is passed by.
pub(crate) fn enter(walk: &mut Walk, node: usize) -> Result<(), NoMemory>
    ensures { OnOk result (Enters walk.old node walk.new) }
{
    if !is_new(walk.reached.as_slice(), node) {
        return Ok(());
    }
    walk.way.push(Step { node, looked_at: 0 })?;
    walk.reached[node] = true;
    Ok(())
}

/// Whether it is a node, and was not reached.
fn is_new(reached: &[bool], node: usize) -> bool
    ensures { result ≡ is_new reached.now node }
{
    match reached.get(node) {
        Some(reached) => !*reached,
        None => false,
    }
}
