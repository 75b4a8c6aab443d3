//! What the search knows of a node.

/// Not reached yet, at a place of the trail, or left: on no circle, or on one.
#[derive(Clone, Copy)]
pub(crate) enum Mark {
    New,
    Open(usize),
    OffCircle,
    OnCircle,
}
