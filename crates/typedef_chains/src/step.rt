//! Steps, and where chains of them end.

/// The step of a node: what it adds, and to which node it leads, if the chain does not end there.
#[derive(Clone, Copy)]
pub struct Step {
    pub adds: u32,
    pub next: Option<u32>,
}

/// The last node of a chain, and the sum of all that its steps add; one above the greatest that counts is told as that.
#[derive(Clone, Copy)]
pub struct End {
    pub last: u32,
    pub sum: u32,
}
