//! What plans run in: the effects of statements, the stacks of frames with their births, and the service manager.

mod births;
mod effects;
mod roots;
mod services;
mod stacks;

/// The interface of most rows.
pub(crate) const FACE: &str = "t.XNode";
