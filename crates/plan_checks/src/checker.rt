//! What a line is checked against.
ghost use Rattle.uno_model.specs.Sound.{IsSound};

use crate::context::Context;
use std::alloc::Global;
use uno_types::Registry;

/// A sound registry, and what stands before a line of a plan over it.
#[derive(Clone, Copy)]
pub struct Checker<'a> {
    pub alloc: Global,
    pub registry: &'a Registry,
    pub context: &'a Context,
    pub ghost sound: { IsSound registry.now },
}
