//! Frames, and jobs: a frame with what its next statement may read.

use uno_types::{Name, Text, Tid};
use uno_values::Value;

/// A variable, a parameter or a field, and its value.
#[derive(Drop)]
pub struct Variable {
    pub name: Name,
    pub value: Value,
}

/// A method that runs: the number of its call, its object, the interface and function under which it was called, whether the peer called it, its
/// variables in the order in which they began, parameters first, and the place of its next statement.
#[derive(Drop)]
pub struct Body {
    pub number: u64,
    pub object: u32,
    pub face: Name,
    pub function: u16,
    pub from_peer: bool,
    pub variables: Vec<Variable>,
    pub place: u32,
}

/// A call of the peer's object that is not answered.
#[derive(Drop)]
pub struct Outgoing {
    pub number: u64,
    pub oid: Text,
    pub face: Name,
    pub function: u16,
}

/// The root that began a chain of calls, a method, or a call that went out.
#[derive(Drop)]
pub enum Frame {
    Base { root: u32 },
    Body(Body),
    Out(Outgoing),
}

/// A frame at the top, the fields of its object in their order, the number of frames of its stack, the number of the object's behaviour and its identity.
#[derive(Drop)]
pub struct Job {
    pub tid: Tid,
    pub frame: Frame,
    pub fields: Vec<Variable>,
    pub depth: u32,
    pub behaviour: u32,
    pub own: Text,
}
