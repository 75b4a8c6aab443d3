//! What stands before a line: the blocks that are closed, the one that is open, and the variables that are known there.

use crate::fields::Fields;
use crate::scope::Scope;
use plan_types::{Method, Plan, RootStatement};
use type_registry::Function;
use uno_types::Name;

/// The behaviour whose block is open, as far as it is read.
#[derive(Drop)]
pub struct OpenBehaviour {
    pub name: Name,
    pub faces: Vec<Name>,
    pub fields: Fields,
    pub methods: Vec<Method>,
}

/// The method whose block is open, and its function.
#[derive(Drop)]
pub struct OpenMethod {
    pub method: Method,
    pub function: Function,
}

/// The block in which a line stands, with what it has so far.
#[derive(Drop)]
pub enum Block {
    Top,
    Behaviour(OpenBehaviour),
    Method(OpenBehaviour, OpenMethod),
    Thread(Vec<RootStatement>),
}

/// What stands before a line.
#[derive(Drop)]
pub struct Context {
    pub plan: Plan,
    pub block: Block,
    pub variables: Scope,
}
