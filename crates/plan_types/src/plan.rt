//! Plans: what objects do, which are exported, which services make them, and what each root does.

use crate::{RootStatement, Statement};
use uno_types::{Field, Name, Text};

/// The statements of a function, which the interface `face` declares.
#[derive(Drop)]
pub struct Method {
    pub face: Name,
    pub function: Name,
    pub body: Vec<Statement>,
}

/// What an object of a behaviour has and does; it supports the interfaces to which one of its faces is assignable.
#[derive(Drop)]
pub struct Behaviour {
    pub name: Name,
    pub faces: Vec<Name>,
    pub fields: Vec<Field>,
    pub methods: Vec<Method>,
}

/// An object under a name that the peer may ask for, by the number of its behaviour.
#[derive(Drop)]
pub struct Export {
    pub name: Text,
    pub behaviour: u32,
}

/// A service or a singleton, and the number of the behaviour of its objects.
#[derive(Drop)]
pub struct Offer {
    pub name: Name,
    pub behaviour: u32,
}

/// Behaviours are numbered from 0, roots from 1, each list in the order of its lines.
#[derive(Drop)]
pub struct Plan {
    pub behaviours: Vec<Behaviour>,
    pub exports: Vec<Export>,
    pub services: Vec<Offer>,
    pub singletons: Vec<Offer>,
    pub threads: Vec<Vec<RootStatement>>,
}
