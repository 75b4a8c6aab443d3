//! Declarations, and the modules in which they stand.

use crate::{
    Constant, Constructor, Fields, Id, InterfaceMember, Item, Path, ServiceMember, WrittenType,
};

/// What is declared under a name.
pub enum Declaration {
    /// An interface that is declared elsewhere.
    Forward,
    /// The base behind `:`, and the members.
    Interface(Option<Path>, Vec<InterfaceMember>),
    Struct(Option<Path>, Vec<Fields>),
    Exception(Option<Path>, Vec<Fields>),
    Enum(Vec<Item>),
    Constants(Vec<Constant>),
    Typedef(WrittenType),
    /// The base, and the constructors.
    NewService(Path, Vec<Constructor>),
    OldService(Vec<ServiceMember>),
    /// The base.
    NewSingleton(Path),
    /// The service.
    OldSingleton(Path),
}

/// A declaration with its name.
#[derive(Drop)]
pub struct Decl {
    pub name: Id,
    pub body: Declaration,
}

/// A module, or a declaration that is published or not.
#[cycle(def)]
pub enum Def {
    Module(Id, Vec<Def>),
    Declared(bool, Decl),
}

/// All that stands in a file.
#[derive(Drop)]
pub struct Tree {
    pub defs: Vec<Def>,
}

impl Drop for Declaration {
    fn drop(self) {
        match self {
            Declaration::Forward => {}
            Declaration::Interface(base, members) => {
                drop(base);
                drop(members);
            }
            Declaration::Struct(base, fields) | Declaration::Exception(base, fields) => {
                drop(base);
                drop(fields);
            }
            Declaration::Enum(items) => drop(items),
            Declaration::Constants(constants) => drop(constants),
            Declaration::Typedef(target) => drop(target),
            Declaration::NewService(base, constructors) => {
                drop(base);
                drop(constructors);
            }
            Declaration::OldService(members) => drop(members),
            Declaration::NewSingleton(base) => drop(base),
            Declaration::OldSingleton(service) => drop(service),
        }
    }
}

impl Drop for Def {
    #[cycle(let_go)]
    fn drop(self) {
        match self {
            Def::Module(name, defs) => {
                drop(name);
                drop(defs);
            }
            Def::Declared(_, decl) => drop(decl),
        }
    }
}
