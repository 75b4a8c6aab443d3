//! The entities of a registry: what each name stands for, a struct a declaration.

use crate::{Flags, Name, TypeName, Way};

/// A member of a struct or an exception, and a parameter of a constructor.
#[derive(Drop)]
pub struct Field {
    pub name: Name,
    pub kind: TypeName,
}

/// A parameter of a method.
#[derive(Drop)]
pub struct Param {
    pub way: Way,
    pub name: Name,
    pub kind: TypeName,
}

/// A base of an interface.
#[derive(Drop)]
pub struct Base {
    pub optional: bool,
    pub name: Name,
}

/// An attribute of an interface, with what its getter and its setter may raise.
#[derive(Drop)]
pub struct Attribute {
    pub name: Name,
    pub read_only: bool,
    pub kind: TypeName,
    pub get_raises: Vec<Name>,
    pub set_raises: Vec<Name>,
}

/// A method of an interface.
#[derive(Drop)]
pub struct Method {
    pub name: Name,
    pub oneway: bool,
    pub result: TypeName,
    pub params: Vec<Param>,
    pub raises: Vec<Name>,
}

/// What an interface declares; the order is that of its functions.
#[derive(Drop)]
pub enum Member {
    Attribute(Attribute),
    Method(Method),
}

/// A member of an enum.
#[derive(Drop)]
pub struct Item {
    pub name: Name,
    pub number: i32,
}

/// A constant. Its number is wide enough for a `hyper` and for an `unsigned hyper`; that it fits its type is not asked here.
#[derive(Drop)]
pub struct Constant {
    pub name: Name,
    pub number: i128,
    pub kind: TypeName,
}

/// A constructor of a service; the rest parameter takes all arguments that follow.
#[derive(Drop)]
pub struct Constructor {
    pub name: Name,
    pub params: Vec<Field>,
    pub rest: Option<Name>,
    pub raises: Vec<Name>,
}

/// What a service of the old form has.
#[derive(Drop)]
pub enum Part {
    Interface {
        optional: bool,
        name: Name,
    },
    Service {
        optional: bool,
        name: Name,
    },
    Property {
        name: Name,
        flags: Flags,
        kind: TypeName,
    },
}

/// A service: of the new form, over an interface, or of the old one, of parts.
#[derive(Drop)]
pub enum Service {
    New {
        base: Name,
        constructors: Vec<Constructor>,
    },
    Old {
        parts: Vec<Part>,
    },
}

/// A singleton: of an interface, or in the old form of a service.
#[derive(Drop)]
pub enum Singleton {
    New { base: Name },
    Old { service: Name },
}

/// What an entity is.
pub enum Body {
    Interface {
        bases: Vec<Base>,
        members: Vec<Member>,
    },
    Struct {
        base: Option<Name>,
        members: Vec<Field>,
    },
    Exception {
        base: Option<Name>,
        members: Vec<Field>,
    },
    Enum {
        items: Vec<Item>,
    },
    Constants {
        constants: Vec<Constant>,
    },
    Typedef {
        kind: TypeName,
    },
    Service(Service),
    Singleton(Singleton),
}

impl Drop for Body {
    fn drop(self) {
        match self {
            Body::Interface { bases, members } => {
                drop(bases);
                drop(members);
            }
            Body::Struct { base, members } => {
                drop(base);
                drop(members);
            }
            Body::Exception { base, members } => {
                drop(base);
                drop(members);
            }
            Body::Enum { items } => drop(items),
            Body::Constants { constants } => drop(constants),
            Body::Typedef { kind } => drop(kind),
            Body::Service(service) => drop(service),
            Body::Singleton(singleton) => drop(singleton),
        }
    }
}

/// A name with what it stands for.
#[derive(Drop)]
pub struct Entity {
    pub name: Name,
    pub published: bool,
    pub body: Body,
}
