//! What stands in declarations.

use crate::{Expr, Id, Path, WrittenType};
use uno_model::Way;

/// Members of a struct or an exception: one type, and a name for each; there is one at least.
#[derive(Drop)]
pub struct Fields {
    pub kind: WrittenType,
    pub names: Vec<Id>,
}

/// A member of an enum.
#[derive(Drop)]
pub struct Item {
    pub name: Id,
    pub value: Option<Expr>,
}

/// A constant of a group.
#[derive(Drop)]
pub struct Constant {
    pub kind: WrittenType,
    pub name: Id,
    pub value: Expr,
}

/// A flag beside `attribute` or `property`; an attribute has `Bound` and `ReadOnly` alone.
#[derive(Clone, Copy)]
pub enum Flag {
    Bound,
    Constrained,
    MaybeAmbiguous,
    MaybeDefault,
    MaybeVoid,
    Optional,
    ReadOnly,
    Removable,
    Transient,
}

/// An attribute, with its flags as they are written, but for the word `attribute`; what its `get` and its `set` raise, each where it
/// is written.
#[derive(Drop)]
pub struct Attribute {
    pub flags: Vec<Flag>,
    pub kind: WrittenType,
    pub name: Id,
    pub get: Option<Vec<Path>>,
    pub set: Option<Vec<Path>>,
}

/// A parameter of a method.
#[derive(Drop)]
pub struct Parameter {
    pub way: Way,
    pub kind: WrittenType,
    pub name: Id,
}

/// A method; without `raises` it raises nothing.
#[derive(Drop)]
pub struct Method {
    pub oneway: bool,
    pub result: WrittenType,
    pub name: Id,
    pub parameters: Vec<Parameter>,
    pub raises: Vec<Path>,
}

/// A base that is a member of an interface, an interface or a service that is one of a service.
#[derive(Drop)]
pub struct Part {
    pub optional: bool,
    pub path: Path,
}

/// A member of an interface.
pub enum InterfaceMember {
    Base(Part),
    Attribute(Attribute),
    Method(Method),
}

/// A parameter of a constructor; `rest` where `...` stands behind its type.
#[derive(Drop)]
pub struct ConstructorParameter {
    pub kind: WrittenType,
    pub rest: bool,
    pub name: Id,
}

/// A constructor of a service.
#[derive(Drop)]
pub struct Constructor {
    pub name: Id,
    pub parameters: Vec<ConstructorParameter>,
    pub raises: Vec<Path>,
}

/// A property of a service, with its flags as they are written, but for the word `property`.
#[derive(Drop)]
pub struct Property {
    pub flags: Vec<Flag>,
    pub kind: WrittenType,
    pub name: Id,
}

/// A member of a service of the old form.
pub enum ServiceMember {
    Interface(Part),
    Service(Part),
    Property(Property),
}

impl Drop for InterfaceMember {
    fn drop(self) {
        match self {
            InterfaceMember::Base(base) => drop(base),
            InterfaceMember::Attribute(attribute) => drop(attribute),
            InterfaceMember::Method(method) => drop(method),
        }
    }
}

impl Drop for ServiceMember {
    fn drop(self) {
        match self {
            ServiceMember::Interface(part) | ServiceMember::Service(part) => drop(part),
            ServiceMember::Property(property) => drop(property),
        }
    }
}
