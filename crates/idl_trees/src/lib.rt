//! The tokens of UNOIDL files and the trees of their grammar, as values.
#![tactic(auto)]

mod declaration;
mod expr;
mod member;
mod name;
mod place;
mod token;
mod written_type;

pub use declaration::{Decl, Declaration, Def, Tree};
pub use expr::{Expr, Operand, Operator, Sign};
pub use member::{
    Attribute, Constant, Constructor, ConstructorParameter, Fields, Flag, InterfaceMember, Item,
    Method, Parameter, Part, Property, ServiceMember,
};
pub use name::{Id, Path};
pub use place::Place;
pub use token::{Token, Word};
pub use uno_model::Way;
pub use written_type::{Simple, WrittenType};
