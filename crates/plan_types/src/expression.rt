//! Expressions at their types, and what is given for parameters.

use crate::Word;
use plan_model::Operation;
use uno_types::{Name, TypeName};
use uno_values::Value;

/// A value in whose place, or in place of whose parts, words and operations may stand.
pub enum Expression {
    Constant(Value),
    Word(Word),
    /// A sum or a difference of two numbers of one whole type.
    Operation(Operation, Box<Expression>, Box<Expression>),
    /// An any of this type.
    Any(TypeName, Box<Expression>),
    /// The name of a struct or an exception, and its members, those of its bases first.
    Tuple(Name, Vec<Expression>),
    /// The type of the elements, which is not byte, and the elements of a sequence.
    List(TypeName, Vec<Expression>),
    /// The elements of a sequence of byte.
    Bytes(Vec<Expression>),
}

impl Drop for Expression {
    #[cycle(let_go)]
    fn drop(self) {
        match self {
            Expression::Constant(value) => drop(value),
            Expression::Word(word) => drop(word),
            Expression::Operation(_, left, right) => {
                drop(left);
                drop(right);
            }
            Expression::Any(kind, held) => {
                drop(kind);
                drop(held);
            }
            Expression::Tuple(name, members) => {
                drop(name);
                drop(members);
            }
            Expression::List(kind, elements) => {
                drop(kind);
                drop(elements);
            }
            Expression::Bytes(elements) => drop(elements),
        }
    }
}

/// What is given for a parameter: an expression for one that goes in, and the variable that gets the value of one that comes out or goes both ways.
#[derive(Drop)]
pub enum Argument {
    Into(Expression),
    Out(Name),
    Both(Name),
}
