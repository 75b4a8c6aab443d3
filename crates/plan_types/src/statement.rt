//! Statements of methods and of roots: a variant for each form in which they are written.

use crate::{Argument, Expression, Word};
use plan_model::Comparison;
use uno_types::{Field, Name, Text};

/// A function by the interface that declares it and its name.
#[derive(Drop)]
pub struct Callee {
    pub owner: Name,
    pub name: Name,
}

/// A call: the object, the function, an argument for each parameter in order, and the variable that the result becomes, where it is named.
#[derive(Drop)]
pub struct Call {
    pub target: Word,
    pub callee: Callee,
    pub arguments: Vec<Argument>,
    pub to: Option<Field>,
}

/// A query: the object, the interface that is asked, and the variable that the answer becomes.
#[derive(Drop)]
pub struct Query {
    pub target: Word,
    pub wanted: Name,
    pub to: Name,
}

/// A new object: the number of its behaviour, the interface under which it is held, and the variable that it becomes.
#[derive(Drop)]
pub struct Making {
    pub behaviour: u32,
    pub face: Name,
    pub to: Name,
}

/// A test: what a word stands for against an expression.
#[derive(Drop)]
pub struct Test {
    pub left: Word,
    pub comparison: Comparison,
    pub right: Expression,
}

/// A statement of a method; what is returned is left out where the result is void.
pub enum Statement {
    Let(Field, Expression),
    SetVariable(Name, Expression),
    SetField(Name, Expression),
    Call(Call),
    Query(Query),
    Make(Making),
    Drop(Name),
    When(Test, Option<Expression>),
    Return(Option<Expression>),
    /// The name of an exception, and its value.
    Raise(Name, Expression),
    Dispose,
}

impl Drop for Statement {
    fn drop(self) {
        match self {
            Statement::Let(field, expression) => {
                drop(field);
                drop(expression);
            }
            Statement::SetVariable(name, expression) => {
                drop(name);
                drop(expression);
            }
            Statement::SetField(name, expression) => {
                drop(name);
                drop(expression);
            }
            Statement::Call(call) => drop(call),
            Statement::Query(query) => drop(query),
            Statement::Make(making) => drop(making),
            Statement::Drop(name) => drop(name),
            Statement::When(test, result) => {
                drop(test);
                drop(result);
            }
            Statement::Return(result) => drop(result),
            Statement::Raise(name, expression) => {
                drop(name);
                drop(expression);
            }
            Statement::Dispose => {}
        }
    }
}

/// A statement of a root.
pub enum RootStatement {
    /// Asks the peer for the object of an exported name, which becomes a variable of the wanted interface.
    Ask { to: Name, wanted: Name, name: Text },
    /// The same for the name that the session is about.
    AskInstance { to: Name, wanted: Name },
    Call(Call),
    Query(Query),
    Make(Making),
    Drop(Name),
    Same(Name, Name),
    Dispose,
}

impl Drop for RootStatement {
    fn drop(self) {
        match self {
            RootStatement::Ask { to, wanted, name } => {
                drop(to);
                drop(wanted);
                drop(name);
            }
            RootStatement::AskInstance { to, wanted } => {
                drop(to);
                drop(wanted);
            }
            RootStatement::Call(call) => drop(call),
            RootStatement::Query(query) => drop(query),
            RootStatement::Make(making) => drop(making),
            RootStatement::Drop(name) => drop(name),
            RootStatement::Same(one, other) => {
                drop(one);
                drop(other);
            }
            RootStatement::Dispose => {}
        }
    }
}
