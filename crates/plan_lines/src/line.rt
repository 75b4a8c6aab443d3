//! Lines: the head of a block, its end, a line of a behaviour or of the top, or a statement.

use crate::Term;
use plan_types::{Comparison, Word};
use uno_types::{Name, Text};

/// A name that is declared, and the text of its type.
#[derive(Drop)]
pub struct Declared {
    pub name: Name,
    pub kind: Name,
}

/// A line; names of types, interfaces and behaviours are still texts.
pub enum Line {
    Behaviour {
        name: Name,
        faces: Vec<Name>,
    },
    Field(Declared),
    Method {
        face: Name,
        function: Name,
    },
    Service {
        name: Name,
        behaviour: Name,
    },
    Singleton {
        name: Name,
        behaviour: Name,
    },
    Export {
        name: Text,
        behaviour: Name,
    },
    Thread,
    End,
    Let(Declared, Term),
    SetVariable(Name, Term),
    SetField(Name, Term),
    /// A call, with the variable that its result becomes, where it is named.
    Call {
        to: Option<Declared>,
        target: Word,
        function: Name,
        arguments: Vec<Term>,
    },
    Query(Declared, Word),
    Make(Declared, Name),
    Drop(Name),
    When {
        left: Word,
        comparison: Comparison,
        right: Term,
        back: Option<Term>,
    },
    Return(Option<Term>),
    Raise(Name, Term),
    Dispose,
    Ask(Declared, Text),
    AskInstance(Declared),
    Same(Name, Name),
}

impl Drop for Line {
    fn drop(self) {
        match self {
            Line::Behaviour { name, faces } => {
                drop(name);
                drop(faces);
            }
            Line::Field(declared) => drop(declared),
            Line::Method { face, function } => {
                drop(face);
                drop(function);
            }
            Line::Service { name, behaviour } => {
                drop(name);
                drop(behaviour);
            }
            Line::Singleton { name, behaviour } => {
                drop(name);
                drop(behaviour);
            }
            Line::Export { name, behaviour } => {
                drop(name);
                drop(behaviour);
            }
            Line::Let(declared, term) => {
                drop(declared);
                drop(term);
            }
            Line::SetVariable(name, term) => {
                drop(name);
                drop(term);
            }
            Line::SetField(name, term) => {
                drop(name);
                drop(term);
            }
            Line::Call {
                to,
                target,
                function,
                arguments,
            } => {
                drop(to);
                drop(target);
                drop(function);
                drop(arguments);
            }
            Line::Query(declared, word) => {
                drop(declared);
                drop(word);
            }
            Line::Make(declared, name) => {
                drop(declared);
                drop(name);
            }
            Line::Drop(name) => drop(name),
            Line::When {
                left,
                comparison: _,
                right,
                back,
            } => {
                drop(left);
                drop(right);
                drop(back);
            }
            Line::Return(result) => drop(result),
            Line::Raise(name, term) => {
                drop(name);
                drop(term);
            }
            Line::Ask(declared, text) => {
                drop(declared);
                drop(text);
            }
            Line::AskInstance(declared) => drop(declared),
            Line::Same(one, other) => {
                drop(one);
                drop(other);
            }
            Line::Thread | Line::End | Line::Dispose => {}
        }
    }
}
