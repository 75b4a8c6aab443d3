//! The tokens of a literal, each with the bytes that are left from its front on.

use uno_types::{Name, Text, TypeName};

/// The brackets of a sequence, and those of a struct or an exception.
#[derive(Clone, Copy)]
pub enum Bracket {
    Square,
    Curly,
}

/// A bracket, a comma, or a value that is one token; `Cast` is a type that stands before a value of it.
pub enum Token {
    Opens(Bracket),
    Closes(Bracket),
    Comma,
    Number(i128),
    Word(Name),
    String(Text),
    Named(TypeName),
    Cast(TypeName),
}

impl Drop for Token {
    fn drop(self) {
        match self {
            Token::Word(name) => drop(name),
            Token::String(text) => drop(text),
            Token::Named(kind) => drop(kind),
            Token::Cast(kind) => drop(kind),
            Token::Opens(_) | Token::Closes(_) | Token::Comma | Token::Number(_) => {}
        }
    }
}

/// A token, and how many bytes of the text are left from its front on.
#[derive(Drop)]
pub(crate) struct Placed {
    pub(crate) left: usize,
    pub(crate) token: Token,
}
