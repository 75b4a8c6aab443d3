//! The pieces of a term: what each term in it is without those that it holds, each behind those.

use literal_reading::Token;
use plan_types::{Operation, Word};
use uno_types::Name;

/// A term without those that it holds.
pub enum Piece {
    /// A number, a word or a quoted text.
    Leaf(Token),
    Type(Name),
    VoidAny,
    /// The type of an any, whose value is the term before it.
    Typed(Name),
    /// A sequence of so many elements.
    Elements(usize),
    /// A struct or an exception of so many members.
    Members(usize),
    Word(Word),
    /// An operation on the two terms before it.
    Operation(Operation),
}

impl Drop for Piece {
    fn drop(self) {
        match self {
            Piece::Leaf(token) => drop(token),
            Piece::Type(name) | Piece::Typed(name) => drop(name),
            Piece::Word(word) => drop(word),
            Piece::VoidAny | Piece::Elements(_) | Piece::Members(_) | Piece::Operation(_) => {}
        }
    }
}
