//! The lines of a plan as they are written, and the line that a text says.
#![tactic(auto)]

mod arguments;
mod begins;
mod blocks;
mod class;
mod ends;
mod leaf;
mod line;
mod marks;
mod names;
mod parts;
mod piece;
mod place;
mod read;
mod statements;
mod term;
mod terms;
mod types;
mod unread;
mod words;

pub use line::{Declared, Line};
pub use piece::Piece;
pub use read::read_line;
pub use term::Term;
pub use words::Words;
