//! Why tokens have no tree.

use idl_trees::Place;
use thiserror::Error;

/// Why tokens have no tree.
#[derive(Clone, Copy, Debug, Error)]
pub enum ParseError {
    #[error("no memory")]
    NoMemory,
    /// The first token after which no text of the grammar begins so, or the place behind the last token.
    #[error("a token that may not stand there")]
    Unexpected(Place),
    /// The mark that opens the 65th parenthesis, module or type with its `<`.
    #[error("more than 64 stand open")]
    Nested(Place),
}
