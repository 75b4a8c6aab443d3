//! Why a file has no tokens.
ghost use Rattle.std.specs.Prelude.{◌≡◌};
ghost use Rattle.idl_lex.specs.declared.error.LexError.TheVariants as error;

use idl_trees::Place;
use std::alloc::AllocFailed;
use thiserror::Error;
use uno_base::NoMemory;

/// Why a file has no tokens.
#[derive(Clone, Copy, Debug, Error)]
pub enum LexError {
    #[error("no memory")]
    NoMemory,
    /// The first byte of the first sequence that is no UTF-8.
    #[error("no UTF-8")]
    BadUtf8(Place),
    /// The first byte of what is no token.
    #[error("no token")]
    BadToken(Place),
    /// The `/*` of a comment that is not closed.
    #[error("a comment that is not closed")]
    OpenComment(Place),
    /// The file goes on at byte 4,194,304.
    #[error("a file of more than 4,194,304 bytes")]
    TooLong(Place),
}

impl From<NoMemory> for LexError {
    ghost from_gives = { λ _ e. e ≡ error.NoMemory };

    fn from(_: NoMemory) -> LexError {
        LexError::NoMemory
    }
}

impl<T: Drop> From<AllocFailed<T>> for LexError {
    ghost from_gives = { λ _ e. e ≡ error.NoMemory };

    fn from(_: AllocFailed<T>) -> LexError {
        LexError::NoMemory
    }
}
