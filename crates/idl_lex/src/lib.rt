//! The tokens of a UNOIDL file.
#![tactic(auto)]

ghost use Rattle.std.specs.Prelude.{◌≡◌, ◌≤◌, length, IfOk, IfErr};
ghost use Rattle.idl_trees.specs.Tokens.{tokens_of, EndInFile};
ghost use Rattle.idl_lex.specs.Lexing.{AreLexed, IsRefused};

mod error;
mod guesses;
mod lexer;
mod number;
mod piece;
mod run;

pub use error::LexError;
use guesses::Guesses;
pub use idl_trees::{Place, Token, Word};
use std::alloc::Global;

/// How many bytes a file may have.
pub const MOST_BYTES: usize = 4_194_304;

/// The tokens of the file of this number. Its length is judged first, then whether it is UTF-8, then its words, numbers, marks and
/// comments one after the other.
pub fn lex(alloc: Global, file: u32, bytes: &[u8]) -> Result<Vec<Token>, LexError>
    ensures tokens { IfOk result (λ tokens. AreLexed file bytes.now (tokens_of tokens.items)) }
    ensures end { IfOk result (λ tokens. EndInFile (tokens_of tokens.items)) }
    ensures refused { IfErr result (λ e. IsRefused file bytes.now e) }
{
    if bytes.len() > MOST_BYTES {
        return Err(LexError::TooLong(Place {
            file,
            byte: MOST_BYTES as u32,
        }));
    }
    if let Err(error) = str::from_utf8(bytes) {
        return Err(LexError::BadUtf8(Place {
            file,
            byte: error.valid_up_to() as u32,
        }));
    }
    let mut guesses = Guesses::none(alloc)?;
    lexer::tokens(alloc, &mut guesses, file, bytes)
}
