//! The tokens of a file, one after the other.
ghost use Rattle.std.specs.Prelude.{◌≡◌, ◌≤◌, ◌-◌, ◌++◌, [], length, option_map, IfOk, IfErr, OnOk};
ghost use Rattle.std.specs.Str.{IsUtf8};
ghost use Rattle.idl_model.specs.PlacedTokens.{in_file};
ghost use Rattle.idl_text_model.specs.Pieces.{opens_comment};
ghost use Rattle.idl_text_model.specs.Tokens.{in_front};
ghost use Rattle.idl_trees.specs.Tokens.{tokens_of, word_of};
ghost use Rattle.idl_lex.specs.Lexing.{AreLexed, IsRefused, refusal_at};

use crate::guesses::Guesses;
use crate::piece::{Found, piece};
use crate::run::{begins, behind_line_start};
use crate::{LexError, Place, Token};
use idl_trees::Word;
use std::alloc::Global;
use uno_base::NoMemory;

/// A file has so many bytes to a token as a rule, or more.
const USUAL_BYTES: usize = 4;

/// All tokens of a file that is UTF-8 and not too long.
pub(crate) fn tokens(
    alloc: Global,
    guesses: &mut Guesses,
    file: u32,
    text: &[u8],
) -> Result<Vec<Token>, LexError>
    requires short { length text.now ≤ 4194304 }
    requires utf8 { IsUtf8 text.now }
    ensures tokens { IfOk result (λ tokens. AreLexed file text.now (tokens_of tokens.items)) }
    ensures refused { IfErr result (λ e. IsRefused file text.now e) }
{
    let mut tokens = room(alloc, text.len())?;
    let mut left = behind_line_start(text);
    while !left.is_empty() {
        let found = piece(alloc, guesses, tokens.as_slice(), left)?;
        let Some(Found { word, behind }) = found else {
            return Err(refusal(file, text, left));
        };
        let place = Place {
            file,
            byte: (text.len() - left.len()) as u32,
        };
        let length = (left.len() - behind.len()) as u32;
        add_word(&mut tokens, word, place, length)?;
        left = behind;
    }
    Ok(tokens)
}

/// No tokens, and room for those that so many bytes have as a rule.
fn room(alloc: Global, bytes: usize) -> Result<Vec<Token>, NoMemory>
    ensures { IfOk result (λ tokens. tokens.items ≡ []) }
{
    let tokens = Vec::with_capacity(alloc, bytes / USUAL_BYTES)?;
    Ok(tokens)
}

/// One token more, if the piece is a word.
fn add_word(
    tokens: &mut Vec<Token>,
    word: Option<Word>,
    place: Place,
    length: u32,
) -> Result<(), NoMemory>
    ensures { OnOk result (tokens_of tokens.new.items ≡ tokens_of tokens.old.items ++ in_file place.file (in_front (option_map word_of word) place.byte length [])) }
{
    let Some(word) = word else {
        return Ok(());
    };
    tokens.push(Token {
        word,
        place,
        length,
    })?;
    Ok(())
}

/// Why no piece stands where that is left of a text.
fn refusal(file: u32, text: &[u8], left: &[u8]) -> LexError
    requires within { length left.now ≤ length text.now }
    requires short { length text.now ≤ 4194304 }
    ensures { result ≡ refusal_at file (length text.now - length left.now) (opens_comment left.now) }
{
    let place = Place {
        file,
        byte: (text.len() - left.len()) as u32,
    };
    if begins(left, b"/*") {
        return LexError::OpenComment(place);
    }
    LexError::BadToken(place)
}
