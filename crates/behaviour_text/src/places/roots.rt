//! What a root may write.
ghost use Rattle.std.specs.Prelude.{◌≡◌, map};
ghost use Rattle.std.specs.List.{list_all};
ghost use Rattle.plan_model.specs.Forms.{is_root_word, is_root_term};
ghost use Rattle.plan_types.specs.Expressions.{word_of};
ghost use Rattle.plan_lines.specs.Pieces.{piece_of, pieces_of};
ghost use Rattle.plan_lines.specs.Terms.{term_of};
ghost use Rattle.behaviour_text.specs.RootPieces.{is_root_piece};

use plan_lines::{Piece, Term};
use plan_types::Word;

/// Whether the word is a variable.
pub(crate) fn is_root_word(word: &Word) -> bool
    ensures { result ≡ is_root_word (word_of word.now) }
{
    matches!(word, Word::Variable(_))
}

/// Whether no argument has a word that is no variable, or an operation.
pub(crate) fn are_root_arguments(terms: &[Term]) -> bool
    ensures { result ≡ list_all is_root_term (map term_of terms.now) }
{
    for term in terms {
        if !is_root_term(term) {
            return false;
        }
    }
    true
}

fn is_root_term(term: &Term) -> bool
    ensures { result ≡ is_root_term (term_of term.now) }
{
    are_root_pieces(term.pieces.as_slice())
}

fn are_root_pieces(pieces: &[Piece]) -> bool
    ensures { result ≡ list_all is_root_piece (pieces_of pieces.now) }
{
    for piece in pieces {
        if !is_root_piece(piece) {
            return false;
        }
    }
    true
}

fn is_root_piece(piece: &Piece) -> bool
    ensures { result ≡ is_root_piece (piece_of piece.now) }
{
    match piece {
        Piece::Word(word) => is_root_word(word),
        Piece::Operation(_) => false,
        Piece::Leaf(_)
        | Piece::Type(_)
        | Piece::VoidAny
        | Piece::Typed(_)
        | Piece::Elements(_)
        | Piece::Members(_) => true,
    }
}
