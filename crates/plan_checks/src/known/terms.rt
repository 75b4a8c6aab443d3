//! Whether each name in a term is known.
ghost use Rattle.std.specs.Prelude.{◌&&◌, map};
ghost use Rattle.std.specs.List.{list_all};
ghost use Rattle.plan_model.specs.KnownNames.{is_term_known, is_type_known};
ghost use Rattle.plan_model.specs.declared.line_reason.LineReason.TheVariants.{Unknown};
ghost use Rattle.plan_lines.specs.Pieces.{piece_of, pieces_of};
ghost use Rattle.plan_lines.specs.Terms.{term_of};
ghost use Rattle.plan_checks.specs.Checks.{Passes, before};
ghost use Rattle.plan_checks.specs.Pieces.{is_piece_known};

use crate::checker::Checker;
use crate::known::{is_word_known, known};
use crate::line_error::LineError;
use plan_lines::{Piece, Term};
use uno_types::Name;

impl Checker<'_> {
    /// Refuses a name in the term that is not known.
    pub(crate) fn knows_term(&self, term: &Term) -> Result<(), LineError>
        ensures { Passes Unknown result (is_term_known self.now.registry.now (before self.now) (term_of term.now)) }
    {
        self.knows_pieces(term.pieces.as_slice())
    }

    /// The same of the name of a type, and a term.
    pub(crate) fn knows_typed(&self, kind: &Name, content: &Term) -> Result<(), LineError>
        ensures { Passes Unknown result (is_type_known self.now.registry.now kind.now && is_term_known self.now.registry.now (before self.now) (term_of content.now)) }
    {
        self.knows_type(kind)?;
        self.knows_term(content)
    }

    /// The same of each term of a list.
    pub(crate) fn knows_terms(&self, terms: &[Term]) -> Result<(), LineError>
        ensures { Passes Unknown result (list_all (is_term_known self.now.registry.now (before self.now)) (map term_of terms.now)) }
    {
        for term in terms {
            self.knows_term(term)?;
        }
        Ok(())
    }

    fn knows_pieces(&self, pieces: &[Piece]) -> Result<(), LineError>
        ensures { Passes Unknown result (list_all (is_piece_known self.now.registry.now (before self.now)) (pieces_of pieces.now)) }
    {
        for piece in pieces {
            self.knows_piece(piece)?;
        }
        Ok(())
    }

    fn knows_piece(&self, piece: &Piece) -> Result<(), LineError>
        ensures { Passes Unknown result (is_piece_known self.now.registry.now (before self.now) (piece_of piece.now)) }
    {
        match piece {
            Piece::Type(kind) | Piece::Typed(kind) => self.knows_type(kind),
            Piece::Word(word) => known(is_word_known(self.context, word)),
            Piece::Leaf(_)
            | Piece::VoidAny
            | Piece::Elements(_)
            | Piece::Members(_)
            | Piece::Operation(_) => Ok(()),
        }
    }
}
