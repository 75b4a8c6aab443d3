//! Terms: what stands for a value, with the names in it as texts.
ghost use Rattle.std.specs.Prelude.{IsTrue};
ghost use Rattle.term_pieces.specs.Pieces.{is_term};
ghost use Rattle.plan_lines.specs.Pieces.{pieces_of};

use crate::piece::Piece;

/// What stands for a value. Its pieces stand one behind the other, so that it is read and let go by loops, however deep it is nested.
#[derive(Drop)]
pub struct Term {
    pub pieces: Vec<Piece>,
    pub ghost one: { IsTrue (is_term (pieces_of pieces.items)) },
}
