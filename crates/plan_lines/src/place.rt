//! Terms that stand open, and the place at which a text is read.
ghost use Rattle.std.specs.Prelude.{◌≡◌, ◌++◌, ◌∷◌, [], Some, OnOk};
ghost use Rattle.term_pieces.specs.Opened.{before, after};
ghost use Rattle.plan_lines.specs.Opened.{open_of, opened, place_of};
ghost use Rattle.plan_lines.specs.Pieces.{piece_of, pieces_of};
ghost use Rattle.plan_lines.specs.Reads.{Gives};

use crate::piece::Piece;
use crate::unread::Unread;
use plan_types::Operation;

/// A term whose end is not reached, with the number of those in it that are read.
#[derive(Clone, Copy)]
pub(crate) enum Open<'t> {
    Elements(usize),
    Members(usize),
    Typed(&'t str),
    Left(Operation),
    Right(Operation),
}

/// A term is to be read of these bytes, or one was read in front of them.
#[derive(Clone, Copy)]
pub(crate) enum Place<'t> {
    Before(&'t [u8]),
    After(&'t [u8]),
}

/// Puts a piece behind the others: a term was read.
pub(crate) fn put<'t>(
    piece: Piece,
    rest: &'t [u8],
    pieces: &mut Vec<Piece>,
) -> Result<Place<'t>, Unread>
    ensures place { Gives place_of result (Some (after rest.now)) }
    ensures pieces { OnOk result (pieces_of pieces.new.items ≡ pieces_of pieces.old.items ++ piece_of piece ∷ []) }
{
    pieces.push(piece)?;
    Ok(Place::After(rest))
}

/// Opens a term: the first of those in it, or the next one, is to be read.
pub(crate) fn open_one<'t>(
    one: Open<'t>,
    rest: &'t [u8],
    stack: &mut Vec<Open<'t>>,
) -> Result<Place<'t>, Unread>
    ensures place { Gives place_of result (Some (before rest.now)) }
    ensures stack { OnOk result (opened stack.new.items ≡ open_of one.entry ∷ opened stack.old.items) }
{
    stack.push(one)?;
    Ok(Place::Before(rest))
}
