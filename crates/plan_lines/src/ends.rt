//! A term ends that is held by one that stands open: the next one in that is to be read, or that ends too.
ghost use Rattle.std.specs.Prelude.{◌≡◌, ◌++◌, ◌∷◌, [], OnOk, Some, option_map, codes};
ghost use Rattle.plan_reading_model.specs.Parts.{behind};
ghost use Rattle.term_pieces.specs.Opened.{before, after, comes_of, elements, members, right};
ghost use Rattle.term_pieces.specs.Pieces.{typed, operation as operation_piece};
ghost use Rattle.plan_lines.specs.Opened.{open_of, opened, place_of, standing, work, IsReady, Steps};
ghost use Rattle.plan_lines.specs.Pieces.{pieces_of};
ghost use Rattle.plan_lines.specs.Reads.{Gives};

use crate::marks::behind;
use crate::piece::Piece;
use crate::place::{Open, Place, open_one, put};
use crate::terms::Terms;
use crate::unread::Unread;
use plan_types::Operation;
use std::alloc::Global;
use uno_types::Name;

const CLOSES: &[u8] = b")";

const COMMA: &[u8] = b",";

impl Terms<'_, '_> {
    /// By what stands behind a term that this one holds.
    pub(crate) fn end<'t>(
        &self,
        last: Open<'t>,
        bytes: &'t [u8],
        stack: &mut Vec<Open<'t>>,
        pieces: &mut Vec<Piece>,
    ) -> Result<Place<'t>, Unread>
        requires { IsReady (open_of last ∷ opened stack.old.items) (pieces_of pieces.old.items) 1 }
        ensures { Steps self.now.words.now
            (comes_of self.now.words.now (open_of last.entry ∷ opened stack.old.items) (standing pieces.old.items) (after bytes.now))
            (work (open_of last.entry ∷ opened stack.old.items) (after bytes.now)) result stack.new.items pieces.new.items }
    {
        match last {
            Open::Elements(read) => self.in_elements(read, bytes, stack, pieces),
            Open::Members(read) => self.in_members(read, bytes, stack, pieces),
            Open::Typed(kind) => end_typed(self.alloc, kind, bytes, pieces),
            Open::Left(operation) => begin_right(operation, bytes, stack),
            Open::Right(operation) => end_operation(operation, bytes, pieces),
        }
    }

    /// Behind an element.
    fn in_elements<'t>(
        &self,
        read: usize,
        bytes: &'t [u8],
        stack: &mut Vec<Open<'t>>,
        pieces: &mut Vec<Piece>,
    ) -> Result<Place<'t>, Unread>
        requires { IsReady (elements read ∷ opened stack.old.items) (pieces_of pieces.old.items) 1 }
        ensures { Steps self.now.words.now
            (comes_of self.now.words.now (elements read ∷ opened stack.old.items) (standing pieces.old.items) (after bytes.now))
            (work (elements read ∷ opened stack.old.items) (after bytes.now)) result stack.new.items pieces.new.items }
    {
        let Some((first, rest)) = bytes.split_first() else {
            return Err(Unread::Form);
        };
        if *first == b']' {
            return put(Piece::Elements(read + 1), rest, pieces);
        }
        if *first == b',' {
            return open_one(Open::Elements(read + 1), rest, stack);
        }
        Err(Unread::Form)
    }

    /// Behind a member.
    fn in_members<'t>(
        &self,
        read: usize,
        bytes: &'t [u8],
        stack: &mut Vec<Open<'t>>,
        pieces: &mut Vec<Piece>,
    ) -> Result<Place<'t>, Unread>
        requires { IsReady (members read ∷ opened stack.old.items) (pieces_of pieces.old.items) 1 }
        ensures { Steps self.now.words.now
            (comes_of self.now.words.now (members read ∷ opened stack.old.items) (standing pieces.old.items) (after bytes.now))
            (work (members read ∷ opened stack.old.items) (after bytes.now)) result stack.new.items pieces.new.items }
    {
        let Some((first, rest)) = bytes.split_first() else {
            return Err(Unread::Form);
        };
        if *first == b'}' {
            return put(Piece::Members(read + 1), rest, pieces);
        }
        if *first == b',' {
            return open_one(Open::Members(read + 1), rest, stack);
        }
        Err(Unread::Form)
    }
}

/// Behind the value of a type.
fn end_typed<'t>(
    alloc: Global,
    kind: &str,
    rest: &'t [u8],
    pieces: &mut Vec<Piece>,
) -> Result<Place<'t>, Unread>
    ensures place { Gives place_of result (Some (after rest.now)) }
    ensures pieces { OnOk result (pieces_of pieces.new.items ≡ pieces_of pieces.old.items ++ typed kind.now ∷ []) }
{
    let kind = Name::of(alloc, kind)?;
    put(Piece::Typed(kind), rest, pieces)
}

/// Behind the first operand.
fn begin_right<'t>(
    operation: Operation,
    bytes: &'t [u8],
    stack: &mut Vec<Open<'t>>,
) -> Result<Place<'t>, Unread>
    ensures place { Gives place_of result (option_map before (behind (codes ",") bytes.now)) }
    ensures stack { OnOk result (opened stack.new.items ≡ right operation ∷ opened stack.old.items) }
{
    let Some(rest) = behind(COMMA, bytes) else {
        return Err(Unread::Form);
    };
    open_one(Open::Right(operation), rest, stack)
}

/// Behind the second operand.
fn end_operation<'t>(
    operation: Operation,
    bytes: &'t [u8],
    pieces: &mut Vec<Piece>,
) -> Result<Place<'t>, Unread>
    ensures place { Gives place_of result (option_map after (behind (codes ")") bytes.now)) }
    ensures pieces { OnOk result (pieces_of pieces.new.items ≡ pieces_of pieces.old.items ++ operation_piece operation ∷ []) }
{
    let Some(rest) = behind(CLOSES, bytes) else {
        return Err(Unread::Form);
    };
    put(Piece::Operation(operation), rest, pieces)
}
