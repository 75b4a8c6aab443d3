//! Terms at the front of a text, by a loop over what stands open.
ghost use Rattle.std.specs.Prelude.{◌≡◌, false, ◌<◌, [], length, IsTrue, OnOk};
ghost use Rattle.plan_reading_model.specs.TermReading as model;
ghost use Rattle.term_pieces.specs.Opened.{comes_of, after};
ghost use Rattle.term_pieces.specs.Pieces.{is_term, term_in};
ghost use Rattle.plan_lines.specs.Opened.{opened, place_of, standing, left_at, read_at, is_read, work, IsReady, Steps};
ghost use Rattle.plan_lines.specs.Pieces.{pieces_of};
ghost use Rattle.plan_lines.specs.Reads.{Gives};
ghost use Rattle.plan_lines.specs.Views.{term_front};

use crate::piece::Piece;
use crate::place::{Open, Place};
use crate::term::Term;
use crate::unread::{Front, Unread};
use crate::words::Words;
use std::alloc::Global;

/// The term at the front of a text.
pub(crate) fn term_at<'t>(alloc: Global, words: &Words<'_>, bytes: &'t [u8]) -> Front<'t, Term>
    ensures { Gives term_front result (model.term_at words.now bytes.now) }
{
    let mut pieces = Vec::new(alloc);
    match push_term(alloc, words, bytes, &mut pieces) {
        Ok(rest) => Ok((Term { pieces }, rest)),
        Err(unread) => {
            drop(pieces);
            Err(unread)
        }
    }
}

/// The pieces of the term at the front of a text.
fn push_term<'t>(
    alloc: Global,
    words: &Words<'_>,
    bytes: &'t [u8],
    pieces: &mut Vec<Piece>,
) -> Result<&'t [u8], Unread>
    requires { pieces.old.items ≡ [] }
    ensures term { Gives (λ rest. (term_in (pieces_of pieces.new.items), rest.now)) result (model.term_at words.now bytes.now) }
    ensures one { OnOk result (IsTrue (is_term (pieces_of pieces.new.items))) }
{
    let terms = Terms { alloc, words };
    let mut stack = Vec::new(alloc);
    let rest = terms.push(bytes, &mut stack, pieces);
    drop(stack);
    rest
}

/// What reads terms: where their memory comes from, and the words that are literals.
#[derive(Clone, Copy)]
pub(crate) struct Terms<'a, 'b> {
    pub(crate) alloc: Global,
    pub(crate) words: &'a Words<'b>,
}

impl Terms<'_, '_> {
    /// The pieces of the term at the front of a text.
    fn push<'t>(
        &self,
        bytes: &'t [u8],
        stack: &mut Vec<Open<'t>>,
        pieces: &mut Vec<Piece>,
    ) -> Result<&'t [u8], Unread>
        requires stack { stack.old.items ≡ [] }
        requires pieces { pieces.old.items ≡ [] }
        ensures term { Gives (λ rest. (term_in (pieces_of pieces.new.items), rest.now)) result (model.term_at self.now.words.now bytes.now) }
        ensures one { OnOk result (IsTrue (is_term (pieces_of pieces.new.items))) }
    {
        let mut place = Place::Before(bytes);
        while !is_read(place, stack) {
            place = self.step(place, stack, pieces)?;
        }
        Ok(left_at(place))
    }

    /// One step: a term begins, or one that another holds ends.
    fn step<'t>(
        &self,
        place: Place<'t>,
        stack: &mut Vec<Open<'t>>,
        pieces: &mut Vec<Piece>,
    ) -> Result<Place<'t>, Unread>
        requires ready { IsReady (opened stack.old.items) (pieces_of pieces.old.items) (read_at (place_of place)) }
        requires on { is_read (place_of place) (opened stack.old.items) ≡ false }
        ensures { Steps self.now.words.now (comes_of self.now.words.now (opened stack.old.items) (standing pieces.old.items) (place_of place.entry))
            (work (opened stack.old.items) (place_of place.entry)) result stack.new.items pieces.new.items }
    {
        match place {
            Place::Before(bytes) => self.begin(bytes, stack, pieces),
            Place::After(rest) => self.behind(rest, stack, pieces),
        }
    }

    /// Behind a term that another holds.
    fn behind<'t>(
        &self,
        rest: &'t [u8],
        stack: &mut Vec<Open<'t>>,
        pieces: &mut Vec<Piece>,
    ) -> Result<Place<'t>, Unread>
        requires some { 0 < length (opened stack.old.items) }
        requires ready { IsReady (opened stack.old.items) (pieces_of pieces.old.items) 1 }
        ensures { Steps self.now.words.now (comes_of self.now.words.now (opened stack.old.items) (standing pieces.old.items) (after rest.now))
            (work (opened stack.old.items) (after rest.now)) result stack.new.items pieces.new.items }
    {
        match stack.pop() {
            Some(last) => self.end(last, rest, stack, pieces),
            None => unreachable!(),
        }
    }
}

/// Whether a term was read, and none stands open.
fn is_read(place: Place<'_>, stack: &[Open<'_>]) -> bool
    ensures { result ≡ is_read (place_of place.entry) (opened stack.now) }
{
    match place {
        Place::Before(_) => false,
        Place::After(_) => stack.is_empty(),
    }
}

/// The bytes at a place.
fn left_at(place: Place<'_>) -> &[u8]
    ensures { result.now ≡ left_at (place_of place.entry) }
{
    match place {
        Place::Before(bytes) | Place::After(bytes) => bytes,
    }
}
