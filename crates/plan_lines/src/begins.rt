//! A term begins: one that holds no other is read, and of any other the part in front of the first term in it.
ghost use Rattle.std.specs.Prelude.{◌≡◌, ◌+◌, [], OnOk};
ghost use Rattle.plan_reading_model.specs.Parts.{type_at, on_some};
ghost use Rattle.plan_reading_model.specs.TermReading as model;
ghost use Rattle.plan_reading_model.specs.TermReading.{term_at};
ghost use Rattle.term_pieces.specs.Opened.{before};
ghost use Rattle.term_pieces.specs.Pieces.{AreBuilt};
ghost use Rattle.plan_lines.specs.Leaves.{leaf_at};
ghost use Rattle.plan_lines.specs.Opened.{opened, place_of, comes_with, standing, stands_with, work, IsReady, Steps};
ghost use Rattle.plan_lines.specs.Operations.{operation_named};
ghost use Rattle.plan_lines.specs.Pieces.{pieces_of};
ghost use Rattle.plan_lines.specs.Reads.{Gives};

use crate::class::{Class, as_text, split};
use crate::leaf::{known_word, leaf_at};
use crate::marks::behind;
use crate::piece::Piece;
use crate::place::{Open, Place, open_one, put};
use crate::terms::Terms;
use crate::types::type_at;
use crate::unread::Unread;
use plan_types::Operation;
use uno_entities::begins_identifier;

const CLOSES: &[u8] = b")";

impl Terms<'_, '_> {
    /// A term by its first byte.
    pub(crate) fn begin<'t>(
        &self,
        bytes: &'t [u8],
        stack: &mut Vec<Open<'t>>,
        pieces: &mut Vec<Piece>,
    ) -> Result<Place<'t>, Unread>
        requires { IsReady (opened stack.old.items) (pieces_of pieces.old.items) 0 }
        ensures { Steps self.now.words.now (comes_with self.now.words.now stack.old.items pieces.old.items (term_at self.now.words.now bytes.now))
            (work (opened stack.old.items) (before bytes.now)) result stack.new.items pieces.new.items }
    {
        let Some((first, rest)) = bytes.split_first() else {
            return Err(Unread::Form);
        };
        if *first == b'[' {
            return self.begin_elements(rest, stack, pieces);
        }
        if *first == b'{' {
            return open_one(Open::Members(0), rest, stack);
        }
        if *first == b'(' {
            return self.begin_cast(rest, stack, pieces);
        }
        if begins_identifier(*first) {
            return self.begin_word(bytes, stack, pieces);
        }
        self.put_leaf(bytes, pieces)
    }

    /// The elements of a sequence, of which there may be none.
    fn begin_elements<'t>(
        &self,
        bytes: &'t [u8],
        stack: &mut Vec<Open<'t>>,
        pieces: &mut Vec<Piece>,
    ) -> Result<Place<'t>, Unread>
        requires { IsReady (opened stack.old.items) (pieces_of pieces.old.items) 0 }
        ensures { Steps self.now.words.now
            (comes_with self.now.words.now stack.old.items pieces.old.items (model.elements_at (term_at self.now.words.now) bytes.now))
            (work (opened stack.old.items) (before bytes.now) + 2) result stack.new.items pieces.new.items }
    {
        let Some((first, rest)) = bytes.split_first() else {
            return Err(Unread::Form);
        };
        if *first == b']' {
            return put(Piece::Elements(0), rest, pieces);
        }
        open_one(Open::Elements(0), bytes, stack)
    }

    /// A type behind its parenthesis, and a value of it.
    fn begin_cast<'t>(
        &self,
        bytes: &'t [u8],
        stack: &mut Vec<Open<'t>>,
        pieces: &mut Vec<Piece>,
    ) -> Result<Place<'t>, Unread>
        requires { IsReady (opened stack.old.items) (pieces_of pieces.old.items) 0 }
        ensures { Steps self.now.words.now
            (comes_with self.now.words.now stack.old.items pieces.old.items (on_some (type_at bytes.now) (model.cast_of (term_at self.now.words.now))))
            (work (opened stack.old.items) (before bytes.now) + 2) result stack.new.items pieces.new.items }
    {
        let Some((kind, rest)) = type_at(bytes) else {
            return Err(Unread::Form);
        };
        let Some(rest) = behind(CLOSES, rest) else {
            return Err(Unread::Form);
        };
        self.begin_value(kind, rest, stack, pieces)
    }

    /// The value behind its type: behind void stands none, and any is the type of no value that an any holds.
    fn begin_value<'t>(
        &self,
        kind: &'t str,
        rest: &'t [u8],
        stack: &mut Vec<Open<'t>>,
        pieces: &mut Vec<Piece>,
    ) -> Result<Place<'t>, Unread>
        requires { IsReady (opened stack.old.items) (pieces_of pieces.old.items) 0 }
        ensures { Steps self.now.words.now
            (comes_with self.now.words.now stack.old.items pieces.old.items (model.cast_value (term_at self.now.words.now) kind.now rest.now))
            (work (opened stack.old.items) (before rest.now) + 2) result stack.new.items pieces.new.items }
    {
        if kind == "void" {
            return put(Piece::VoidAny, rest, pieces);
        }
        if kind == "any" {
            return Err(Unread::Form);
        }
        open_one(Open::Typed(kind), rest, stack)
    }

    /// A word: with a parenthesis behind it an operation, else a value.
    fn begin_word<'t>(
        &self,
        bytes: &'t [u8],
        stack: &mut Vec<Open<'t>>,
        pieces: &mut Vec<Piece>,
    ) -> Result<Place<'t>, Unread>
        requires { IsReady (opened stack.old.items) (pieces_of pieces.old.items) 0 }
        ensures { Steps self.now.words.now
            (comes_with self.now.words.now stack.old.items pieces.old.items (model.letters_at self.now.words.now (term_at self.now.words.now) bytes.now))
            (work (opened stack.old.items) (before bytes.now)) result stack.new.items pieces.new.items }
    {
        let (run, rest) = split(Class::Word, bytes);
        let word = as_text(run);
        let Some((first, behind)) = rest.split_first() else {
            return self.put_word(word, rest, pieces);
        };
        if *first == b'(' {
            let Some(operation) = operation_named(word) else {
                return Err(Unread::Form);
            };
            return open_one(Open::Left(operation), behind, stack);
        }
        self.put_word(word, rest, pieces)
    }

    /// A word that some literal has.
    fn put_word<'t>(
        &self,
        word: &str,
        rest: &'t [u8],
        pieces: &mut Vec<Piece>,
    ) -> Result<Place<'t>, Unread>
        ensures term { Gives (λ p. (standing pieces.new.items, place_of p)) result
            (stands_with (standing pieces.old.items) (model.known_word self.now.words.now word.now rest.now)) }
        ensures built { OnOk result (AreBuilt [] (pieces_of pieces.old.items) → AreBuilt [] (pieces_of pieces.new.items)) }
    {
        match known_word(self.alloc, self.words, word, rest) {
            Ok((piece, rest)) => put(piece, rest, pieces),
            Err(unread) => Err(unread),
        }
    }

    /// A term that holds no other and is no word of a literal.
    fn put_leaf<'t>(&self, bytes: &'t [u8], pieces: &mut Vec<Piece>) -> Result<Place<'t>, Unread>
        ensures term { Gives (λ p. (standing pieces.new.items, place_of p)) result (stands_with (standing pieces.old.items) (leaf_at bytes.now)) }
        ensures built { OnOk result (AreBuilt [] (pieces_of pieces.old.items) → AreBuilt [] (pieces_of pieces.new.items)) }
    {
        match leaf_at(self.alloc, bytes) {
            Ok((piece, rest)) => put(piece, rest, pieces),
            Err(unread) => Err(unread),
        }
    }
}

/// The operation of this name.
fn operation_named(word: &str) -> Option<Operation>
    ensures { result ≡ operation_named word.now }
{
    match word {
        "add" => Some(Operation::Add),
        "sub" => Some(Operation::Sub),
        _ => None,
    }
}
