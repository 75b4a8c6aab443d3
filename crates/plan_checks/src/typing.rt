//! The expression that a term is at a type.
ghost use Rattle.std.specs.Prelude.{◌≡◌, ◌∷◌, ◌++◌, [], map, option_map, IfOk, OnOk, is_some};
ghost use Rattle.plan_model.specs.Typing as typing;
ghost use Rattle.plan_model.specs.declared.line_reason.LineReason.TheVariants.{Misfit};
ghost use Rattle.term_pieces.specs.Parts.{all_before, piece_before, asked};
ghost use Rattle.plan_types.specs.Expressions.{expression_of};
ghost use Rattle.plan_lines.specs.Pieces.{piece_of, pieces_of};
ghost use Rattle.plan_lines.specs.Terms.{term_of};
ghost use Rattle.uno_entities.specs.TypeNames.{kind_of};
ghost use Rattle.plan_checks.specs.Checks.{Gives, Passes, before};
ghost use Rattle.plan_checks.specs.Parts.{Parts, GoesBack, asked_of, kinds_asked, laid, named_in};

mod leaves;
mod making;
mod parts;

use crate::checker::Checker;
use crate::kinds::type_named;
use crate::line_error::LineError;
use making::built;
use parts::Part;
use plan_lines::{Piece, Term};
use plan_types::{Expression, LineReason};
use uno_base::NoMemory;
use uno_types::TypeName;

impl Checker<'_> {
    /// The expression that a term is at a type, where it fits that.
    pub(crate) fn expression_of(
        &self,
        term: &Term,
        kind: &TypeName,
    ) -> Result<Expression, LineError>
        ensures { Gives expression_of result (typing.expression_of self.now.registry.now (before self.now) (term_of term.now) (kind_of kind.now)) }
    {
        let pieces = term.pieces.as_slice();
        let named = self.named_in(pieces)?;
        let parts = self.parts_of(pieces, kind, named.as_slice())?;
        Ok(built(self.alloc, parts)?)
    }

    /// Refuses a term that does not fit a type.
    pub(crate) fn term_fits(&self, term: &Term, kind: &TypeName) -> Result<(), LineError>
        ensures { Passes Misfit result (is_some (typing.expression_of self.now.registry.now (before self.now) (term_of term.now) (kind_of kind.now))) }
    {
        let pieces = term.pieces.as_slice();
        let named = self.named_in(pieces)?;
        let parts = self.parts_of(pieces, kind, named.as_slice())?;
        drop(parts);
        Ok(())
    }

    /// The types that the pieces name for what an any holds.
    fn named_in(&self, pieces: &[Piece]) -> Result<Vec<Option<TypeName>>, NoMemory>
        ensures { IfOk result (λ named. map (option_map kind_of) named.items ≡ map (named_in self.now.registry.now) (pieces_of pieces.now)) }
    {
        let mut named = Vec::new(self.alloc);
        self.push_named(pieces, &mut named)?;
        Ok(named)
    }

    fn push_named(
        &self,
        pieces: &[Piece],
        named: &mut Vec<Option<TypeName>>,
    ) -> Result<(), NoMemory>
        ensures { OnOk result (map (option_map kind_of) named.new.items ≡ map (option_map kind_of) named.old.items ++ map (named_in self.now.registry.now) (pieces_of pieces.now)) }
    {
        for piece in pieces {
            let kind = self.named_by(piece)?;
            named.push(kind)?;
        }
        Ok(())
    }

    fn named_by(&self, piece: &Piece) -> Result<Option<TypeName>, NoMemory>
        ensures { IfOk result (λ found. option_map kind_of found ≡ named_in self.now.registry.now (piece_of piece.now)) }
    {
        let Piece::Typed(text) = piece else {
            return Ok(None);
        };
        type_named(self.alloc, self.registry, text)
    }

    /// The pieces at their types, the last one first.
    fn parts_of<'k>(
        &'k self,
        pieces: &[Piece],
        kind: &'k TypeName,
        named: &'k [Option<TypeName>],
    ) -> Result<Vec<Part<'k>>, LineError>
        requires { map (option_map kind_of) named.now ≡ map (named_in self.now.registry.now) (pieces_of pieces.now) }
        ensures { Parts (λ parts. laid parts.items) result (all_before self.now.registry.now (before self.now) (pieces_of pieces.now) (asked [] (kind_of kind.now ∷ []))) }
    {
        let mut wanted = Vec::new(self.alloc);
        wanted.push(kind)?;
        let mut parts = Vec::new(self.alloc);
        self.go_back(pieces, named, &mut wanted, &mut parts)?;
        match wanted.pop() {
            None => Ok(parts),
            Some(_) => {
                drop(parts);
                Err(LineError::Wrong(LineReason::Misfit))
            }
        }
    }

    /// Goes over the pieces from the last one on, each at the type that is wanted last.
    fn go_back<'k>(
        &'k self,
        pieces: &[Piece],
        named: &'k [Option<TypeName>],
        wanted: &mut Vec<&'k TypeName>,
        parts: &mut Vec<Part<'k>>,
    ) -> Result<(), LineError>
        requires { map (option_map kind_of) named.now ≡ map (named_in self.now.registry.now) (pieces_of pieces.now) }
        ensures { GoesBack result (asked_of parts.new.items wanted.new.items)
            (all_before self.now.registry.now (before self.now) (pieces_of pieces.now) (asked_of parts.old.items wanted.old.items)) }
    {
        let mut left = pieces.len();
        while left > 0 {
            left -= 1;
            let Some(kind) = wanted.pop() else {
                return Err(LineError::Wrong(LineReason::Misfit));
            };
            self.take_piece(&pieces[left], kind, &named[left], wanted, parts)?;
        }
        Ok(())
    }

    /// Takes a piece at its type, and wants the types of the terms in it.
    fn take_piece<'k>(
        &'k self,
        piece: &Piece,
        kind: &'k TypeName,
        named: &'k Option<TypeName>,
        wanted: &mut Vec<&'k TypeName>,
        parts: &mut Vec<Part<'k>>,
    ) -> Result<(), LineError>
        requires { option_map kind_of named.now ≡ named_in self.now.registry.now (piece_of piece.now) }
        ensures { GoesBack result (asked_of parts.new.items wanted.new.items)
            (piece_before self.now.registry.now (before self.now) (piece_of piece.now) (asked (laid parts.old.items) (kind_of kind.now ∷ kinds_asked wanted.old.items))) }
    {
        let part = self.part_at(piece, kind, named)?;
        self.want(&part, kind, wanted)?;
        parts.push(part)?;
        Ok(())
    }
}
