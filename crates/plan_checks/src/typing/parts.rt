//! What a piece of a term is at its type.
ghost use Rattle.std.specs.Prelude.{◌≡◌, ◌==◌, Option, Some, length, option_map, IfOk, OnOk};
ghost use Rattle.plan_model.specs.Expressions as e;
ghost use Rattle.plan_model.specs.Typing.{is_whole, only_if};
ghost use Rattle.uno_model.specs.Fits.{member_kinds};
ghost use Rattle.term_pieces.specs.Fits.{times, turned};
ghost use Rattle.term_pieces.specs.Parts.{part_at, any_part, elements_part, members_part, kinds_in};
ghost use Rattle.term_pieces.specs.Parts as plain;
ghost use Rattle.literal_reading.specs.Typing.{kinds_at};
ghost use Rattle.plan_lines.specs.Pieces.{piece_of};
ghost use Rattle.plan_types.specs.Expressions.{expression_of};
ghost use Rattle.uno_entities.specs.TypeNames.{kind_of};
ghost use Rattle.plan_checks.specs.Checks.{Gives, before};
ghost use Rattle.plan_checks.specs.Parts.{part_of, kinds_asked, named_in};

use crate::checker::Checker;
use crate::kinds::is_whole;
use crate::line_error::LineError;
use plan_lines::Piece;
use plan_types::{Expression, LineReason, Operation};
use uno_base::NoMemory;
use uno_types::{Field, Name, TypeName};

/// A piece that fits its place: an expression in which no term stands, or what holds so many of those before it.
#[derive(Drop)]
pub(crate) enum Part<'a> {
    Whole(Expression),
    Any(&'a TypeName),
    Elements(&'a TypeName, usize),
    Members(&'a Name, usize),
    Operation(Operation),
}

impl Checker<'_> {
    /// What a piece is at a type; that of the value of an any is known.
    #[tactic(auto, unfolding(term_pieces::specs::Parts::part_at))]
    pub(super) fn part_at<'k>(
        &self,
        piece: &Piece,
        kind: &'k TypeName,
        named: &'k Option<TypeName>,
    ) -> Result<Part<'k>, LineError>
        requires { option_map kind_of named.now ≡ named_in self.now.registry.now (piece_of piece.now) }
        ensures { Gives part_of result (part_at self.now.registry.now (before self.now) (piece_of piece.now) (kind_of kind.now)) }
    {
        match piece {
            Piece::Leaf(token) => whole_part(self.constant_of(kind, token)),
            Piece::Type(text) => whole_part(self.type_value(kind, text)),
            Piece::VoidAny => whole_part(self.void_any_at(kind)),
            Piece::Typed(_) => any_part(kind, named),
            Piece::Elements(count) => elements_part(kind, *count),
            Piece::Members(count) => self.members_part(kind, *count),
            Piece::Word(word) => whole_part(self.word_at(kind, word)),
            Piece::Operation(operation) => operation_part(kind, *operation),
        }
    }

    fn members_part<'k>(&self, kind: &'k TypeName, count: usize) -> Result<Part<'k>, LineError>
        ensures { Gives part_of result (members_part self.now.registry.now (kind_of kind.now) count) }
    {
        match kind {
            TypeName::Struct(name) | TypeName::Exception(name) => self.tuple_part(name, count),
            TypeName::Void
            | TypeName::Char
            | TypeName::Boolean
            | TypeName::Byte
            | TypeName::Short
            | TypeName::UnsignedShort
            | TypeName::Long
            | TypeName::UnsignedLong
            | TypeName::Hyper
            | TypeName::UnsignedHyper
            | TypeName::Str
            | TypeName::Kind
            | TypeName::Any
            | TypeName::Enum(_)
            | TypeName::Interface(_)
            | TypeName::Sequence(_) => Err(LineError::Wrong(LineReason::Misfit)),
        }
    }

    /// The members of a struct or an exception, where it has so many.
    fn tuple_part<'k>(&self, name: &'k Name, count: usize) -> Result<Part<'k>, LineError>
        ensures { Gives part_of result (only_if (count == length (member_kinds self.now.registry.now name.now)) (Some (plain.members name.now count))) }
    {
        let most = self.count_of_members(name)?;
        if count != most {
            return Err(LineError::Wrong(LineReason::Misfit));
        }
        Ok(Part::Members(name, count))
    }

    fn count_of_members(&self, name: &Name) -> Result<usize, NoMemory>
        ensures { IfOk result (λ count. count ≡ length (member_kinds self.now.registry.now name.now)) }
    {
        let fields = self.registry.members(self.alloc, name.as_str())?;
        Ok(fields.len())
    }

    /// Wants the types of the terms in a part, which has this type itself.
    #[tactic(auto, unfolding(term_pieces::specs::Parts::kinds_in))]
    pub(super) fn want<'k>(
        &'k self,
        part: &Part<'k>,
        kind: &'k TypeName,
        wanted: &mut Vec<&'k TypeName>,
    ) -> Result<(), NoMemory>
        ensures { OnOk result (kinds_asked wanted.new.items ≡ kinds_in self.now.registry.now (part_of part.now) (kind_of kind.now) (kinds_asked wanted.old.items)) }
    {
        match part {
            Part::Whole(_) => Ok(()),
            Part::Any(held) => {
                wanted.push(*held)?;
                Ok(())
            }
            Part::Elements(element, count) => push_times(wanted, *element, *count),
            Part::Members(name, _) => self.push_members(wanted, *name),
            Part::Operation(_) => push_times(wanted, kind, 2),
        }
    }

    /// The types of all members, the last one on top.
    fn push_members<'k>(
        &'k self,
        wanted: &mut Vec<&'k TypeName>,
        name: &Name,
    ) -> Result<(), NoMemory>
        ensures { OnOk result (kinds_asked wanted.new.items ≡ turned (member_kinds self.now.registry.now name.now) (kinds_asked wanted.old.items)) }
    {
        let fields = self.registry.members(self.alloc, name.as_str())?;
        push_kinds(wanted, &fields)
    }
}

fn whole_part<'k>(found: Result<Expression, LineError>) -> Result<Part<'k>, LineError>
    ensures { (defined : Option e.Expression) → Gives expression_of found defined → Gives part_of result (option_map plain.whole defined) }
{
    Ok(Part::Whole(found?))
}

fn any_part<'k>(kind: &'k TypeName, named: &'k Option<TypeName>) -> Result<Part<'k>, LineError>
    ensures { Gives part_of result (any_part (kind_of kind.now) (option_map kind_of named.now)) }
{
    if !matches!(kind, TypeName::Any) {
        return Err(LineError::Wrong(LineReason::Misfit));
    }
    match named {
        Some(held) => Ok(Part::Any(held)),
        None => Err(LineError::Wrong(LineReason::Misfit)),
    }
}

fn elements_part(kind: &TypeName, count: usize) -> Result<Part<'_>, LineError>
    ensures { Gives part_of result (elements_part (kind_of kind.now) count) }
{
    let TypeName::Sequence(element) = kind else {
        return Err(LineError::Wrong(LineReason::Misfit));
    };
    Ok(Part::Elements(element, count))
}

fn operation_part<'k>(kind: &TypeName, operation: Operation) -> Result<Part<'k>, LineError>
    ensures { Gives part_of result (only_if (is_whole (kind_of kind.now)) (Some (plain.operation operation))) }
{
    if !is_whole(kind) {
        return Err(LineError::Wrong(LineReason::Misfit));
    }
    Ok(Part::Operation(operation))
}

/// The same type so many times.
fn push_times<'k>(
    wanted: &mut Vec<&'k TypeName>,
    kind: &'k TypeName,
    count: usize,
) -> Result<(), NoMemory>
    ensures { OnOk result (kinds_asked wanted.new.items ≡ times count (kind_of kind.now) (kinds_asked wanted.old.items)) }
{
    let mut left = count;
    while left > 0 {
        left -= 1;
        wanted.push(kind)?;
    }
    Ok(())
}

fn push_kinds<'k>(wanted: &mut Vec<&'k TypeName>, fields: &[&'k Field]) -> Result<(), NoMemory>
    ensures { OnOk result (kinds_asked wanted.new.items ≡ turned (kinds_at fields.now) (kinds_asked wanted.old.items)) }
{
    for field in fields {
        wanted.push(&field.kind)?;
    }
    Ok(())
}
