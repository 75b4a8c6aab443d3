//! The expression of the parts of a term.
ghost use Rattle.std.specs.Prelude.{◌≡◌, ◌≤◌, ◌∷◌, [], length, take, drop, reverse, IfOk, OnOk};
ghost use Rattle.plan_model.specs.Expressions as e;
ghost use Rattle.term_pieces.specs.Parts.{put_part, put_parts, sequence_in};
ghost use Rattle.term_pieces.specs.Parts as plain;
ghost use Rattle.plan_types.specs.Expressions.{expression_of, expressions_of};
ghost use Rattle.uno_entities.specs.TypeNames.{kind_of};
ghost use Rattle.plan_checks.specs.Parts.{MakeOne, held_in, laid, part_of, stack_of};

use crate::typing::parts::Part;
use plan_types::{Expression, Operation};
use std::alloc::Global;
use uno_base::NoMemory;
use uno_types::{Name, TypeName};

/// The expression of the parts, of which the last one comes first.
pub(super) fn built(alloc: Global, parts: Vec<Part<'_>>) -> Result<Expression, NoMemory>
    requires { MakeOne [] (laid parts.items) }
    ensures { IfOk result (λ x. put_parts [] (laid parts.entry.items) ≡ expression_of x ∷ []) }
{
    let mut parts = parts;
    let mut made = Vec::new(alloc);
    put_all(alloc, &mut made, &mut parts)?;
    let Some(expression) = made.pop() else {
        unreachable!()
    };
    Ok(expression)
}

/// Puts each part in the place of the expressions that it holds.
fn put_all(
    alloc: Global,
    made: &mut Vec<Expression>,
    parts: &mut Vec<Part<'_>>,
) -> Result<(), NoMemory>
    requires { MakeOne (stack_of made.old.items) (laid parts.old.items) }
    ensures all { OnOk result (stack_of made.new.items ≡ put_parts (stack_of made.old.items) (laid parts.old.items)) }
    ensures one { OnOk result (length made.new.items ≡ 1) }
{
    while let Some(part) = parts.pop() {
        put(alloc, made, part)?;
    }
    Ok(())
}

fn put(alloc: Global, made: &mut Vec<Expression>, part: Part<'_>) -> Result<(), NoMemory>
    requires { held_in (part_of part) ≤ length made.old.items }
    ensures { OnOk result (stack_of made.new.items ≡ put_part (stack_of made.old.items) (part_of part.entry)) }
{
    match part {
        Part::Whole(expression) => put_whole(made, expression),
        Part::Any(held) => put_any(alloc, made, held),
        Part::Elements(element, count) => put_elements(alloc, made, element, count),
        Part::Members(name, count) => put_members(made, name, count),
        Part::Operation(operation) => put_operation(alloc, made, operation),
    }
}

fn put_whole(made: &mut Vec<Expression>, expression: Expression) -> Result<(), NoMemory>
    ensures { OnOk result (stack_of made.new.items ≡ put_part (stack_of made.old.items) (plain.whole (expression_of expression))) }
{
    made.push(expression)?;
    Ok(())
}

fn put_any(alloc: Global, made: &mut Vec<Expression>, held: &TypeName) -> Result<(), NoMemory>
    requires { 1 ≤ length made.old.items }
    ensures { OnOk result (stack_of made.new.items ≡ put_part (stack_of made.old.items) (plain.any (kind_of held.now))) }
{
    let Some(content) = made.pop() else {
        unreachable!()
    };
    let any = any_of(alloc, held, content)?;
    made.push(any)?;
    Ok(())
}

fn put_elements(
    alloc: Global,
    made: &mut Vec<Expression>,
    element: &TypeName,
    count: usize,
) -> Result<(), NoMemory>
    requires { count ≤ length made.old.items }
    ensures { OnOk result (stack_of made.new.items ≡ put_part (stack_of made.old.items) (plain.elements (kind_of element.now) count)) }
{
    let all = take_last(made, count)?;
    let sequence = sequence_of(alloc, element, all)?;
    made.push(sequence)?;
    Ok(())
}

fn put_members(made: &mut Vec<Expression>, name: &Name, count: usize) -> Result<(), NoMemory>
    requires { count ≤ length made.old.items }
    ensures { OnOk result (stack_of made.new.items ≡ put_part (stack_of made.old.items) (plain.members name.now count)) }
{
    let all = take_last(made, count)?;
    let tuple = tuple_of(name, all)?;
    made.push(tuple)?;
    Ok(())
}

fn put_operation(
    alloc: Global,
    made: &mut Vec<Expression>,
    operation: Operation,
) -> Result<(), NoMemory>
    requires { 2 ≤ length made.old.items }
    ensures { OnOk result (stack_of made.new.items ≡ put_part (stack_of made.old.items) (plain.operation operation)) }
{
    let Some(right) = made.pop() else {
        unreachable!()
    };
    let Some(left) = made.pop() else {
        unreachable!()
    };
    let whole = operation_of(alloc, operation, left, right)?;
    made.push(whole)?;
    Ok(())
}

/// Takes the last expressions, so many, in their order.
fn take_last(made: &mut Vec<Expression>, count: usize) -> Result<Vec<Expression>, NoMemory>
    requires { count ≤ length made.old.items }
    ensures all { IfOk result (λ all. all.items ≡ reverse (take count (reverse made.old.items))) }
    ensures rest { OnOk result (reverse made.new.items ≡ drop count (reverse made.old.items)) }
{
    let all = made.split_off(made.len() - count)?;
    Ok(all)
}

fn any_of(alloc: Global, held: &TypeName, content: Expression) -> Result<Expression, NoMemory>
    ensures { IfOk result (λ x. expression_of x ≡ e.any (kind_of held.now) (expression_of content)) }
{
    let content = Box::new(alloc, content)?;
    let held = held.copy(alloc)?;
    Ok(Expression::Any(held, content))
}

/// The elements of a sequence of byte are told apart.
fn sequence_of(
    alloc: Global,
    element: &TypeName,
    all: Vec<Expression>,
) -> Result<Expression, NoMemory>
    ensures { IfOk result (λ x. expression_of x ≡ sequence_in (kind_of element.now) (expressions_of all.items)) }
{
    if let TypeName::Byte = element {
        return Ok(Expression::Bytes(all));
    }
    let element = element.copy(alloc)?;
    Ok(Expression::List(element, all))
}

fn tuple_of(name: &Name, all: Vec<Expression>) -> Result<Expression, NoMemory>
    ensures { IfOk result (λ x. expression_of x ≡ e.tuple name.now (expressions_of all.items)) }
{
    let name = name.copy()?;
    Ok(Expression::Tuple(name, all))
}

/// A sum or a difference of two expressions.
fn operation_of(
    alloc: Global,
    operation: Operation,
    left: Expression,
    right: Expression,
) -> Result<Expression, NoMemory>
    ensures { IfOk result (λ x. expression_of x ≡ e.operation operation (expression_of left) (expression_of right)) }
{
    match Box::new(alloc, left) {
        Ok(left) => operation_before(alloc, operation, left, right),
        Err(failed) => {
            drop(failed);
            drop(right);
            Err(NoMemory)
        }
    }
}

fn operation_before(
    alloc: Global,
    operation: Operation,
    left: Box<Expression>,
    right: Expression,
) -> Result<Expression, NoMemory>
    ensures { IfOk result (λ x. expression_of x ≡ e.operation operation (expression_of left.value) (expression_of right)) }
{
    match Box::new(alloc, right) {
        Ok(right) => Ok(Expression::Operation(operation, left, right)),
        Err(failed) => {
            drop(failed);
            drop(left);
            Err(NoMemory)
        }
    }
}
