//! The value of an expression.
ghost use Rattle.std.specs.Prelude.{◌≡◌, IfOk, map, option_map};
ghost use Rattle.plan_model.specs.Evaluation.{value_of, values_of, both_values, operated, bytes_of, byte_of, evaluated, bounded};
ghost use Rattle.plan_types.specs.Expressions.{expression_of, expressions_of};
ghost use Rattle.uno_model.specs.Values as plain;
ghost use Rattle.uno_entities.specs.TypeNames.{kind_of};
ghost use Rattle.uno_values.specs.Values.{plain_of, plains_of};
ghost use Rattle.behaviour.specs.Answers.{value_unless};
ghost use Rattle.behaviour.specs.Running.{scene_of, outcome_of};

use crate::limits::{is_deep, is_heavy};
use crate::operation::operated;
use crate::running::Scene;
use crate::values::push_value;
use crate::words::value_of_word;
use plan_types::{Expression, Operation, RuntimeCause};
use std::alloc::Global;
use uno_base::NoMemory;
use uno_types::{Name, Registry, TypeName};
use uno_values::{AnyValue, Value, depth_of, weight};

/// The value of an expression, where each operation in it has a result.
#[cycle(value)]
#[tactic(auto, unfolding(plan_model::specs::Evaluation::value_of, plan_model::specs::Evaluation::values_of))]
pub(crate) fn value_of(
    expression: &Expression,
    alloc: Global,
    scene: Scene,
) -> Result<Option<Value>, NoMemory>
    ensures { IfOk result (λ x. option_map plain_of x ≡ value_of (scene_of scene.entry) (expression_of expression.now)) }
{
    match expression {
        Expression::Constant(value) => Ok(Some(value.copy(alloc)?)),
        Expression::Word(word) => Ok(Some(value_of_word(alloc, scene, word)?)),
        Expression::Operation(operation, left, right) => {
            value_behind(
                right,
                *operation,
                value_of(left, alloc, scene)?,
                alloc,
                scene,
            )
        }
        Expression::Any(kind, held) => value_of_any(held, kind, alloc, scene),
        Expression::Tuple(name, members) => value_of_tuple(members, name, alloc, scene),
        Expression::List(kind, elements) => value_of_list(elements, kind, alloc, scene),
        Expression::Bytes(elements) => value_of_bytes(elements, alloc, scene),
    }
}

/// The result of an operation on a value and that of an expression.
#[cycle(value)]
fn value_behind(
    right: &Expression,
    operation: Operation,
    left: Option<Value>,
    alloc: Global,
    scene: Scene,
) -> Result<Option<Value>, NoMemory>
    ensures { IfOk result (λ x. option_map plain_of x ≡ both_values (option_map plain_of left) (value_of (scene_of scene.entry) (expression_of right.now)) (operated operation)) }
{
    let Ok(right) = value_of(right, alloc, scene) else {
        drop(left);
        return Err(NoMemory);
    };
    let result = both_operated(operation, &left, &right);
    drop(left);
    drop(right);
    Ok(result)
}

/// An any of the value of an expression.
#[cycle(value)]
fn value_of_any(
    held: &Expression,
    kind: &TypeName,
    alloc: Global,
    scene: Scene,
) -> Result<Option<Value>, NoMemory>
    ensures { IfOk result (λ x. option_map plain_of x ≡ option_map (plain.any (kind_of kind.now)) (value_of (scene_of scene.entry) (expression_of held.now))) }
{
    any_of(alloc, kind, value_of(held, alloc, scene)?)
}

/// The struct or the exception of the values of its members.
#[cycle(value)]
fn value_of_tuple(
    members: &[Expression],
    name: &Name,
    alloc: Global,
    scene: Scene,
) -> Result<Option<Value>, NoMemory>
    ensures { IfOk result (λ x. option_map plain_of x ≡ option_map (plain.tuple name.now) (values_of (scene_of scene.entry) (expressions_of members.now))) }
{
    tuple_of(name, values_of(members, alloc, scene)?)
}

/// The sequence of the values of its elements.
#[cycle(value)]
fn value_of_list(
    elements: &[Expression],
    kind: &TypeName,
    alloc: Global,
    scene: Scene,
) -> Result<Option<Value>, NoMemory>
    ensures { IfOk result (λ x. option_map plain_of x ≡ option_map (plain.list (kind_of kind.now)) (values_of (scene_of scene.entry) (expressions_of elements.now))) }
{
    list_of(alloc, kind, values_of(elements, alloc, scene)?)
}

/// The sequence of bytes whose elements have these values.
#[cycle(value)]
fn value_of_bytes(
    elements: &[Expression],
    alloc: Global,
    scene: Scene,
) -> Result<Option<Value>, NoMemory>
    ensures { IfOk result (λ x. option_map plain_of x ≡ option_map (λ xs. plain.bytes (bytes_of xs)) (values_of (scene_of scene.entry) (expressions_of elements.now))) }
{
    bytes_of(alloc, values_of(elements, alloc, scene)?)
}

/// The values of expressions, in their order.
#[cycle(value)]
#[tactic(auto, unfolding(plan_model::specs::Evaluation::value_of, plan_model::specs::Evaluation::values_of))]
fn values_of(
    expressions: &[Expression],
    alloc: Global,
    scene: Scene,
) -> Result<Option<Vec<Value>>, NoMemory>
    ensures { IfOk result (λ xs. option_map (λ vs. plains_of vs.items) xs ≡ values_of (scene_of scene.entry) (expressions_of expressions.now)) }
{
    let mut values = Vec::new(alloc);
    for expression in expressions {
        let Ok(value) = value_of(expression, alloc, scene) else {
            drop(values);
            return Err(NoMemory);
        };
        let Some(value) = value else {
            drop(values);
            return Ok(None);
        };
        if let Err(error) = push_value(&mut values, value) {
            drop(values);
            return Err(error);
        }
    }
    Ok(Some(values))
}

/// The result of an operation, where both numbers are there.
fn both_operated(operation: Operation, left: &Option<Value>, right: &Option<Value>) -> Option<Value>
    ensures { option_map plain_of result ≡ both_values (option_map plain_of left.now) (option_map plain_of right.now) (operated operation) }
{
    let Some(left) = left else {
        return None;
    };
    let Some(right) = right else {
        return None;
    };
    operated(operation, left, right)
}

/// An any of what is there.
fn any_of(alloc: Global, kind: &TypeName, held: Option<Value>) -> Result<Option<Value>, NoMemory>
    ensures { IfOk result (λ x. option_map plain_of x ≡ option_map (plain.any (kind_of kind.now)) (option_map plain_of held)) }
{
    let Some(value) = held else {
        return Ok(None);
    };
    let Ok(kind) = kind.copy(alloc) else {
        drop(value);
        return Err(NoMemory);
    };
    let any = Box::new(alloc, AnyValue { kind, value })?;
    Ok(Some(Value::Any(any)))
}

/// The struct or the exception of this name, where all members are there.
fn tuple_of(name: &Name, members: Option<Vec<Value>>) -> Result<Option<Value>, NoMemory>
    ensures { IfOk result (λ x. option_map plain_of x ≡ option_map (plain.tuple name.now) (option_map (λ vs. plains_of vs.items) members)) }
{
    let Some(members) = members else {
        return Ok(None);
    };
    let Ok(name) = name.copy() else {
        drop(members);
        return Err(NoMemory);
    };
    Ok(Some(Value::Tuple(name, members)))
}

/// The sequence of elements of this type, where all are there.
fn list_of(
    alloc: Global,
    kind: &TypeName,
    elements: Option<Vec<Value>>,
) -> Result<Option<Value>, NoMemory>
    ensures { IfOk result (λ x. option_map plain_of x ≡ option_map (plain.list (kind_of kind.now)) (option_map (λ vs. plains_of vs.items) elements)) }
{
    let Some(elements) = elements else {
        return Ok(None);
    };
    let Ok(kind) = kind.copy(alloc) else {
        drop(elements);
        return Err(NoMemory);
    };
    Ok(Some(Value::List(kind, elements)))
}

/// The sequence of bytes, where all elements are there.
fn bytes_of(alloc: Global, elements: Option<Vec<Value>>) -> Result<Option<Value>, NoMemory>
    ensures { IfOk result (λ x. option_map plain_of x ≡ option_map (λ xs. plain.bytes (bytes_of xs)) (option_map (λ vs. plains_of vs.items) elements)) }
{
    let Some(elements) = elements else {
        return Ok(None);
    };
    let bytes = bytes_in(alloc, &elements);
    drop(elements);
    Ok(Some(Value::Bytes(bytes?)))
}

/// The byte of each value.
fn bytes_in(alloc: Global, values: &[Value]) -> Result<Vec<u8>, NoMemory>
    ensures { IfOk result (λ bytes. bytes.items ≡ bytes_of (plains_of values.now)) }
{
    let mut bytes = Vec::new(alloc);
    for value in values {
        bytes.push(byte_of(value))?;
    }
    Ok(bytes)
}

/// The bits of a byte.
fn byte_of(value: &Value) -> u8
    ensures { result ≡ byte_of (plain_of value.now) }
{
    match value {
        Value::Byte(number) => number.cast_unsigned(),
        _ => 0,
    }
}

/// The value of a whole expression, or why there is none, in the order in which this is tried.
#[tactic(auto, unfolding(plan_model::specs::Evaluation::evaluated))]
pub(crate) fn evaluated(
    alloc: Global,
    registry: &Registry,
    scene: Scene,
    expression: &Expression,
) -> Result<Result<Value, RuntimeCause>, NoMemory>
    ensures { IfOk result (λ x. outcome_of x ≡ evaluated (scene_of scene.entry) (expression_of expression.now)) }
{
    match value_of(expression, alloc, scene)? {
        Some(value) => Ok(bounded(registry, value)),
        None => Ok(Err(RuntimeCause::Range)),
    }
}

/// The value, where it is neither too heavy nor nested too deep.
fn bounded(registry: &Registry, value: Value) -> Result<Value, RuntimeCause>
    ensures { outcome_of result ≡ bounded (plain_of value) }
{
    if let Some(cause) = excess(registry, &value) {
        drop(value);
        return Err(cause);
    }
    Ok(value)
}

/// Why a value is too large.
fn excess(registry: &Registry, value: &Value) -> Option<RuntimeCause>
    ensures { bounded (plain_of value.now) ≡ value_unless result (plain_of value.now) }
{
    if is_heavy(weight(registry, value)) {
        return Some(RuntimeCause::TooLarge);
    }
    if is_deep(depth_of(value)) {
        return Some(RuntimeCause::TooDeep);
    }
    None
}
