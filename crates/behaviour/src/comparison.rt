//! How values compare.
ghost use Rattle.std.specs.Prelude.{◌≡◌, MatchOption, false};
ghost use Rattle.plan_model.specs.Evaluation.{same_value, same_values, same_object, identity_of, number_of, less_number, compares};
ghost use Rattle.uno_model.specs.Codes.{same_kind};
ghost use Rattle.uno_model.specs.Values.{Plains};
ghost use Rattle.uno_model.specs.Values as plain;
ghost use Rattle.uno_entities.specs.TypeNames.{kind_of};
ghost use Rattle.uno_values.specs.References.{ref_of};
ghost use Rattle.uno_values.specs.Values.{plain_of, plains_of};

use plan_types::Comparison;
use uno_types::{Name, Text, TypeName};
use uno_values::{AnyValue, Reference, Value};

/// Whether two values compare as a test asks.
pub(crate) fn compares(comparison: Comparison, left: &Value, right: &Value) -> bool
    ensures { result ≡ compares comparison (plain_of left.now) (plain_of right.now) }
{
    match comparison {
        Comparison::Equal => same_value(left, right),
        Comparison::Less => less_number(number_of(left), number_of(right)),
    }
}

/// Whether both are numbers, and the first is less.
pub(crate) fn less_number(left: Option<i128>, right: Option<i128>) -> bool
    ensures { result ≡ less_number left right }
{
    let Some(left) = left else {
        return false;
    };
    let Some(right) = right else {
        return false;
    };
    left < right
}

/// The number that a value of a whole type is.
pub(crate) fn number_of(value: &Value) -> Option<i128>
    ensures { result ≡ number_of (plain_of value.now) }
{
    match value {
        Value::Byte(number) => Some(*number as i128),
        Value::Short(number) => Some(*number as i128),
        Value::UnsignedShort(number) => Some(*number as i128),
        Value::Long(number) => Some(*number as i128),
        Value::UnsignedLong(number) => Some(*number as i128),
        Value::Hyper(number) => Some(*number as i128),
        Value::UnsignedHyper(number) => Some(*number as i128),
        _ => None,
    }
}

/// Whether two values are equal: anys where types and values are, structs and sequences part by part, references where they are of one object.
#[cycle(same)]
#[tactic(auto, unfolding(plan_model::specs::Evaluation::same_value, plan_model::specs::Evaluation::same_values))]
pub fn same_value(left: &Value, right: &Value) -> bool
    ensures { result ≡ same_value (plain_of left.now) (plain_of right.now) }
{
    match left {
        Value::Any(any) => same_any(any, right),
        Value::Tuple(name, members) => same_tuple(name, members, right),
        Value::List(kind, elements) => {
            let Some(others) = elements_of(kind, right) else {
                return false;
            };
            same_values(elements, others)
        }
        Value::Void => matches!(right, Value::Void),
        Value::Char(unit) => same_char(*unit, right),
        Value::Boolean(truth) => same_boolean(*truth, right),
        Value::Byte(number) => same_byte(*number, right),
        Value::Short(number) => same_short(*number, right),
        Value::UnsignedShort(number) => same_unsigned_short(*number, right),
        Value::Long(number) => same_long(*number, right),
        Value::UnsignedLong(number) => same_unsigned_long(*number, right),
        Value::Hyper(number) => same_hyper(*number, right),
        Value::UnsignedHyper(number) => same_unsigned_hyper(*number, right),
        Value::Str(text) => same_text(text, right),
        Value::Kind(kind) => same_type(kind, right),
        Value::Enum(name, number) => same_item(name, *number, right),
        Value::Bytes(bytes) => same_bytes(bytes, right),
        Value::Ref(reference) => same_reference(reference, right),
    }
}

/// Equal types, and in them equal values.
#[cycle(same)]
#[tactic(auto, unfolding(plan_model::specs::Evaluation::same_value, plan_model::specs::Evaluation::same_values))]
fn same_any(left: &AnyValue, right: &Value) -> bool
    ensures { result ≡ same_value (plain.any (kind_of left.now.kind) (plain_of left.now.value)) (plain_of right.now) }
{
    let Value::Any(right) = right else {
        return false;
    };
    if !same_kind(&left.kind, &right.kind) {
        return false;
    }
    same_value(&left.value, &right.value)
}

/// Structs or exceptions of one name, member by member.
#[cycle(same)]
#[tactic(auto, unfolding(plan_model::specs::Evaluation::same_value, plan_model::specs::Evaluation::same_values))]
fn same_tuple(name: &Name, left: &[Value], right: &Value) -> bool
    ensures { result ≡ same_value (plain.tuple name.now (plains_of left.now)) (plain_of right.now) }
{
    let Value::Tuple(other, right) = right else {
        return false;
    };
    if name.as_str() != other.as_str() {
        return false;
    }
    same_values(left, right)
}

/// The elements of a sequence whose elements have this type, and none of another value.
#[tactic(auto, unfolding(plan_model::specs::Evaluation::same_value))]
fn elements_of<'a>(kind: &TypeName, right: &'a Value) -> Option<&'a [Value]>
    ensures { MatchOption result ((xs : Plains) → same_value (plain.list (kind_of kind.now) xs) (plain_of right.now) ≡ false) (λ ws. (xs : Plains) → same_value (plain.list (kind_of kind.now) xs) (plain_of right.now) ≡ same_values xs (plains_of ws.now)) }
{
    let Value::List(other, right) = right else {
        return None;
    };
    if !same_kind(kind, other) {
        return None;
    }
    Some(right.as_slice())
}

/// As many values, each equal to the other at its place.
#[cycle(same)]
#[tactic(auto, unfolding(plan_model::specs::Evaluation::same_value, plan_model::specs::Evaluation::same_values))]
fn same_values(left: &[Value], right: &[Value]) -> bool
    ensures { result ≡ same_values (plains_of left.now) (plains_of right.now) }
{
    if left.len() != right.len() {
        return false;
    }
    let mut place = 0;
    for value in left {
        if !same_value(value, &right[place]) {
            return false;
        }
        place += 1;
    }
    true
}

fn same_kind(left: &TypeName, right: &TypeName) -> bool
    ensures { result ≡ same_kind (kind_of left.now) (kind_of right.now) }
{
    left.is(right)
}

#[tactic(auto, unfolding(plan_model::specs::Evaluation::same_value))]
fn same_char(left: u16, right: &Value) -> bool
    ensures { result ≡ same_value (plain.char left) (plain_of right.now) }
{
    let Value::Char(right) = right else {
        return false;
    };
    left == *right
}

#[tactic(auto, unfolding(plan_model::specs::Evaluation::same_value))]
fn same_boolean(left: bool, right: &Value) -> bool
    ensures { result ≡ same_value (plain.boolean left) (plain_of right.now) }
{
    let Value::Boolean(right) = right else {
        return false;
    };
    left == *right
}

#[tactic(auto, unfolding(plan_model::specs::Evaluation::same_value))]
fn same_byte(left: i8, right: &Value) -> bool
    ensures { result ≡ same_value (plain.byte left) (plain_of right.now) }
{
    let Value::Byte(right) = right else {
        return false;
    };
    left == *right
}

#[tactic(auto, unfolding(plan_model::specs::Evaluation::same_value))]
fn same_short(left: i16, right: &Value) -> bool
    ensures { result ≡ same_value (plain.short left) (plain_of right.now) }
{
    let Value::Short(right) = right else {
        return false;
    };
    left == *right
}

#[tactic(auto, unfolding(plan_model::specs::Evaluation::same_value))]
fn same_unsigned_short(left: u16, right: &Value) -> bool
    ensures { result ≡ same_value (plain.unsigned_short left) (plain_of right.now) }
{
    let Value::UnsignedShort(right) = right else {
        return false;
    };
    left == *right
}

#[tactic(auto, unfolding(plan_model::specs::Evaluation::same_value))]
fn same_long(left: i32, right: &Value) -> bool
    ensures { result ≡ same_value (plain.long left) (plain_of right.now) }
{
    let Value::Long(right) = right else {
        return false;
    };
    left == *right
}

#[tactic(auto, unfolding(plan_model::specs::Evaluation::same_value))]
fn same_unsigned_long(left: u32, right: &Value) -> bool
    ensures { result ≡ same_value (plain.unsigned_long left) (plain_of right.now) }
{
    let Value::UnsignedLong(right) = right else {
        return false;
    };
    left == *right
}

#[tactic(auto, unfolding(plan_model::specs::Evaluation::same_value))]
fn same_hyper(left: i64, right: &Value) -> bool
    ensures { result ≡ same_value (plain.hyper left) (plain_of right.now) }
{
    let Value::Hyper(right) = right else {
        return false;
    };
    left == *right
}

#[tactic(auto, unfolding(plan_model::specs::Evaluation::same_value))]
fn same_unsigned_hyper(left: u64, right: &Value) -> bool
    ensures { result ≡ same_value (plain.unsigned_hyper left) (plain_of right.now) }
{
    let Value::UnsignedHyper(right) = right else {
        return false;
    };
    left == *right
}

#[tactic(auto, unfolding(plan_model::specs::Evaluation::same_value))]
fn same_text(left: &Text, right: &Value) -> bool
    ensures { result ≡ same_value (plain.str left.now) (plain_of right.now) }
{
    let Value::Str(right) = right else {
        return false;
    };
    left.as_str() == right.as_str()
}

#[tactic(auto, unfolding(plan_model::specs::Evaluation::same_value))]
fn same_type(left: &TypeName, right: &Value) -> bool
    ensures { result ≡ same_value (plain.kind (kind_of left.now)) (plain_of right.now) }
{
    let Value::Kind(right) = right else {
        return false;
    };
    same_kind(left, right)
}

#[tactic(auto, unfolding(plan_model::specs::Evaluation::same_value))]
fn same_item(name: &Name, left: i32, right: &Value) -> bool
    ensures { result ≡ same_value (plain.enum name.now left) (plain_of right.now) }
{
    let Value::Enum(other, right) = right else {
        return false;
    };
    if name.as_str() != other.as_str() {
        return false;
    }
    left == *right
}

#[tactic(auto, unfolding(plan_model::specs::Evaluation::same_value))]
fn same_bytes(left: &[u8], right: &Value) -> bool
    ensures { result ≡ same_value (plain.bytes left.now) (plain_of right.now) }
{
    let Value::Bytes(right) = right else {
        return false;
    };
    left == right.as_slice()
}

#[tactic(auto, unfolding(plan_model::specs::Evaluation::same_value))]
fn same_reference(left: &Reference, right: &Value) -> bool
    ensures { result ≡ same_value (plain.ref (ref_of left.now)) (plain_of right.now) }
{
    let Value::Ref(right) = right else {
        return false;
    };
    identity_of(left) == identity_of(right)
}

/// The identity of an object; null has none.
pub(crate) fn identity_of(reference: &Reference) -> &str
    ensures { result.now ≡ identity_of (ref_of reference.now) }
{
    match reference {
        Reference::Null => "",
        Reference::Local { oid, face: _ } | Reference::Remote { oid, face: _ } => oid.as_str(),
    }
}
