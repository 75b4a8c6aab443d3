//! Sums and differences of numbers of one whole type.
ghost use Rattle.std.specs.Prelude.{◌≡◌, pos, option_map};
ghost use Rattle.plan_model.specs.Evaluation.{combined, operated};
ghost use Rattle.uno_model.specs.Values as plain;
ghost use Rattle.uno_values.specs.Values.{plain_of};

use plan_types::Operation;
use uno_values::Value;

/// The result of an operation on two numbers of one whole type, where it is one of that type.
pub(crate) fn operated(operation: Operation, left: &Value, right: &Value) -> Option<Value>
    ensures { option_map plain_of result ≡ operated operation (plain_of left.now) (plain_of right.now) }
{
    match left {
        Value::Byte(left) => byte(operation, *left, right),
        Value::Short(left) => short(operation, *left, right),
        Value::UnsignedShort(left) => unsigned_short(operation, *left, right),
        Value::Long(left) => long(operation, *left, right),
        Value::UnsignedLong(left) => unsigned_long(operation, *left, right),
        Value::Hyper(left) => hyper(operation, *left, right),
        Value::UnsignedHyper(left) => unsigned_hyper(operation, *left, right),
        _ => None,
    }
}

/// The sum or the difference.
fn combined(operation: Operation, left: i64, right: i64) -> i128
    ensures { result ≡ combined operation left right }
{
    match operation {
        Operation::Add => left as i128 + right as i128,
        Operation::Sub => left as i128 - right as i128,
    }
}

/// The same of numbers without a sign.
fn combined_unsigned(operation: Operation, first: u64, second: u64) -> i128
    ensures { result ≡ combined operation (pos first) (pos second) }
{
    match operation {
        Operation::Add => first as i128 + second as i128,
        Operation::Sub => first as i128 - second as i128,
    }
}

fn byte(operation: Operation, left: i8, right: &Value) -> Option<Value>
    ensures { option_map plain_of result ≡ operated operation (plain.byte left) (plain_of right.now) }
{
    let Value::Byte(right) = right else {
        return None;
    };
    let number = combined(operation, left as i64, *right as i64);
    let Ok(number) = i8::try_from(number) else {
        return None;
    };
    Some(Value::Byte(number))
}

fn short(operation: Operation, left: i16, right: &Value) -> Option<Value>
    ensures { option_map plain_of result ≡ operated operation (plain.short left) (plain_of right.now) }
{
    let Value::Short(right) = right else {
        return None;
    };
    let number = combined(operation, left as i64, *right as i64);
    let Ok(number) = i16::try_from(number) else {
        return None;
    };
    Some(Value::Short(number))
}

fn unsigned_short(operation: Operation, left: u16, right: &Value) -> Option<Value>
    ensures { option_map plain_of result ≡ operated operation (plain.unsigned_short left) (plain_of right.now) }
{
    let Value::UnsignedShort(right) = right else {
        return None;
    };
    let number = combined_unsigned(operation, left as u64, *right as u64);
    let Ok(number) = u16::try_from(number) else {
        return None;
    };
    Some(Value::UnsignedShort(number))
}

fn long(operation: Operation, left: i32, right: &Value) -> Option<Value>
    ensures { option_map plain_of result ≡ operated operation (plain.long left) (plain_of right.now) }
{
    let Value::Long(right) = right else {
        return None;
    };
    let number = combined(operation, left as i64, *right as i64);
    let Ok(number) = i32::try_from(number) else {
        return None;
    };
    Some(Value::Long(number))
}

fn unsigned_long(operation: Operation, left: u32, right: &Value) -> Option<Value>
    ensures { option_map plain_of result ≡ operated operation (plain.unsigned_long left) (plain_of right.now) }
{
    let Value::UnsignedLong(right) = right else {
        return None;
    };
    let number = combined_unsigned(operation, left as u64, *right as u64);
    let Ok(number) = u32::try_from(number) else {
        return None;
    };
    Some(Value::UnsignedLong(number))
}

fn hyper(operation: Operation, left: i64, right: &Value) -> Option<Value>
    ensures { option_map plain_of result ≡ operated operation (plain.hyper left) (plain_of right.now) }
{
    let Value::Hyper(right) = right else {
        return None;
    };
    let number = combined(operation, left, *right);
    let Ok(number) = i64::try_from(number) else {
        return None;
    };
    Some(Value::Hyper(number))
}

fn unsigned_hyper(operation: Operation, left: u64, right: &Value) -> Option<Value>
    ensures { option_map plain_of result ≡ operated operation (plain.unsigned_hyper left) (plain_of right.now) }
{
    let Value::UnsignedHyper(right) = right else {
        return None;
    };
    let number = combined_unsigned(operation, left, *right);
    let Ok(number) = u64::try_from(number) else {
        return None;
    };
    Some(Value::UnsignedHyper(number))
}
