//! What operators make of values.
ghost use Rattle.std.specs.Int.{w128, int_shr};
ghost use Rattle.std.specs.Prelude.{◌≡◌, ◌<◌, ◌^◌, pos, ◌+ℤ◌, ◌-ℤ◌, ◌*ℤ◌, neg_ℤ, int_div, int_rem, Ok, map};
ghost use Rattle.idl_const.specs.Evaluating.{Gives, places_of};
ghost use Rattle.idl_model.specs.Values as model;
ghost use Rattle.idl_trees.specs.Expressions.{operator_of, sign_of};

use crate::ConstError;
use idl_trees::{Operator, Sign};

/// How far a value is shifted at most.
const MOST_SHIFTED: u32 = 63;

/// An operator between two values. Bits are those of two's complement, and a shift to the right goes downwards.
#[tactic(auto, unfolding(idl_model::specs::Values::apply))]
pub(crate) fn apply(operator: Operator, left: i128, right: i128) -> Result<i128, ConstError>
    ensures { Gives result (model.apply (operator_of operator) left right) }
{
    match operator {
        Operator::BitOr => Ok(left | right),
        Operator::BitXor => Ok(left ^ right),
        Operator::BitAnd => Ok(left & right),
        Operator::ShiftLeft => shifted_left(left, right),
        Operator::ShiftRight => shifted_right(left, right),
        Operator::Plus => sum(left, right),
        Operator::Minus => difference(left, right),
        Operator::Times => product(left, right),
        Operator::DividedBy => divided(left, right),
        Operator::Remainder => remainder(left, right),
    }
}

/// Signs before an operand, the last of them first.
pub(crate) fn signed(signs: &[Sign], operand: i128) -> Result<i128, ConstError>
    ensures { Gives result (model.signs_applied (map sign_of signs.now) operand) }
{
    let mut value = operand;
    let mut left = signs;
    while let Some((last, before)) = left.split_last() {
        value = sign_applied(*last, value)?;
        left = before;
    }
    Ok(value)
}

#[tactic(auto, unfolding(idl_model::specs::Values::sign_applied))]
fn sign_applied(sign: Sign, value: i128) -> Result<i128, ConstError>
    ensures { Gives result (model.sign_applied (sign_of sign) value) }
{
    match sign {
        Sign::Positive => Ok(value),
        Sign::Negative => negated(value),
        Sign::Complement => Ok(!value),
    }
}

fn negated(value: i128) -> Result<i128, ConstError>
    ensures { Gives result (model.ranged (neg_ℤ value)) }
{
    let Some(value) = value.checked_neg() else {
        return Err(ConstError::Range);
    };
    Ok(value)
}

fn sum(left: i128, right: i128) -> Result<i128, ConstError>
    ensures { Gives result (model.ranged (left +ℤ right)) }
{
    let Some(value) = left.checked_add(right) else {
        return Err(ConstError::Range);
    };
    Ok(value)
}

fn difference(left: i128, right: i128) -> Result<i128, ConstError>
    ensures { Gives result (model.ranged (left -ℤ right)) }
{
    let Some(value) = left.checked_sub(right) else {
        return Err(ConstError::Range);
    };
    Ok(value)
}

fn product(left: i128, right: i128) -> Result<i128, ConstError>
    ensures { Gives result (model.ranged (left *ℤ right)) }
{
    let Some(value) = left.checked_mul(right) else {
        return Err(ConstError::Range);
    };
    Ok(value)
}

fn shifted_left(value: i128, count: i128) -> Result<i128, ConstError>
    ensures { Gives result (model.shifted (λ z n. model.ranged (z *ℤ pos (2 ^ n))) value count) }
{
    let Some(count) = shift(count) else {
        return Err(ConstError::Range);
    };
    product(value, power(count))
}

fn shifted_right(value: i128, count: i128) -> Result<i128, ConstError>
    ensures { Gives result (model.shifted (λ z n. Ok (int_shr z n)) value count) }
{
    let Some(count) = shift(count) else {
        return Err(ConstError::Range);
    };
    Ok(value >> count)
}

/// By how many places a shift goes: its count is judged before its value.
fn shift(count: i128) -> Option<u32>
    ensures { result ≡ places_of count }
{
    if count < 0 || count > MOST_SHIFTED as i128 {
        return None;
    }
    Some(count as u32)
}

/// 2 to the power of so many.
fn power(count: u32) -> i128
    requires { count < 64 }
    ensures { result ≡ pos (2 ^ count) }
{
    1i128 << count
}

/// Towards zero.
fn divided(dividend: i128, divisor: i128) -> Result<i128, ConstError>
    ensures { Gives result (model.divided (λ a b. model.ranged (int_div a b)) dividend divisor) }
{
    if divisor == 0 {
        return Err(ConstError::ZeroDivisor);
    }
    let Some(value) = dividend.checked_div(divisor) else {
        return Err(ConstError::Range);
    };
    Ok(value)
}

/// With the sign of the dividend; it is 0 also where the quotient has no 128 bits.
fn remainder(dividend: i128, divisor: i128) -> Result<i128, ConstError>
    ensures { Gives result (model.divided (λ a b. Ok (int_rem a b)) dividend divisor) }
{
    if divisor == 0 {
        return Err(ConstError::ZeroDivisor);
    }
    Ok(dividend.wrapping_rem(divisor))
}
