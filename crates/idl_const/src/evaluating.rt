//! The value of an expression, or its first refusal from left to right.
ghost use Rattle.idl_const.specs.Evaluating.{Gives, stepped};
ghost use Rattle.idl_model.specs.Values as model;
ghost use Rattle.idl_trees.specs.Expressions.{expr_of, operand_of, operands_of};
ghost use Rattle.idl_trees.specs.Names.{path_of};

use crate::apply::{apply, signed};
use crate::{ConstError, Values};
use idl_trees::{Expr, Operand, Path};

/// The value of an expression where names have these values. Operands are worked out from left to right, and each operator behind its
/// operands.
#[cycle(value)]
#[tactic(auto, unfolding(idl_model::specs::Values::value))]
pub fn evaluate<V: Values>(expr: &Expr, names: &V) -> Result<i128, ConstError>
    ensures { Gives result (model.value (V.value_known names.now) (expr_of expr.now)) }
{
    match expr {
        Expr::Number(number) => Ok(i128::from(*number)),
        Expr::Truth(truth) => Ok(i128::from(*truth)),
        Expr::Constant(path) => known(path, names),
        Expr::Parentheses(inner) => evaluate(inner, names),
        Expr::Signed(signs, operand) => signed(signs.as_slice(), evaluate(operand, names)?),
        Expr::Chain(first, operands) => chain(evaluate(first, names)?, operands.as_slice(), names),
    }
}

/// What is worked out so far, and the operands that are left of a chain.
#[cycle(value)]
fn chain<V: Values>(first: i128, operands: &[Operand], names: &V) -> Result<i128, ConstError>
    ensures { Gives result (model.values (V.value_known names.now) first (operands_of operands.now)) }
{
    let mut value = first;
    for operand in operands {
        value = step(value, operand, names)?;
    }
    Ok(value)
}

/// What is worked out so far, with the operand behind it.
#[cycle(value)]
fn step<V: Values>(value: i128, operand: &Operand, names: &V) -> Result<i128, ConstError>
    ensures { Gives result (stepped (V.value_known names.now) value (operand_of operand.now)) }
{
    let right = evaluate(&operand.value, names)?;
    apply(operand.operator, value, right)
}

fn known<V: Values>(path: &Path, names: &V) -> Result<i128, ConstError>
    ensures { Gives result (model.known (V.value_known names.now (path_of path.now))) }
{
    let Some(value) = names.value(path) else {
        return Err(ConstError::UnknownName);
    };
    Ok(value)
}
