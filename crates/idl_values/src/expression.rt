//! The values that names have in expressions.
ghost use Rattle.std.specs.Prelude.{◌≡◌};
ghost use Rattle.std.specs.Result.{result_ok};
ghost use Rattle.idl_model.specs.Values.{value};
ghost use Rattle.idl_trees.specs.Expressions.{expr_of};
ghost use Rattle.idl_values.specs.Known.{value_by};
ghost use Rattle.idl_values.specs.Places.{known_by};
ghost use Rattle.idl_values.specs.Told.{number_at};

use crate::told::{Told, known};
use idl_const::{Values, evaluate};
use idl_trees::{Expr, Path};

/// What is told of names, their places, and the values at these.
#[derive(Drop)]
struct Known<'b> {
    told: &'b Told,
    table: &'b [Option<u32>],
    values: &'b [Option<i128>],
}

impl<'b> Values for Known<'b> {
    ghost use Rattle.idl_values.specs.Known.{value_by};
    ghost use Rattle.idl_values.specs.Places.{known_by};
    ghost use Rattle.idl_values.specs.Told.{number_at};

    ghost value_known = { λ k path. value_by (known_by (number_at k.told.now.numbers) k.table.now) k.values.now path };

    fn value(&self, path: &Path) -> Option<i128> {
        let Some(place) = known(self.told, self.table, path) else {
            return None;
        };
        match self.values.get(place as usize) {
            Some(value) => *value,
            None => None,
        }
    }
}

/// The value of an expression, if it has one.
pub(crate) fn expression_value(
    told: &Told,
    table: &[Option<u32>],
    values: &[Option<i128>],
    expr: &Expr,
) -> Option<i128>
    ensures { result ≡ result_ok (value (value_by (known_by (number_at told.now.numbers) table.now) values.now) (expr_of expr.now)) }
{
    let known = Known {
        told,
        table,
        values,
    };
    match evaluate(expr, &known) {
        Ok(value) => Some(value),
        Err(_) => None,
    }
}
