//! Variables and methods.
ghost use Rattle.std.specs.Prelude.{◌≡◌, ◌↔◌, true};
ghost use Rattle.plan_types.specs.Frames.{body_of, variable_of, variables_of};

use crate::same_value;
use plan_types::{Body, Variable};

/// Whether variables are equal, and in the same order.
pub fn same_variables(xs: &[Variable], ys: &[Variable]) -> bool
    ensures { result ≡ true ↔ variables_of xs.now ≡ variables_of ys.now }
{
    if xs.len() != ys.len() {
        return false;
    }
    let mut place = 0;
    for x in xs {
        if !same_variable(x, &ys[place]) {
            return false;
        }
        place += 1;
    }
    true
}

/// Whether two variables are equal.
pub fn same_variable(x: &Variable, y: &Variable) -> bool
    ensures { result ≡ true ↔ variable_of x.now ≡ variable_of y.now }
{
    x.name.is(&y.name) && same_value(&x.value, &y.value)
}

/// Whether methods are equal.
pub fn same_body(a: &Body, b: &Body) -> bool
    ensures { result ≡ true ↔ body_of a.now ≡ body_of b.now }
{
    a.number == b.number
        && a.object == b.object
        && a.face.is(&b.face)
        && a.function == b.function
        && a.from_peer == b.from_peer
        && a.place == b.place
        && same_variables(&a.variables, &b.variables)
}
