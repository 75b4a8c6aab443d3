//! Variables by their names.
ghost use Rattle.std.specs.Prelude.{◌≡◌, not};
ghost use Rattle.std.specs.List.{filter, list_any, position};
ghost use Rattle.std.specs.Str.{bytes_eq};
ghost use Rattle.plan_model.specs.Evaluation.{value_under};
ghost use Rattle.plan_model.specs.Holdings.{put, without};
ghost use Rattle.plan_types.specs.Frames.{variables_of};
ghost use Rattle.plan_types.specs.declared.frame.Variable.{Variable};
ghost use Rattle.uno_model.specs.Values.{void};
ghost use Rattle.uno_values.specs.Values.{plain_of};

use plan_types::Variable;
use std::mem;
use uno_types::Name;
use uno_values::Value;

/// Puts another value under a name that is there, and gives the value that was there. Where the name is not there nothing changes, and what is
/// given is void.
pub fn put(variables: &mut Vec<Variable>, name: &Name, value: Value) -> Value
    ensures put { variables_of variables.new.items ≡ put name.now (plain_of value) (variables_of variables.old.items) }
    ensures was { plain_of result ≡ value_under name.now (variables_of variables.old.items) }
{
    match place_of(variables, name) {
        Some(place) => mem::replace(&mut variables[place].value, value),
        None => {
            drop(value);
            no_value()
        }
    }
}

/// Takes out the variables of a name, and gives the value of the first; void where there is none.
pub fn take_out(variables: &mut Vec<Variable>, name: &Name) -> Value
    ensures without { variables_of variables.new.items ≡ without name.now (variables_of variables.old.items) }
    ensures was { plain_of result ≡ value_under name.now (variables_of variables.old.items) }
{
    match place_of(variables, name) {
        Some(place) => {
            let value = mem::replace(&mut variables[place].value, Value::Void);
            keep_others(variables, name);
            value
        }
        None => no_value(),
    }
}

/// The value of a name that is not there.
pub(crate) fn no_value() -> Value
    ensures { plain_of result ≡ void }
{
    Value::Void
}

/// The place of the first variable of a name.
pub(crate) fn place_of(variables: &[Variable], name: &Name) -> Option<usize>
    ensures { result ≡ position (λ (x : Variable). bytes_eq name.now x.name) variables.now }
{
    variables
        .iter()
        .position(|variable| name.as_str() == variable.name.as_str())
}

/// Whether a variable has a name.
pub(crate) fn has(variables: &[Variable], name: &Name) -> bool
    ensures { result ≡ list_any (λ (x : Variable). bytes_eq name.now x.name) variables.now }
{
    variables
        .iter()
        .any(|variable| name.as_str() == variable.name.as_str())
}

/// Keeps the variables of all other names.
fn keep_others(variables: &mut Vec<Variable>, name: &Name)
    ensures { variables.new.items ≡ filter (λ (x : Variable). not (bytes_eq name.now x.name)) variables.old.items }
{
    variables.retain(|variable| name.as_str() != variable.name.as_str());
}
