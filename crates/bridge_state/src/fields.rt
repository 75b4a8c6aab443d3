//! The values of the fields of an object under their names.
ghost use Rattle.std.specs.Prelude.{◌≡◌, ◌↔◌, ◌∷◌, ◌++◌, true, [], IfOk, OnOk, map};
ghost use Rattle.bridge_model.specs.Objects.{as_variables};
ghost use Rattle.plan_types.specs.Frames.{variable_of, variables_of};
ghost use Rattle.uno_entities.specs.Entities.{field_of};
ghost use Rattle.uno_values.specs.Values.{plain_of};

use plan_types::Variable;
use std::alloc::Global;
use uno_base::NoMemory;
use uno_types::Field;
use uno_values::Value;
use value_equality::same_value;

/// Copies of the values, under the names of the fields.
#[tactic(auto, unfolding(bridge_model::specs::Objects::as_variables))]
pub(crate) fn named_fields(
    alloc: Global,
    fields: &[Field],
    values: &[Value],
) -> Result<Vec<Variable>, NoMemory>
    ensures { IfOk result (λ xs. variables_of xs.items ≡ as_variables (map field_of fields.now) (map plain_of values.now)) }
{
    let mut variables = Vec::new(alloc);
    for place in 0..fields.len().min(values.len()) {
        if let Err(error) = push_field(alloc, &fields[place], &values[place], &mut variables) {
            drop(variables);
            return Err(error);
        }
    }
    Ok(variables)
}

/// A copy of a value, under the name of a field.
fn push_field(
    alloc: Global,
    field: &Field,
    value: &Value,
    variables: &mut Vec<Variable>,
) -> Result<(), NoMemory>
    ensures { OnOk result (variables_of variables.new.items ≡ variables_of variables.old.items ++ record { name = (field_of field.now).name; value = plain_of value.now } ∷ []) }
{
    let name = field.name.copy()?;
    let value = value.copy(alloc)?;
    variables.push(Variable { name, value })?;
    Ok(())
}

/// Whether variables are the values under the names of the fields.
#[tactic(auto, unfolding(bridge_model::specs::Objects::as_variables))]
pub(crate) fn are_fields(fields: &[Field], values: &[Value], variables: &[Variable]) -> bool
    ensures { result ≡ true ↔ as_variables (map field_of fields.now) (map plain_of values.now) ≡ variables_of variables.now }
{
    if variables.len() != fields.len().min(values.len()) {
        return false;
    }
    for place in 0..variables.len() {
        if !is_field(&fields[place], &values[place], &variables[place]) {
            return false;
        }
    }
    true
}

/// Whether a variable is a value under the name of a field.
fn is_field(field: &Field, value: &Value, variable: &Variable) -> bool
    ensures { result ≡ true ↔ record { name = (field_of field.now).name; value = plain_of value.now } ≡ variable_of variable.now }
{
    field.name.is(&variable.name) && same_value(value, &variable.value)
}
