//! The fields of what is made.
ghost use Rattle.std.specs.Prelude.{◌≡◌, IfOk, map, option_map};
ghost use Rattle.std.specs.List.{find};
ghost use Rattle.std.specs.Str.{bytes_eq};
ghost use Rattle.uno_model.specs.Sound.{IsSound};
ghost use Rattle.plan_model.specs.Services.{fields_with, field_value};
ghost use Rattle.plan_types.specs.Frames.{variable_of, variables_of};
ghost use Rattle.uno_entities.specs.Entities.{field_of};
ghost use Rattle.uno_values.specs.Values.{plain_of};

use plan_types::Variable;
use std::alloc::Global;
use uno_base::NoMemory;
use uno_types::{Field, Name, Registry};
use uno_values::{Value, default_of};

/// The values of fields: what was given under their names, and for the others the defaults of their types.
#[tactic(auto, unfolding(plan_model::specs::Services::fields_with))]
pub fn fields_with(
    alloc: Global,
    registry: &Registry,
    given: &[Variable],
    fields: &[Field],
) -> Result<Vec<Value>, NoMemory>
    requires { IsSound registry.now }
    ensures { IfOk result (λ values. map plain_of values.items ≡ fields_with registry.now (variables_of given.now) (map field_of fields.now)) }
{
    let mut values = Vec::new(alloc);
    for field in fields {
        values.push(field_value(alloc, registry, given, field)?)?;
    }
    Ok(values)
}

fn field_value(
    alloc: Global,
    registry: &Registry,
    given: &[Variable],
    field: &Field,
) -> Result<Value, NoMemory>
    requires { IsSound registry.now }
    ensures { IfOk result (λ v. plain_of v ≡ field_value registry.now (variables_of given.now) (field_of field.now)) }
{
    match variable_named(given, &field.name) {
        Some(variable) => variable.value.copy(alloc),
        None => default_of(alloc, registry, &field.kind),
    }
}

/// The first variable of a name.
fn variable_named<'a>(variables: &'a [Variable], name: &Name) -> Option<&'a Variable>
    ensures { option_map (λ x. variable_of x.now) result ≡ find (λ x. bytes_eq name.now x.name) (variables_of variables.now) }
{
    for variable in variables {
        if name.as_str() == variable.name.as_str() {
            return Some(variable);
        }
    }
    None
}
