//! The names of the services that a plan has, as a value.
ghost use Rattle.std.specs.Prelude.{◌≡◌, IfOk, map};
ghost use Rattle.plan_model.specs.Services.{service_names};
ghost use Rattle.plan_types.specs.Plans.{plan_of};
ghost use Rattle.uno_model.specs.Kinds as kd;
ghost use Rattle.uno_model.specs.Values as plain;
ghost use Rattle.uno_model.specs.Values.{plains};
ghost use Rattle.uno_values.specs.Values.{plain_of, plains_of};

use crate::values::push_value;
use plan_types::Plan;
use service_manager::service_names;
use std::alloc::Global;
use uno_base::NoMemory;
use uno_types::{Registry, Text, TypeName};
use uno_values::Value;

/// The names of the services, as a sequence of strings.
pub(crate) fn names_value(
    alloc: Global,
    registry: &Registry,
    plan: &Plan,
) -> Result<Value, NoMemory>
    ensures { IfOk result (λ v. plain_of v ≡ plain.list kd.str (plains (map plain.str (service_names registry.now (plan_of plan.now))))) }
{
    let names = service_names(alloc, plan, registry)?;
    let strings = strings(alloc, names)?;
    Ok(sequence(strings))
}

/// The sequence of these strings.
fn sequence(strings: Vec<Value>) -> Value
    ensures { plain_of result ≡ plain.list kd.str (plains_of strings.items) }
{
    Value::List(TypeName::Str, strings)
}

/// Each text as a value.
fn strings(alloc: Global, texts: Vec<Text>) -> Result<Vec<Value>, NoMemory>
    ensures { IfOk result (λ xs. map plain_of xs.items ≡ map plain.str texts.items) }
{
    let mut strings = Vec::new(alloc);
    for text in texts {
        if let Err(error) = push_value(&mut strings, Value::Str(text)) {
            drop(strings);
            return Err(error);
        }
    }
    Ok(strings)
}
