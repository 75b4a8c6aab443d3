//! One variable more.
ghost use Rattle.std.specs.Prelude.{◌≡◌, OnErr, OnOk};
ghost use Rattle.plan_model.specs.Holdings.{with_variable};
ghost use Rattle.plan_types.specs.Frames.{variables_of};
ghost use Rattle.uno_values.specs.Values.{plain_of};

use plan_types::Variable;
use uno_base::NoMemory;
use uno_types::Name;
use uno_values::Value;

/// Puts a variable behind the others.
pub fn add(variables: &mut Vec<Variable>, name: Name, value: Value) -> Result<(), NoMemory>
    ensures added { OnOk result (variables_of variables.new.items ≡ with_variable name (plain_of value) (variables_of variables.old.items)) }
    ensures kept { OnErr result (variables.new.items ≡ variables.old.items) }
{
    variables.push(Variable { name, value })?;
    Ok(())
}
