//! What the answer to a call does to the variables of its frame.
ghost use Rattle.std.specs.Prelude.{◌≡◌, ◌∷◌, List, [], IfOk, OnOk, drop, map, option_map};
ghost use Rattle.plan_model.specs.Holdings.{takes_answer, takes_outs, takes_result, with_variable};
ghost use Rattle.plan_model.specs.Expressions as plain;
ghost use Rattle.plan_types.specs.Expressions.{argument_of};
ghost use Rattle.plan_types.specs.Frames.{variables_of};
ghost use Rattle.plan_types.specs.Statements.{call_of};
ghost use Rattle.uno_entities.specs.Entities.{field_of};
ghost use Rattle.uno_values.specs.Values.{plain_of};
ghost use Rattle.frame_variables.specs.Given.{left};
ghost use Rattle.frame_variables.specs.Taking.{taken_of, takes_first};

use crate::given::Given;
use crate::variables::add;
use named_variables::put;
use plan_types::{Argument, Call, Variable};
use std::alloc::Global;
use uno_base::NoMemory;
use uno_types::{Field, Name};
use uno_values::Value;

/// The result becomes a variable, where the call names it, and what came out stands under the names that were given for it. The values are given
/// whose references are let go for that, in order.
pub fn take_answer(
    alloc: Global,
    call: &Call,
    value: Value,
    outs: Vec<Value>,
    variables: &mut Vec<Variable>,
) -> Result<Vec<Value>, NoMemory>
    ensures { IfOk result (λ gone. taken_of variables.new.items gone.items ≡ takes_answer (call_of call.now) (plain_of value) (map plain_of outs.items) (variables_of variables.old.items)) }
{
    let mut gone = Vec::new(alloc);
    take_result(&call.to, value, variables, &mut gone)?;
    take_outs(&call.arguments, outs, variables, &mut gone)?;
    Ok(gone)
}

/// A result that is not named is let go.
fn take_result(
    to: &Option<Field>,
    value: Value,
    variables: &mut Vec<Variable>,
    gone: &mut Vec<Value>,
) -> Result<(), NoMemory>
    requires { gone.old.items ≡ [] }
    ensures { OnOk result (taken_of variables.new.items gone.new.items ≡ takes_result (option_map field_of to.now) (plain_of value) (variables_of variables.old.items)) }
{
    match to {
        Some(field) => take_named(&field.name, value, variables),
        None => {
            gone.push(value)?;
            Ok(())
        }
    }
}

fn take_named(name: &Name, value: Value, variables: &mut Vec<Variable>) -> Result<(), NoMemory>
    ensures { OnOk result (variables_of variables.new.items ≡ with_variable name.now (plain_of value) (variables_of variables.old.items)) }
{
    match name.copy() {
        Ok(name) => add(variables, name, value),
        Err(error) => {
            drop(value);
            Err(error)
        }
    }
}

/// The values that came out, each for the variable that was given for its parameter.
fn take_outs(
    arguments: &[Argument],
    outs: Vec<Value>,
    variables: &mut Vec<Variable>,
    gone: &mut Vec<Value>,
) -> Result<(), NoMemory>
    ensures { OnOk result (taken_of variables.new.items gone.new.items ≡ takes_outs (map argument_of arguments.now) (map plain_of outs.items) (taken_of variables.old.items gone.old.items)) }
{
    let mut given = Given::new(outs);
    for argument in arguments {
        take_out_value(argument, &mut given, variables, gone)?;
    }
    Ok(())
}

/// The same for one argument.
#[tactic(auto, unfolding(plan_model::specs::Holdings::takes_outs))]
fn take_out_value(
    argument: &Argument,
    given: &mut Given,
    variables: &mut Vec<Variable>,
    gone: &mut Vec<Value>,
) -> Result<(), NoMemory>
    ensures { (args : List plain.Argument) → OnOk result (takes_outs args (left given.new) (taken_of variables.new.items gone.new.items)
        ≡ takes_outs (argument_of argument.now ∷ args) (left given.old) (taken_of variables.old.items gone.old.items)) }
{
    match argument {
        Argument::Into(_) => Ok(()),
        Argument::Out(name) | Argument::Both(name) => take_next(name, given, variables, gone),
    }
}

/// The next value stands under a name, and the one that was there is let go.
fn take_next(
    name: &Name,
    given: &mut Given,
    variables: &mut Vec<Variable>,
    gone: &mut Vec<Value>,
) -> Result<(), NoMemory>
    ensures taken { OnOk result (taken_of variables.new.items gone.new.items ≡ takes_first name.now (left given.old) (taken_of variables.old.items gone.old.items)) }
    ensures rest { left given.new ≡ drop 1 (left given.old) }
{
    let Some(value) = given.next() else {
        return Ok(());
    };
    let was = put(variables, name, value);
    gone.push(was)?;
    Ok(())
}
