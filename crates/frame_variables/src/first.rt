//! The variables with which a method begins.
ghost use Rattle.std.specs.Prelude.{◌≡◌, ◌++◌, List, IfOk, OnOk, drop, map, option_map};
ghost use Rattle.message_model.specs.Calls.{goes};
ghost use Rattle.plan_model.specs.Holdings.{behind_argument, first_value, first_variables};
ghost use Rattle.plan_types.specs.Frames.{variables_of};
ghost use Rattle.type_registry.specs.Functions.{lent_function, lent_param};
ghost use Rattle.uno_model.specs.Entities.{Param};
ghost use Rattle.uno_model.specs.Sound.{IsSound};
ghost use Rattle.uno_values.specs.Values.{plain_of};
ghost use Rattle.frame_variables.specs.Given.{left};
ghost use Rattle.frame_variables.specs.Taking.{one_or_none};

use crate::given::Given;
use plan_types::Variable;
use std::alloc::Global;
use type_registry::{FunctionRef, ParamRef};
use uno_base::NoMemory;
use uno_types::{Registry, Way};
use uno_values::{Value, default_of};

/// The parameters of a function, each with its argument, or with the default of its type where it only comes out. Arguments that are missing are void.
pub fn first_variables(
    alloc: Global,
    registry: &Registry,
    function: &FunctionRef,
    args: Vec<Value>,
) -> Result<Vec<Variable>, NoMemory>
    requires { IsSound registry.now }
    ensures { IfOk result (λ xs. variables_of xs.items ≡ first_variables registry.now (lent_function function.now).params (map plain_of args.items)) }
{
    let mut given = Given::new(args);
    let mut variables = Vec::with_capacity(alloc, function.param_count())?;
    for place in 0..function.param_count() {
        push_first(
            alloc,
            registry,
            function.param(place),
            &mut given,
            &mut variables,
        )?;
    }
    Ok(variables)
}

/// Adds the variable of a parameter, where there is one.
#[tactic(auto, unfolding(plan_model::specs::Holdings::first_variables))]
fn push_first(
    alloc: Global,
    registry: &Registry,
    param: Option<ParamRef>,
    given: &mut Given,
    variables: &mut Vec<Variable>,
) -> Result<(), NoMemory>
    requires { IsSound registry.now }
    ensures { (ps : List Param) → OnOk result (variables_of variables.new.items ++ first_variables registry.now ps (left given.new)
        ≡ variables_of variables.old.items ++ first_variables registry.now (one_or_none (option_map lent_param param.entry) ++ ps) (left given.old)) }
{
    let Some(param) = param else {
        return Ok(());
    };
    let name = param.name.copy()?;
    let value = first_value(alloc, registry, param, given)?;
    variables.push(Variable { name, value })?;
    Ok(())
}

/// The value with which a parameter begins.
fn first_value(
    alloc: Global,
    registry: &Registry,
    param: ParamRef,
    given: &mut Given,
) -> Result<Value, NoMemory>
    requires { IsSound registry.now }
    ensures value { IfOk result (λ x. plain_of x ≡ first_value registry.now (lent_param param.entry) (left given.old)) }
    ensures rest { left given.new ≡ behind_argument (lent_param param.entry) (left given.old) }
{
    if !goes(param.way) {
        return default_of(alloc, registry, param.kind);
    }
    match given.next() {
        Some(value) => Ok(value),
        None => Ok(Value::Void),
    }
}

/// Whether a parameter's value goes with the request.
fn goes(way: Way) -> bool
    ensures { result ≡ goes way }
{
    match way {
        Way::Into | Way::Both => true,
        Way::Out => false,
    }
}
