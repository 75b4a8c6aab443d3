//! What a line says of an outcome.
ghost use Rattle.std.specs.Prelude.{◌≡◌, ◌∷◌, ◌++◌, List, IfOk, OnOk, codes, map};
ghost use Rattle.std.specs.String.{string_bytes};
ghost use Rattle.bridge_model.specs.RootRuns.{cause_text, outcome_text, outs_text, params_called, statement_params};
ghost use Rattle.bridge_model.specs.Sides as side;
ghost use Rattle.message_model.specs.Messages.{returned, raised};
ghost use Rattle.literal_model.specs.Literals.{print};
ghost use Rattle.message_model.specs.Calls.{comes, numbered};
ghost use Rattle.plan_model.specs.Statements.{RootStatement as Plain};
ghost use Rattle.plan_model.specs.Calling.{number_in};
ghost use Rattle.plan_types.specs.Statements.{callee_of, root_statement_of};
ghost use Rattle.type_registry.specs.Functions.{lent_function, lent_param};
ghost use Rattle.uno_model.specs.Entities.{Param};
ghost use Rattle.uno_model.specs.Sound.{IsSound};
ghost use Rattle.uno_values.specs.Values.{any_of, plain_of};

use behaviour::number_in;
use bridge_model::Cause;
use plan_types::{Call, RootStatement};
use std::alloc::Global;
use type_registry::{FunctionRef, ParamRef, function_numbered};
use uno_base::NoMemory;
use uno_types::{Registry, Way};
use uno_values::{AnyValue, Value};
use value_text::{push_any, push_value};

/// `returned`, the result, and ` NAME=VALUE` for each parameter that comes out.
#[tactic(auto, unfolding(bridge_model::specs::RootRuns::outcome_text))]
pub fn returned_text(
    alloc: Global,
    registry: &Registry,
    statement: &RootStatement,
    value: &Value,
    outs: &[Value],
) -> Result<String, NoMemory>
    requires { IsSound registry.now }
    ensures { IfOk result (λ text. string_bytes text ≡ outcome_text registry.now (root_statement_of statement.now) (side.answer (returned (plain_of value.now) (map plain_of outs.now)))) }
{
    let mut text = String::from_str(alloc, "returned ")?;
    push_value(alloc, &mut text, registry, value)?;
    push_stated(alloc, &mut text, registry, statement, outs)?;
    Ok(text)
}

/// The values that come out of what a statement calls, behind a text. Only a call has any.
fn push_stated(
    alloc: Global,
    text: &mut String,
    registry: &Registry,
    statement: &RootStatement,
    outs: &[Value],
) -> Result<(), NoMemory>
    requires { IsSound registry.now }
    ensures { OnOk result (string_bytes text.new ≡ string_bytes text.old ++ outs_text registry.now (statement_params registry.now (root_statement_of statement.now)) (map plain_of outs.now)) }
{
    let RootStatement::Call(call) = statement else {
        return Ok(());
    };
    push_called(alloc, text, registry, call, outs)
}

/// The values that come out of the function that a call names, behind a text.
fn push_called(
    alloc: Global,
    text: &mut String,
    registry: &Registry,
    call: &Call,
    outs: &[Value],
) -> Result<(), NoMemory>
    requires { IsSound registry.now }
    ensures { OnOk result (string_bytes text.new ≡ string_bytes text.old ++ outs_text registry.now (params_called (numbered registry.now call.now.callee.owner (number_in registry.now call.now.callee.owner (callee_of call.now.callee)))) (map plain_of outs.now)) }
{
    let owner = call.callee.owner.as_str();
    let number = number_in(alloc, registry, owner, &call.callee)?;
    let Ok(number) = u16::try_from(number) else {
        return Err(NoMemory);
    };
    match function_numbered(registry, owner, number) {
        Some(function) => push_outs(alloc, text, registry, function, outs),
        None => Ok(()),
    }
}

/// ` NAME=VALUE` for each parameter of a function that comes out, behind a text.
fn push_outs(
    alloc: Global,
    text: &mut String,
    registry: &Registry,
    function: FunctionRef,
    outs: &[Value],
) -> Result<(), NoMemory>
    ensures { OnOk result (string_bytes text.new ≡ string_bytes text.old ++ outs_text registry.now (lent_function function.entry).params (map plain_of outs.now)) }
{
    let mut left = outs;
    for place in 0..function.param_count() {
        let Some(param) = function.param(place) else {
            return Ok(());
        };
        left = push_next(alloc, text, registry, param, left)?;
    }
    Ok(())
}

/// The same for one parameter, behind a text. The values of those behind it are given.
fn push_next<'a>(
    alloc: Global,
    text: &mut String,
    registry: &Registry,
    param: ParamRef,
    left: &'a [Value],
) -> Result<&'a [Value], NoMemory>
    ensures { (ps : List Param) → IfOk result (λ behind. string_bytes text.new ++ outs_text registry.now ps (map plain_of behind.now)
        ≡ string_bytes text.old ++ outs_text registry.now (lent_param param.entry ∷ ps) (map plain_of left.entry.now)) }
{
    if !comes(param.way) {
        return Ok(left);
    }
    let Some((value, behind)) = left.split_first() else {
        return Ok(left);
    };
    push_out(alloc, text, registry, param, value)?;
    Ok(behind)
}

/// Whether a parameter's value comes with the answer.
fn comes(way: Way) -> bool
    ensures { result ≡ comes way }
{
    match way {
        Way::Into => false,
        Way::Out | Way::Both => true,
    }
}

/// ` NAME=VALUE`, behind a text.
fn push_out(
    alloc: Global,
    text: &mut String,
    registry: &Registry,
    param: ParamRef,
    value: &Value,
) -> Result<(), NoMemory>
    ensures { OnOk result (string_bytes text.new ≡ string_bytes text.old ++ (codes " " ++ ((lent_param param.entry).name ++ (codes "=" ++ print registry.now (plain_of value.now))))) }
{
    text.push_str(" ")?;
    text.push_str(param.name.as_str())?;
    text.push_str("=")?;
    push_value(alloc, text, registry, value)
}

/// `raised` and the exception, as an any.
#[tactic(auto, unfolding(bridge_model::specs::RootRuns::outcome_text))]
pub fn raised_text(
    alloc: Global,
    registry: &Registry,
    exception: &AnyValue,
) -> Result<String, NoMemory>
    ensures { (s : Plain) → IfOk result (λ text. string_bytes text ≡ outcome_text registry.now s (side.answer (raised (any_of exception.now).0 (any_of exception.now).1))) }
{
    let mut text = String::from_str(alloc, "raised ")?;
    push_any(alloc, &mut text, registry, exception)?;
    Ok(text)
}

/// That the bridge has ended, by the name of the cause alone.
#[tactic(auto, unfolding(bridge_model::specs::RootRuns::cause_text))]
pub fn disposed_text(cause: Cause) -> &'static str
    ensures { result.now ≡ codes "disposed " ++ cause_text cause }
{
    match cause {
        Cause::Disposed => "disposed Disposed",
        Cause::Ended => "disposed Ended",
        Cause::Failed => "disposed Failed",
        Cause::Broken(_, _) => "disposed Broken",
        Cause::Full => "disposed Full",
        Cause::NoMemory => "disposed NoMemory",
    }
}
