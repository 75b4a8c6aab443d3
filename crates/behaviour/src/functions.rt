//! Functions: their numbers, their names, and what their parameters give.
ghost use Rattle.std.specs.Prelude.{◌≡◌, ◌++◌, IfOk, IfSome, OnOk, map, option_map};
ghost use Rattle.std.specs.List.{position_or_len};
ghost use Rattle.std.specs.Str.{bytes_eq};
ghost use Rattle.message_model.specs.Calls.{comes, out_kinds, kinds_on};
ghost use Rattle.plan_model.specs.Asking.{out_values};
ghost use Rattle.plan_model.specs.Calling.{number_in};
ghost use Rattle.plan_types.specs.Frames.{variables_of};
ghost use Rattle.plan_types.specs.Statements.{callee_of};
ghost use Rattle.type_registry.specs.Functions.{function_of, functions_at, lent_function, lent_param};
ghost use Rattle.uno_model.specs.Defaults.{default_of_kind};
ghost use Rattle.uno_model.specs.Sound.{IsSound};
ghost use Rattle.uno_values.specs.Values.{plain_of};
ghost use Rattle.behaviour.specs.Functions.{is_callee, one_or_none};

use crate::values::push_value;
use crate::words::copy_under;
use plan_types::{Callee, Variable};
use std::alloc::Global;
use type_registry::{
    Function, FunctionRef, ParamRef, TableError, function_numbered, function_table,
};
use uno_base::NoMemory;
use uno_types::{Registry, TypeName, Way};
use uno_values::{Value, default_of};

/// The number of a function in the table of an interface, or the count of its functions where it is none of them. Past the first ones the whole table is
/// made, since each look-up by a number goes over all before it.
pub fn number_in(
    alloc: Global,
    registry: &Registry,
    face: &str,
    callee: &Callee,
) -> Result<u32, NoMemory>
    requires { IsSound registry.now }
    ensures { IfOk result (λ n. n ≡ number_in registry.now face.now (callee_of callee.now)) }
{
    if let Some(number) = number_near(registry, face, callee) {
        return Ok(number);
    }
    match function_table(alloc, registry, face) {
        Ok(table) => {
            let place = place_among(&table, callee);
            drop(table);
            place
        }
        Err(TableError::NoMemory) => Err(NoMemory),
        Err(TableError::NotInterface) => Ok(number_one_by_one(registry, face, callee)),
    }
}

/// How many functions are looked up one by one.
const NEAR: u32 = 64;

/// The number, where it is found among the first ones.
fn number_near(registry: &Registry, face: &str, callee: &Callee) -> Option<u32>
    ensures { IfSome result (λ n. n ≡ number_in registry.now face.now (callee_of callee.now)) }
{
    let mut number: u32 = 0;
    while number < NEAR {
        let Some(function) = function_numbered(registry, face, number as u16) else {
            return Some(number);
        };
        if is_callee(&function, callee) {
            return Some(number);
        }
        number += 1;
    }
    None
}

/// The place of a function among these, or their count.
fn place_among(functions: &[Function], callee: &Callee) -> Result<u32, NoMemory>
    ensures { IfOk result (λ n. n ≡ position_or_len (is_callee (callee_of callee.now)) (functions_at functions.now)) }
{
    let place = place_of(functions, callee);
    let Ok(number) = u32::try_from(place) else {
        return Err(NoMemory);
    };
    Ok(number)
}

fn place_of(functions: &[Function], callee: &Callee) -> usize
    ensures { result ≡ position_or_len (is_callee (callee_of callee.now)) (functions_at functions.now) }
{
    let mut place = 0;
    for function in functions {
        if is_named_by(function, callee) {
            return place;
        }
        place += 1;
    }
    place
}

/// Whether a function of a table is the one that a call names.
fn is_named_by(function: &Function, callee: &Callee) -> bool
    ensures { result ≡ is_callee (callee_of callee.now) (function_of function.now) }
{
    if callee.owner.as_str() != function.owner.as_str() {
        return false;
    }
    callee.name.as_str() == function.name.as_str()
}

/// The number, looked up one by one to the end.
fn number_one_by_one(registry: &Registry, face: &str, callee: &Callee) -> u32
    requires { IsSound registry.now }
    ensures { result ≡ number_in registry.now face.now (callee_of callee.now) }
{
    let mut number: u32 = 0;
    while number <= LAST {
        let Some(function) = function_numbered(registry, face, number as u16) else {
            return number;
        };
        if is_callee(&function, callee) {
            return number;
        }
        number += 1;
    }
    number
}

/// The greatest number that a function may have.
const LAST: u32 = 65_535;

/// Whether a function is the one that a call names.
fn is_callee(function: &FunctionRef, callee: &Callee) -> bool
    ensures { result ≡ is_callee (callee_of callee.now) (lent_function function.now) }
{
    if callee.owner.as_str() != function.owner().as_str() {
        return false;
    }
    is_named(function, callee.name.as_str())
}

/// Whether a function has this name.
pub(crate) fn is_named(function: &FunctionRef, name: &str) -> bool
    ensures { result ≡ bytes_eq name.now (lent_function function.now).name }
{
    let Some(member) = name.strip_prefix(function.prefix()) else {
        return false;
    };
    member == function.member_name().as_str()
}

/// The values of the parameters that come out, in order.
pub(crate) fn out_values(
    alloc: Global,
    function: &FunctionRef,
    variables: &[Variable],
) -> Result<Vec<Value>, NoMemory>
    ensures { IfOk result (λ vs. map plain_of vs.items ≡ out_values (lent_function function.now).params (variables_of variables.now)) }
{
    let mut values = Vec::new(alloc);
    for place in 0..function.param_count() {
        if let Err(error) = push_out(&mut values, alloc, function.param(place), variables) {
            drop(values);
            return Err(error);
        }
    }
    Ok(values)
}

/// Adds the value of a parameter, where it comes out.
#[tactic(auto, unfolding(plan_model::specs::Asking::out_values))]
fn push_out(
    values: &mut Vec<Value>,
    alloc: Global,
    param: Option<ParamRef>,
    variables: &[Variable],
) -> Result<(), NoMemory>
    ensures { OnOk result (map plain_of values.new.items ≡ map plain_of values.old.items ++ out_values (one_or_none (option_map lent_param param.entry)) (variables_of variables.now)) }
{
    let Some(param) = param else {
        return Ok(());
    };
    if !comes(param.way) {
        return Ok(());
    }
    push_value(values, copy_under(alloc, param.name, variables)?)
}

/// Whether a parameter's value comes with the answer.
fn comes(way: Way) -> bool
    ensures { result ≡ comes way }
{
    match way {
        Way::Into => false,
        Way::Out | Way::Both => true,
    }
}

/// The default of a function's result.
pub(crate) fn default_result(
    alloc: Global,
    registry: &Registry,
    function: &FunctionRef,
) -> Result<Value, NoMemory>
    requires { IsSound registry.now }
    ensures { IfOk result (λ v. plain_of v ≡ default_of_kind registry.now (lent_function function.now).result_kind) }
{
    match function.result() {
        Some(kind) => default_of(alloc, registry, kind),
        None => default_of(alloc, registry, &TypeName::Void),
    }
}

/// The defaults of the parameters that come out, in order.
pub(crate) fn default_outs(
    alloc: Global,
    registry: &Registry,
    function: &FunctionRef,
) -> Result<Vec<Value>, NoMemory>
    requires { IsSound registry.now }
    ensures { IfOk result (λ vs. map plain_of vs.items ≡ map (default_of_kind registry.now) (out_kinds (lent_function function.now))) }
{
    let mut values = Vec::new(alloc);
    for place in 0..function.param_count() {
        if let Err(error) = push_default(&mut values, alloc, registry, function.param(place)) {
            drop(values);
            return Err(error);
        }
    }
    Ok(values)
}

/// Adds the default of a parameter, where it comes out.
#[tactic(auto, unfolding(message_model::specs::Calls::kinds_on))]
fn push_default(
    values: &mut Vec<Value>,
    alloc: Global,
    registry: &Registry,
    param: Option<ParamRef>,
) -> Result<(), NoMemory>
    requires { IsSound registry.now }
    ensures { OnOk result (map plain_of values.new.items ≡ map plain_of values.old.items ++ map (default_of_kind registry.now) (kinds_on comes (one_or_none (option_map lent_param param.entry)))) }
{
    let Some(param) = param else {
        return Ok(());
    };
    if !comes(param.way) {
        return Ok(());
    }
    push_value(values, default_of(alloc, registry, param.kind)?)
}
