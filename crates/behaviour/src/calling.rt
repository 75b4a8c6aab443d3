//! The effects of calls and queries.
ghost use Rattle.std.specs.Prelude.{◌≡◌, ◌≢◌, ◌-◌, ◌^◌, ℕ, IfOk, List, [], ◌∷◌, map, min, None, Some, option_map, if◌then◌else◌};
ghost use Rattle.message_model.specs.Messages.{request};
ghost use Rattle.message_model.specs.Sayable.{message_weight};
ghost use Rattle.plan_model.specs.Asking.{calls, queries};
ghost use Rattle.plan_model.specs.Asking.{Effect as Plain};
ghost use Rattle.plan_model.specs.Calling.{given_values, number_in, sent, calls_object, calls_target, call_effect, queries_object, queries_target, query_effect};
ghost use Rattle.plan_model.specs.Evaluation.{identity_of};
ghost use Rattle.plan_model.specs.Expressions.{Argument as PlainArgument};
ghost use Rattle.plan_types.specs.Expressions.{argument_of};
ghost use Rattle.plan_types.specs.Statements.{call_of, callee_of, query_of};
ghost use Rattle.uno_model.specs.Entities.{Entity};
ghost use Rattle.uno_model.specs.Kinds as kd;
ghost use Rattle.uno_model.specs.Sound.{IsSound};
ghost use Rattle.uno_model.specs.Values.{null};
ghost use Rattle.uno_model.specs.Values as plain;
ghost use Rattle.uno_entities.specs.Entities.{field_of};
ghost use Rattle.uno_values.specs.Values.{plain_of};
ghost use Rattle.behaviour.specs.Calling.{face_of, behind_all, target_of, too_much, unless};
ghost use Rattle.behaviour.specs.Effects.{effect_of};
ghost use Rattle.behaviour.specs.Running.{scene_of, running_of};

use crate::Effect;
use crate::ending::fails;
use crate::evaluation::value_of;
use crate::functions::number_in;
use crate::limits::{has_deep, heading_weight, is_full, is_heavy};
use crate::running::{Running, Scene, Target};
use crate::target::object_of_word;
use crate::values::push_value;
use crate::words::copy_of;
use plan_types::{Argument, Call, Query, RuntimeCause};
use std::alloc::Global;
use uno_base::NoMemory;
use uno_types::{Field, Name, Registry, Tid, TypeName};
use uno_values::{Value, weights};

/// A call: of null it is none, and of an object it is made where its arguments have values and it is within the limits.
#[tactic(auto, unfolding(plan_model::specs::Calling::call_effect))]
pub(crate) fn call_effect(
    alloc: Global,
    registry: &Registry,
    running: &Running,
    call: &Call,
) -> Result<Effect, NoMemory>
    requires { IsSound registry.now }
    ensures { IfOk result (λ e. effect_of e ≡ call_effect registry.now (running_of running.now) (call_of call.now)) }
{
    let target = object_of_word(running.scene, &call.target);
    if matches!(target, Target::Null) {
        return fails(alloc, registry, running, RuntimeCause::Null);
    }
    calls_target(alloc, registry, running, call, target)
}

/// A call of an object.
fn calls_target(
    alloc: Global,
    registry: &Registry,
    running: &Running,
    call: &Call,
    target: Target,
) -> Result<Effect, NoMemory>
    requires sound { IsSound registry.now }
    requires some { target_of target ≢ null }
    ensures { IfOk result (λ e. effect_of e ≡ calls_target registry.now (running_of running.now) (call_of call.now) (target_of target.entry)) }
{
    let Some(args) = given_values(alloc, running.scene, &call.arguments)? else {
        return fails(alloc, registry, running, RuntimeCause::Range);
    };
    calls_with(alloc, registry, running, call, target, args)
}

/// A call whose arguments are worked out.
fn calls_with(
    alloc: Global,
    registry: &Registry,
    running: &Running,
    call: &Call,
    target: Target,
    args: Vec<Value>,
) -> Result<Effect, NoMemory>
    requires { IsSound registry.now }
    ensures { IfOk result (λ e. effect_of e ≡ calls_object registry.now (running_of running.now) (call_of call.now) (target_of target.entry) (identity_of (target_of target.entry)) (face_of (target_of target.entry)) (Some (map plain_of args.items))) }
{
    if let Some(cause) = why_unsent(running, target, &args) {
        drop(args);
        return fails(alloc, registry, running, cause);
    }
    makes_call(alloc, registry, call, target, args)
}

/// The call itself.
fn makes_call(
    alloc: Global,
    registry: &Registry,
    call: &Call,
    target: Target,
    args: Vec<Value>,
) -> Result<Effect, NoMemory>
    requires { IsSound registry.now }
    ensures { IfOk result (λ e. effect_of e ≡ calls (target_of target.entry) (number_in registry.now (face_of (target_of target.entry)) (callee_of call.now.callee)) (map plain_of args.items) (option_map (λ f. f.name) (option_map field_of call.now.to))) }
{
    let Ok(function) = number_in(alloc, registry, target.face(), &call.callee) else {
        drop(args);
        return Err(NoMemory);
    };
    let Ok(to) = name_of(&call.to) else {
        drop(args);
        return Err(NoMemory);
    };
    let Ok(target) = target.copy() else {
        drop(to);
        drop(args);
        return Err(NoMemory);
    };
    Ok(Effect::Calls {
        target,
        function,
        args,
        to,
    })
}

/// Why no call with these arguments is made.
fn why_unsent(running: &Running, target: Target, args: &[Value]) -> Option<RuntimeCause>
    ensures { (reg : List Entity) (number : ℕ) (e : Plain) → sent reg (running_of running.now) (identity_of (target_of target.entry)) (face_of (target_of target.entry)) number (map plain_of args.now) e ≡ unless reg (running_of running.now) result e }
{
    if is_full(running.depth) {
        return Some(RuntimeCause::Depth);
    }
    why_too_much(running.tid, target.oid(), target.face(), args)
}

/// Why a request with these arguments is not made: it weighs too much, or one of them is nested too deep.
pub fn why_too_much(tid: &Tid, oid: &str, face: &str, args: &[Value]) -> Option<RuntimeCause>
    ensures { (number : ℕ) → result ≡ too_much tid.now oid.now face.now number (map plain_of args.now) }
{
    if is_heavy(request_weight(tid, oid, face, args)) {
        return Some(RuntimeCause::TooLarge);
    }
    if has_deep(args) {
        return Some(RuntimeCause::TooDeep);
    }
    None
}

/// The weight of a request.
fn request_weight(tid: &Tid, oid: &str, face: &str, args: &[Value]) -> u64
    ensures { (number : ℕ) → result ≡ min (message_weight (request tid.now oid.now face.now number (map plain_of args.now))) (2 ^ 64 - 1) }
{
    heading_weight(tid, oid, face).saturating_add(weights(args))
}

/// The name of the variable that a result becomes.
fn name_of(to: &Option<Field>) -> Result<Option<Name>, NoMemory>
    ensures { IfOk result (λ name. name ≡ option_map (λ f. f.name) (option_map field_of to.now)) }
{
    let Some(field) = to else {
        return Ok(None);
    };
    Ok(Some(field.name.copy()?))
}

/// The values that go with a call: those of expressions, and of variables that go both ways; none where an operation has no result.
pub(crate) fn given_values(
    alloc: Global,
    scene: Scene,
    arguments: &[Argument],
) -> Result<Option<Vec<Value>>, NoMemory>
    ensures { IfOk result (λ xs. option_map (λ vs. map plain_of vs.items) xs ≡ given_values (scene_of scene.entry) (map argument_of arguments.now)) }
{
    let mut values = Vec::new(alloc);
    for argument in arguments {
        let Ok(is_given) = push_given(&mut values, alloc, scene, argument) else {
            drop(values);
            return Err(NoMemory);
        };
        if !is_given {
            drop(values);
            return Ok(None);
        }
    }
    Ok(Some(values))
}

/// Adds the value that goes with a call for one parameter, where one does; false where an operation in it has no result.
#[tactic(auto, unfolding(plan_model::specs::Calling::given_values))]
fn push_given(
    values: &mut Vec<Value>,
    alloc: Global,
    scene: Scene,
    argument: &Argument,
) -> Result<bool, NoMemory>
    ensures { IfOk result (λ ok. (args : List PlainArgument) → behind_all (map plain_of values.old.items) (given_values (scene_of scene.entry) (argument_of argument.now ∷ args)) ≡ (if ok then behind_all (map plain_of values.new.items) (given_values (scene_of scene.entry) args) else None)) }
{
    match argument {
        Argument::Into(expression) => {
            let Some(value) = value_of(expression, alloc, scene)? else {
                return Ok(false);
            };
            push_value(values, value)?;
            Ok(true)
        }
        Argument::Out(_) => Ok(true),
        Argument::Both(name) => {
            push_value(values, copy_of(alloc, scene.variables.get(name))?)?;
            Ok(true)
        }
    }
}

/// A query, which is a call of function 0 with the wanted interface.
#[tactic(auto, unfolding(plan_model::specs::Calling::query_effect))]
pub(crate) fn query_effect(
    alloc: Global,
    registry: &Registry,
    running: &Running,
    query: &Query,
) -> Result<Effect, NoMemory>
    requires { IsSound registry.now }
    ensures { IfOk result (λ e. effect_of e ≡ query_effect registry.now (running_of running.now) (query_of query.now)) }
{
    let target = object_of_word(running.scene, &query.target);
    if matches!(target, Target::Null) {
        return fails(alloc, registry, running, RuntimeCause::Null);
    }
    queries_target(alloc, registry, running, query, target)
}

/// A query of an object.
fn queries_target(
    alloc: Global,
    registry: &Registry,
    running: &Running,
    query: &Query,
    target: Target,
) -> Result<Effect, NoMemory>
    requires sound { IsSound registry.now }
    requires some { target_of target ≢ null }
    ensures { IfOk result (λ e. effect_of e ≡ queries_target registry.now (running_of running.now) (query_of query.now) (target_of target.entry)) }
{
    let args = wanted_type(alloc, query)?;
    queries_with(alloc, registry, running, query, target, args)
}

/// A query with its argument.
fn queries_with(
    alloc: Global,
    registry: &Registry,
    running: &Running,
    query: &Query,
    target: Target,
    args: Vec<Value>,
) -> Result<Effect, NoMemory>
    requires sound { IsSound registry.now }
    requires wanted { map plain_of args.items ≡ plain.kind (kd.interface query.now.wanted) ∷ [] }
    ensures { IfOk result (λ e. effect_of e ≡ queries_object registry.now (running_of running.now) (query_of query.now) (target_of target.entry) (identity_of (target_of target.entry)) (face_of (target_of target.entry))) }
{
    let why = why_unsent(running, target, &args);
    drop(args);
    match why {
        Some(cause) => fails(alloc, registry, running, cause),
        None => makes_query(query, target),
    }
}

/// The query itself.
fn makes_query(query: &Query, target: Target) -> Result<Effect, NoMemory>
    ensures { IfOk result (λ e. effect_of e ≡ queries (target_of target.entry) query.now.wanted query.now.to) }
{
    let wanted = query.wanted.copy()?;
    let Ok(to) = query.to.copy() else {
        drop(wanted);
        return Err(NoMemory);
    };
    let Ok(target) = target.copy() else {
        drop(wanted);
        drop(to);
        return Err(NoMemory);
    };
    Ok(Effect::Queries { target, wanted, to })
}

/// The argument of a query: the wanted interface.
fn wanted_type(alloc: Global, query: &Query) -> Result<Vec<Value>, NoMemory>
    ensures { IfOk result (λ xs. map plain_of xs.items ≡ plain.kind (kd.interface query.now.wanted) ∷ []) }
{
    let kind = TypeName::Interface(query.wanted.copy()?);
    let mut args = Vec::new(alloc);
    if let Err(error) = push_value(&mut args, Value::Kind(kind)) {
        drop(args);
        return Err(error);
    }
    Ok(args)
}
