//! How a frame ends: what leaves it, is returned or raised.
ghost use Rattle.std.specs.Prelude.{◌≡◌, ℕ, List, IfOk, map};
ghost use Rattle.message_model.specs.Messages.{returned, raised};
ghost use Rattle.plan_model.specs.Asking.{ending, ends_with, fails};
ghost use Rattle.plan_model.specs.Evaluation.{is_deep};
ghost use Rattle.plan_model.specs.Leaving.{caused, sendable, answer_depth};
ghost use Rattle.uno_model.specs.Kinds as kd;
ghost use Rattle.uno_model.specs.Sound.{IsSound};
ghost use Rattle.uno_values.specs.Values.{plain_of};
ghost use Rattle.behaviour.specs.Answers.{unless_caused};
ghost use Rattle.behaviour.specs.Effects.{effect_of};
ghost use Rattle.behaviour.specs.Running.{running_of};

use crate::Effect;
use crate::exceptions::{RUNTIME_EXCEPTION, caused, caused_value, exception_of};
use crate::leaving::leaving;
use crate::limits::{has_deep, is_deep, is_heavy, reply_weight};
use crate::running::Running;
use plan_types::RuntimeCause;
use std::alloc::Global;
use uno_base::NoMemory;
use uno_types::{Registry, Tid};
use uno_values::{Value, depth_of, weight, weights};

/// The frame ends with the exception of a cause.
pub(crate) fn fails(
    alloc: Global,
    registry: &Registry,
    running: &Running,
    cause: RuntimeCause,
) -> Result<Effect, NoMemory>
    requires { IsSound registry.now }
    ensures { IfOk result (λ e. effect_of e ≡ fails registry.now (running_of running.now) cause) }
{
    raises(
        alloc,
        registry,
        running,
        RUNTIME_EXCEPTION,
        caused_value(alloc, cause)?,
    )
}

/// The frame ends with an exception of this name, or the one that leaves it in its place.
pub(crate) fn raises(
    alloc: Global,
    registry: &Registry,
    running: &Running,
    name: &str,
    value: Value,
) -> Result<Effect, NoMemory>
    requires { IsSound registry.now }
    ensures { IfOk result (λ e. effect_of e ≡ ends_with registry.now (running_of running.now) (raised (kd.exception name.now) (plain_of value))) }
{
    let exception = exception_of(alloc, name, value)?;
    let leaves = leaving(alloc, registry, running.tid, &running.function, exception)?;
    Ok(Effect::Raises(leaves))
}

/// The frame ends with the exception of a cause, whatever it weighs.
fn raises_cause(alloc: Global, cause: RuntimeCause) -> Result<Effect, NoMemory>
    ensures { IfOk result (λ e. effect_of e ≡ ending (caused cause)) }
{
    Ok(Effect::Raises(caused(alloc, cause)?))
}

/// The frame ends with a result and the values of the parameters that come out, or with the exception that leaves it in their place.
#[tactic(auto, unfolding(plan_model::specs::Leaving::leaving))]
pub(crate) fn returns(
    alloc: Global,
    registry: &Registry,
    running: &Running,
    value: Value,
    outs: Vec<Value>,
) -> Result<Effect, NoMemory>
    ensures { IfOk result (λ e. effect_of e ≡ ends_with registry.now (running_of running.now) (returned (plain_of value) (map plain_of outs.items))) }
{
    if let Some(cause) = answer_excess(registry, running.tid, &value, &outs) {
        drop(value);
        drop(outs);
        return raises_cause(alloc, cause);
    }
    Ok(Effect::Returns { value, outs })
}

/// Why what is returned does not leave a frame as it is.
fn answer_excess(
    registry: &Registry,
    tid: &Tid,
    value: &Value,
    outs: &[Value],
) -> Option<RuntimeCause>
    ensures { (face : List ℕ) (number : ℕ) → sendable tid.now face number (returned (plain_of value.now) (map plain_of outs.now)) ≡ unless_caused result (returned (plain_of value.now) (map plain_of outs.now)) }
{
    let heavy = weight(registry, value).saturating_add(weights(outs));
    if is_heavy(reply_weight(tid, heavy)) {
        return Some(RuntimeCause::TooLarge);
    }
    if has_deep_answer(value, outs) {
        return Some(RuntimeCause::TooDeep);
    }
    None
}

/// Whether one of the values of an answer is nested deeper than it may be.
fn has_deep_answer(value: &Value, outs: &[Value]) -> bool
    ensures { result ≡ is_deep (answer_depth (returned (plain_of value.now) (map plain_of outs.now))) }
{
    if is_deep(depth_of(value)) {
        return true;
    }
    has_deep(outs)
}
