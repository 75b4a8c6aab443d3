//! The effect of a job.
ghost use Rattle.std.specs.Prelude.{◌≡◌, IfOk, map, slice_get};
ghost use Rattle.plan_model.specs.Effects.{effect, function_effect, body_effect, method_effect, method_for, methods_of, running, place_effect};
ghost use Rattle.plan_types.specs.Frames.{job_of, body_of};
ghost use Rattle.plan_types.specs.Plans.{plan_of, method_of, behaviour_of};
ghost use Rattle.type_registry.specs.Functions.{lent_function};
ghost use Rattle.uno_model.specs.Sound.{IsSound};
ghost use Rattle.behaviour.specs.Effects.{effect_of};
ghost use Rattle.behaviour.specs.Functions.{is_written_for};
ghost use Rattle.behaviour.specs.Running.{running_of, method_there};

use crate::functions::is_named;
use crate::manager::manager_effect;
use crate::running::{Running, Scene, Target, Variables};
use crate::statements::{default_effect, return_effect, statement_effect};
use crate::{Done, Effect};
use plan_types::{Body, Frame, Job, Method, Plan};
use std::alloc::Global;
use type_registry::{FunctionRef, function_numbered};
use uno_base::NoMemory;
use uno_types::Registry;

/// A job, and what its next statement asks.
pub fn next(alloc: Global, plan: &Plan, registry: &Registry, job: Job) -> Result<Done, NoMemory>
    requires { IsSound registry.now }
    ensures same { IfOk result (λ d. job_of d.job ≡ job_of job) }
    ensures asks { IfOk result (λ d. effect_of d.effect ≡ effect (plan_of plan.now) registry.now (job_of job)) }
{
    let Ok(effect) = effect_of_job(alloc, plan, registry, &job) else {
        drop(job);
        return Err(NoMemory);
    };
    Ok(Done { job, effect })
}

/// What the next statement of a job asks; a job whose frame is no method asks nothing. Nothing is carried out.
#[tactic(auto, unfolding(plan_model::specs::Effects::effect, message_model::specs::Calls::numbered))]
pub fn effect_of_job(
    alloc: Global,
    plan: &Plan,
    registry: &Registry,
    job: &Job,
) -> Result<Effect, NoMemory>
    requires { IsSound registry.now }
    ensures { IfOk result (λ e. effect_of e ≡ effect (plan_of plan.now) registry.now (job_of job.now)) }
{
    let Frame::Body(body) = &job.frame else {
        return Ok(Effect::Skips);
    };
    let Some(function) = function_numbered(registry, body.face.as_str(), body.function) else {
        return Ok(Effect::Skips);
    };
    body_effect(
        alloc,
        registry,
        plan,
        job.behaviour,
        body.place,
        &running(job, body, function),
    )
}

/// The frame as its statements see it; the own object stands under the interface that declares the function.
fn running<'a>(job: &'a Job, body: &'a Body, function: FunctionRef<'a>) -> Running<'a>
    ensures { running_of result ≡ running (job_of job.now) (body_of body.now) (lent_function function.entry) }
{
    Running {
        tid: &job.tid,
        face: &body.face,
        number: body.function,
        function,
        depth: job.depth,
        scene: Scene {
            variables: Variables::Frame(&body.variables),
            fields: &job.fields,
            own: Target::Local {
                oid: &job.own,
                face: function.owner(),
            },
        },
    }
}

/// The number that stands for the service manager in the place of a behaviour's.
const MANAGER: u32 = 256;

/// The effect of a method at a place.
#[tactic(auto, unfolding(plan_model::specs::Effects::body_effect, plan_model::specs::Plans::manager))]
fn body_effect(
    alloc: Global,
    registry: &Registry,
    plan: &Plan,
    behaviour: u32,
    place: u32,
    running: &Running,
) -> Result<Effect, NoMemory>
    requires { IsSound registry.now }
    ensures { IfOk result (λ e. effect_of e ≡ body_effect registry.now (plan_of plan.now) behaviour place (running_of running.now)) }
{
    if behaviour == MANAGER {
        return manager_effect(alloc, registry, plan, running);
    }
    match method_of(plan, behaviour, &running.function) {
        Some(method) => place_effect(alloc, registry, running, method, place),
        None => default_effect(alloc, registry, running),
    }
}

/// The method that a behaviour has for a function, where it is written.
pub fn method_of<'a>(plan: &'a Plan, behaviour: u32, function: &FunctionRef) -> Option<&'a Method>
    ensures { method_there result ≡ method_for (lent_function function.now) (methods_of (slice_get (plan_of plan.now).behaviours behaviour)) }
{
    method_for(function, methods_of(plan, behaviour))
}

/// The methods of a behaviour by its number.
fn methods_of(plan: &Plan, behaviour: u32) -> &[Method]
    ensures { map method_of result.now ≡ methods_of (slice_get (plan_of plan.now).behaviours behaviour) }
{
    match plan.behaviours.get(behaviour as usize) {
        Some(behaviour) => &behaviour.methods,
        None => &[],
    }
}

/// The method that is written for a function.
fn method_for<'a>(function: &FunctionRef, methods: &'a [Method]) -> Option<&'a Method>
    ensures { method_there result ≡ method_for (lent_function function.now) (map method_of methods.now) }
{
    for method in methods {
        if is_written_for(method, function) {
            return Some(method);
        }
    }
    None
}

fn is_written_for(method: &Method, function: &FunctionRef) -> bool
    ensures { result ≡ is_written_for (lent_function function.now) (method_of method.now) }
{
    if method.face.as_str() != function.owner().as_str() {
        return false;
    }
    is_named(function, method.function.as_str())
}

/// The effect of the statement at a place; behind its last statement a method returns without a result.
fn place_effect(
    alloc: Global,
    registry: &Registry,
    running: &Running,
    method: &Method,
    place: u32,
) -> Result<Effect, NoMemory>
    requires { IsSound registry.now }
    ensures { IfOk result (λ e. effect_of e ≡ place_effect registry.now (running_of running.now) (slice_get (method_of method.now).body place)) }
{
    match method.body.get(place as usize) {
        Some(statement) => statement_effect(alloc, registry, running, statement),
        None => return_effect(alloc, registry, running, &None),
    }
}
