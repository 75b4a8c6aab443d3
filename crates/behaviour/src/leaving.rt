//! What leaves a frame that an exception ends.
ghost use Rattle.std.specs.Prelude.{◌≡◌, ◌++◌, ℕ, List, IfOk, codes, string_bytes};
ghost use Rattle.message_model.specs.Calls.{may_raise};
ghost use Rattle.plan_model.specs.Frames.{Body};
ghost use Rattle.plan_model.specs.Leaving.{runtime_raised, as_declared, sendable, leaving, leaving_frame};
ghost use Rattle.type_registry.specs.Functions.{lent_function};
ghost use Rattle.uno_entities.specs.TypeNames.{kind_of};
ghost use Rattle.uno_model.specs.Kinds.{name_of};
ghost use Rattle.uno_model.specs.Sound.{IsSound};
ghost use Rattle.behaviour.specs.Answers.{raised_of, unless_caused};

use crate::exceptions::{RUNTIME_EXCEPTION, caused, exception_of, may_raise, undeclared_value};
use crate::limits::{is_deep, is_heavy, reply_weight};
use plan_types::RuntimeCause;
use std::alloc::Global;
use type_registry::{FunctionRef, function_numbered};
use uno_base::NoMemory;
use uno_types::{Name, Registry, Tid, TypeName};
use uno_values::{AnyValue, any_weight, depth_of};

/// What leaves a method of this thread that an exception ends: the exception, or a RuntimeException in its place where the function may not raise it, where
/// its reply would weigh too much, or where it is nested too deep. A number that the interface has not changes nothing.
pub fn leaving_exception(
    alloc: Global,
    registry: &Registry,
    tid: &Tid,
    face: &Name,
    function: u16,
    exception: AnyValue,
) -> Result<AnyValue, NoMemory>
    requires { IsSound registry.now }
    ensures { IfOk result (λ x. (b : Body) → b.face ≡ face.now → b.function ≡ function → raised_of x ≡ leaving_frame registry.now tid.now b (raised_of exception)) }
{
    match function_numbered(registry, face.as_str(), function) {
        Some(function) => leaving(alloc, registry, tid, &function, exception),
        None => Ok(exception),
    }
}

/// What leaves the frame of a function, under whatever interface and number it was called.
#[tactic(auto, unfolding(plan_model::specs::Leaving::leaving))]
pub(crate) fn leaving(
    alloc: Global,
    registry: &Registry,
    tid: &Tid,
    function: &FunctionRef,
    exception: AnyValue,
) -> Result<AnyValue, NoMemory>
    requires { IsSound registry.now }
    ensures { IfOk result (λ x. (face : List ℕ) (number : ℕ) → raised_of x ≡ leaving registry.now tid.now face number (lent_function function.now) (raised_of exception)) }
{
    let declared = as_declared(alloc, registry, function, exception)?;
    sendable(alloc, tid, declared)
}

/// The exception, or one with the name of its type where the function may not raise it.
fn as_declared(
    alloc: Global,
    registry: &Registry,
    function: &FunctionRef,
    exception: AnyValue,
) -> Result<AnyValue, NoMemory>
    requires { IsSound registry.now }
    ensures { IfOk result (λ x. raised_of x ≡ as_declared registry.now (lent_function function.now) (raised_of exception)) }
{
    if may_raise(registry, function, &exception.kind) {
        return Ok(exception);
    }
    let other = undeclared(alloc, &exception.kind);
    drop(exception);
    other
}

/// The RuntimeException in the place of what a function may not raise.
fn undeclared(alloc: Global, kind: &TypeName) -> Result<AnyValue, NoMemory>
    ensures { IfOk result (λ x. raised_of x ≡ runtime_raised (codes "undeclared " ++ name_of (kind_of kind.now))) }
{
    let name = type_name(alloc, kind)?;
    let value = undeclared_value(alloc, name.as_str());
    drop(name);
    exception_of(alloc, RUNTIME_EXCEPTION, value?)
}

/// The name of a type.
fn type_name(alloc: Global, kind: &TypeName) -> Result<String, NoMemory>
    ensures { IfOk result (λ name. string_bytes name ≡ name_of (kind_of kind.now)) }
{
    let mut name = String::new(alloc);
    let mut kind = kind;
    while let TypeName::Sequence(inner) = kind {
        let Ok(()) = name.push_str("[]") else {
            drop(name);
            return Err(NoMemory);
        };
        kind = inner;
    }
    let Ok(()) = name.push_str(kind.front()) else {
        drop(name);
        return Err(NoMemory);
    };
    Ok(name)
}

/// The exception, or the one of the limit that it passes.
fn sendable(alloc: Global, tid: &Tid, exception: AnyValue) -> Result<AnyValue, NoMemory>
    ensures { IfOk result (λ x. (face : List ℕ) (number : ℕ) → raised_of x ≡ sendable tid.now face number (raised_of exception)) }
{
    if let Some(cause) = exception_excess(tid, &exception) {
        drop(exception);
        return caused(alloc, cause);
    }
    Ok(exception)
}

/// Why an exception does not leave a frame as it is.
fn exception_excess(tid: &Tid, exception: &AnyValue) -> Option<RuntimeCause>
    ensures { (face : List ℕ) (number : ℕ) → sendable tid.now face number (raised_of exception.now) ≡ unless_caused result (raised_of exception.now) }
{
    if is_heavy(reply_weight(tid, any_weight(exception))) {
        return Some(RuntimeCause::TooLarge);
    }
    if is_deep(depth_of(&exception.value).saturating_add(1)) {
        return Some(RuntimeCause::TooDeep);
    }
    None
}
