//! The methods of the service manager.
ghost use Rattle.std.specs.Prelude.{◌≡◌, IfOk, [], map};
ghost use Rattle.std.specs.Str.{bytes_eq};
ghost use Rattle.plan_model.specs.Effects.{manager_effect, text_of, elements_of, given, values_in};
ghost use Rattle.plan_model.specs.Asking as asked;
ghost use Rattle.plan_types.specs.Plans.{plan_of};
ghost use Rattle.type_registry.specs.Functions.{lent_function};
ghost use Rattle.uno_model.specs.Sound.{IsSound};
ghost use Rattle.uno_values.specs.Values.{plain_of, plains_of};
ghost use Rattle.behaviour.specs.Effects.{effect_of};
ghost use Rattle.behaviour.specs.Running.{running_of, scene_of, value_or_void};

use crate::Effect;
use crate::functions::is_named;
use crate::names::names_value;
use crate::running::{Running, Scene};
use crate::statements::{default_effect, returns_value};
use plan_types::Plan;
use std::alloc::Global;
use type_registry::FunctionRef;
use uno_base::NoMemory;
use uno_types::{Registry, Text};
use uno_values::{Value, copy_all};

const CREATE: &str = "createInstance";

const CREATE_WITH_ARGUMENTS: &str = "createInstanceWithArguments";

const AVAILABLE_NAMES: &str = "getAvailableServiceNames";

/// The effect of a method of the service manager.
#[tactic(auto, unfolding(plan_model::specs::Effects::manager_effect))]
pub(crate) fn manager_effect(
    alloc: Global,
    registry: &Registry,
    plan: &Plan,
    running: &Running,
) -> Result<Effect, NoMemory>
    requires { IsSound registry.now }
    ensures { IfOk result (λ e. effect_of e ≡ manager_effect registry.now (plan_of plan.now) (running_of running.now)) }
{
    if is_called(&running.function, CREATE) {
        return creates_alone(alloc, running.scene);
    }
    if is_called(&running.function, CREATE_WITH_ARGUMENTS) {
        return creates(alloc, running.scene);
    }
    if is_called(&running.function, AVAILABLE_NAMES) {
        let names = names_value(alloc, registry, plan)?;
        return returns_value(alloc, registry, running, names);
    }
    default_effect(alloc, registry, running)
}

/// Whether a function is the one of this name.
fn is_called(function: &FunctionRef, name: &str) -> bool
    ensures { result ≡ bytes_eq (lent_function function.now).name name.now }
{
    is_named(function, name)
}

/// A service is asked for by the first argument.
fn creates_alone(alloc: Global, scene: Scene) -> Result<Effect, NoMemory>
    ensures { IfOk result (λ e. effect_of e ≡ asked.creates (text_of (given 0 (scene_of scene.entry))) []) }
{
    let name = text_of(alloc, given(0, scene))?;
    Ok(Effect::Creates {
        name,
        args: Vec::new(alloc),
    })
}

/// The same, from the elements of the second argument.
fn creates(alloc: Global, scene: Scene) -> Result<Effect, NoMemory>
    ensures { IfOk result (λ e. effect_of e ≡ asked.creates (text_of (given 0 (scene_of scene.entry))) (elements_of (given 1 (scene_of scene.entry)))) }
{
    let name = text_of(alloc, given(0, scene))?;
    let Ok(args) = elements_of(alloc, given(1, scene)) else {
        drop(name);
        return Err(NoMemory);
    };
    Ok(Effect::Creates { name, args })
}

/// The value of the parameter at a place.
fn given(place: usize, scene: Scene<'_>) -> Option<&Value>
    ensures { value_or_void result ≡ given place (scene_of scene.entry) }
{
    let Some(variable) = scene.variables.as_slice().get(place) else {
        return None;
    };
    Some(&variable.value)
}

/// A text; what is no text is as an empty one.
fn text_of(alloc: Global, value: Option<&Value>) -> Result<Text, NoMemory>
    ensures { IfOk result (λ text. text ≡ text_of (value_or_void value.entry)) }
{
    let Some(value) = value else {
        return Text::of(alloc, "");
    };
    let Value::Str(text) = value else {
        return Text::of(alloc, "");
    };
    text.copy()
}

/// The elements of a sequence; what is none has none.
fn elements_of(alloc: Global, value: Option<&Value>) -> Result<Vec<Value>, NoMemory>
    ensures { IfOk result (λ xs. map plain_of xs.items ≡ elements_of (value_or_void value.entry)) }
{
    let Some(value) = value else {
        return Ok(Vec::new(alloc));
    };
    let Value::List(_, elements) = value else {
        return Ok(Vec::new(alloc));
    };
    copy_elements(alloc, elements)
}

/// Copies of the elements of a sequence.
fn copy_elements(alloc: Global, elements: &[Value]) -> Result<Vec<Value>, NoMemory>
    ensures { IfOk result (λ copies. map plain_of copies.items ≡ values_in (plains_of elements.now)) }
{
    copy_all(elements, alloc)
}
