//! The effects of the statements of a method.
ghost use Rattle.std.specs.Prelude.{◌≡◌, IfOk, option_map, if◌then◌else◌};
ghost use Rattle.plan_model.specs.Asking.{returns_value, skips};
ghost use Rattle.plan_model.specs.Effects.{return_effect, default_effect, let_effect, set_effect, set_field_effect, when_effect, raise_effect, make_effect, statement_effect};
ghost use Rattle.plan_model.specs.Evaluation.{compares, value_of_word};
ghost use Rattle.plan_types.specs.Expressions.{expression_of, word_of};
ghost use Rattle.plan_types.specs.Statements.{making_of, test_of, statement_of};
ghost use Rattle.uno_model.specs.Sound.{IsSound};
ghost use Rattle.uno_values.specs.Values.{plain_of};
ghost use Rattle.behaviour.specs.Effects.{effect_of};
ghost use Rattle.behaviour.specs.Running.{running_of, scene_of, value_or_void};

use crate::Effect;
use crate::calling::{call_effect, query_effect};
use crate::comparison::compares;
use crate::ending::{fails, raises, returns};
use crate::evaluation::evaluated;
use crate::functions::{default_outs, default_result, out_values};
use crate::running::{Running, Scene};
use crate::words::{own_object, value_under};
use plan_types::{Comparison, Expression, Making, Statement, Test, Variable, Word};
use std::alloc::Global;
use uno_base::NoMemory;
use uno_types::{Name, Registry};
use uno_values::Value;

/// The effect of a statement.
#[tactic(auto, unfolding(plan_model::specs::Effects::statement_effect))]
pub(crate) fn statement_effect(
    alloc: Global,
    registry: &Registry,
    running: &Running,
    statement: &Statement,
) -> Result<Effect, NoMemory>
    requires { IsSound registry.now }
    ensures { IfOk result (λ e. effect_of e ≡ statement_effect registry.now (running_of running.now) (statement_of statement.now)) }
{
    match statement {
        Statement::Let(field, value) => let_effect(alloc, registry, running, &field.name, value),
        Statement::SetVariable(name, value) => set_effect(alloc, registry, running, name, value),
        Statement::SetField(name, value) => {
            set_field_effect(alloc, registry, running, name, value)
        }
        Statement::Call(call) => call_effect(alloc, registry, running, call),
        Statement::Query(query) => query_effect(alloc, registry, running, query),
        Statement::Make(making) => make_effect(making),
        Statement::Drop(name) => Ok(Effect::Drops(name.copy()?)),
        Statement::When(test, back) => when_effect(alloc, registry, running, test, back),
        Statement::Return(back) => return_effect(alloc, registry, running, back),
        Statement::Raise(name, value) => raise_effect(alloc, registry, running, name, value),
        Statement::Dispose => Ok(Effect::Disposes),
    }
}

/// A variable begins.
#[tactic(auto, unfolding(plan_model::specs::Effects::let_effect))]
fn let_effect(
    alloc: Global,
    registry: &Registry,
    running: &Running,
    name: &Name,
    value: &Expression,
) -> Result<Effect, NoMemory>
    requires { IsSound registry.now }
    ensures { IfOk result (λ e. effect_of e ≡ let_effect registry.now (running_of running.now) name.now (expression_of value.now)) }
{
    match evaluated(alloc, registry, running.scene, value)? {
        Ok(value) => Ok(Effect::Lets(variable(name, value)?)),
        Err(cause) => fails(alloc, registry, running, cause),
    }
}

/// A variable gets another value.
#[tactic(auto, unfolding(plan_model::specs::Effects::set_effect))]
fn set_effect(
    alloc: Global,
    registry: &Registry,
    running: &Running,
    name: &Name,
    value: &Expression,
) -> Result<Effect, NoMemory>
    requires { IsSound registry.now }
    ensures { IfOk result (λ e. effect_of e ≡ set_effect registry.now (running_of running.now) name.now (expression_of value.now)) }
{
    match evaluated(alloc, registry, running.scene, value)? {
        Ok(value) => Ok(Effect::Sets(variable(name, value)?)),
        Err(cause) => fails(alloc, registry, running, cause),
    }
}

/// A field of the own object gets another value.
#[tactic(auto, unfolding(plan_model::specs::Effects::set_field_effect))]
fn set_field_effect(
    alloc: Global,
    registry: &Registry,
    running: &Running,
    name: &Name,
    value: &Expression,
) -> Result<Effect, NoMemory>
    requires { IsSound registry.now }
    ensures { IfOk result (λ e. effect_of e ≡ set_field_effect registry.now (running_of running.now) name.now (expression_of value.now)) }
{
    match evaluated(alloc, registry, running.scene, value)? {
        Ok(value) => Ok(Effect::SetsField(variable(name, value)?)),
        Err(cause) => fails(alloc, registry, running, cause),
    }
}

fn variable(name: &Name, value: Value) -> Result<Variable, NoMemory>
    ensures { IfOk result (λ x. (x.name ≡ name.now) × (plain_of x.value ≡ plain_of value)) }
{
    let Ok(name) = name.copy() else {
        drop(value);
        return Err(NoMemory);
    };
    Ok(Variable { name, value })
}

/// A new object.
fn make_effect(making: &Making) -> Result<Effect, NoMemory>
    ensures { IfOk result (λ e. effect_of e ≡ make_effect (making_of making.now)) }
{
    let face = making.face.copy()?;
    let Ok(to) = making.to.copy() else {
        drop(face);
        return Err(NoMemory);
    };
    Ok(Effect::Makes {
        behaviour: making.behaviour,
        face,
        to,
    })
}

/// What is returned is worked out only where the test holds.
#[tactic(auto, unfolding(plan_model::specs::Effects::when_effect))]
fn when_effect(
    alloc: Global,
    registry: &Registry,
    running: &Running,
    test: &Test,
    back: &Option<Expression>,
) -> Result<Effect, NoMemory>
    requires { IsSound registry.now }
    ensures { IfOk result (λ e. effect_of e ≡ when_effect registry.now (running_of running.now) (test_of test.now) (option_map expression_of back.now)) }
{
    match evaluated(alloc, registry, running.scene, &test.right)? {
        Ok(right) => returns_where(alloc, registry, running, test, right, back),
        Err(cause) => fails(alloc, registry, running, cause),
    }
}

/// The frame ends where a test holds of this value.
fn returns_where(
    alloc: Global,
    registry: &Registry,
    running: &Running,
    test: &Test,
    right: Value,
    back: &Option<Expression>,
) -> Result<Effect, NoMemory>
    requires { IsSound registry.now }
    ensures { IfOk result (λ e. effect_of e ≡ (if compares test.now.comparison (value_of_word (scene_of running.now.scene) (word_of test.now.left)) (plain_of right) then return_effect registry.now (running_of running.now) (option_map expression_of back.now) else skips)) }
{
    let holds = holds(running.scene, test, &right);
    drop(right);
    if !holds? {
        return Ok(Effect::Skips);
    }
    return_effect(alloc, registry, running, back)
}

/// Whether a test holds of what its word stands for and of this value.
fn holds(scene: Scene, test: &Test, right: &Value) -> Result<bool, NoMemory>
    ensures { IfOk result (λ holds. holds ≡ compares test.now.comparison (value_of_word (scene_of scene.entry) (word_of test.now.left)) (plain_of right.now)) }
{
    match &test.left {
        Word::Variable(name) => Ok(holds_of(test.comparison, scene.variables.get(name), right)),
        Word::Field(name) => Ok(holds_of(test.comparison, value_under(name, scene.fields), right)),
        Word::Own => {
            let own = Value::Ref(own_object(scene)?);
            let holds = compares(test.comparison, &own, right);
            drop(own);
            Ok(holds)
        }
    }
}

/// Whether a value that may not be there compares with another one as a test asks.
fn holds_of(comparison: Comparison, left: Option<&Value>, right: &Value) -> bool
    ensures { result ≡ compares comparison (value_or_void left.entry) (plain_of right.now) }
{
    match left {
        Some(left) => compares(comparison, left, right),
        None => compares(comparison, &Value::Void, right),
    }
}

/// The frame ends and returns what is asked for.
#[tactic(auto, unfolding(plan_model::specs::Effects::return_effect))]
pub(crate) fn return_effect(
    alloc: Global,
    registry: &Registry,
    running: &Running,
    back: &Option<Expression>,
) -> Result<Effect, NoMemory>
    requires { IsSound registry.now }
    ensures { IfOk result (λ e. effect_of e ≡ return_effect registry.now (running_of running.now) (option_map expression_of back.now)) }
{
    let Some(back) = back else {
        return returns_value(alloc, registry, running, Value::Void);
    };
    match evaluated(alloc, registry, running.scene, back)? {
        Ok(value) => returns_value(alloc, registry, running, value),
        Err(cause) => fails(alloc, registry, running, cause),
    }
}

/// The frame ends and returns a value, with those of the parameters that come out.
pub(crate) fn returns_value(
    alloc: Global,
    registry: &Registry,
    running: &Running,
    value: Value,
) -> Result<Effect, NoMemory>
    ensures { IfOk result (λ e. effect_of e ≡ returns_value registry.now (running_of running.now) (plain_of value)) }
{
    let Ok(outs) = out_values(alloc, &running.function, running.scene.variables.as_slice()) else {
        drop(value);
        return Err(NoMemory);
    };
    returns(alloc, registry, running, value, outs)
}

/// The frame ends with an exception of this name.
#[tactic(auto, unfolding(plan_model::specs::Effects::raise_effect))]
fn raise_effect(
    alloc: Global,
    registry: &Registry,
    running: &Running,
    name: &Name,
    value: &Expression,
) -> Result<Effect, NoMemory>
    requires { IsSound registry.now }
    ensures { IfOk result (λ e. effect_of e ≡ raise_effect registry.now (running_of running.now) name.now (expression_of value.now)) }
{
    match evaluated(alloc, registry, running.scene, value)? {
        Ok(value) => raises(alloc, registry, running, name.as_str(), value),
        Err(cause) => fails(alloc, registry, running, cause),
    }
}

/// A function that no method is written for returns the defaults of its result and of the parameters that come out.
#[tactic(auto, unfolding(plan_model::specs::Effects::default_effect))]
pub(crate) fn default_effect(
    alloc: Global,
    registry: &Registry,
    running: &Running,
) -> Result<Effect, NoMemory>
    requires { IsSound registry.now }
    ensures { IfOk result (λ e. effect_of e ≡ default_effect registry.now (running_of running.now)) }
{
    let outs = default_outs(alloc, registry, &running.function)?;
    let Ok(value) = default_result(alloc, registry, &running.function) else {
        drop(outs);
        return Err(NoMemory);
    };
    returns(alloc, registry, running, value, outs)
}
