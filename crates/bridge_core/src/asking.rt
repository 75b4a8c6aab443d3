//! What a statement asks of the endpoint.
ghost use Rattle.std.specs.Prelude.{◌≡◌, ◌<◌, ◌^◌, ℕ, IfOk, [], map};
ghost use Rattle.std.specs.Option.{unwrap_or};
ghost use Rattle.bridge_model.specs.Entries.{asked, called};
ghost use Rattle.bridge_model.specs.RootRuns.{begins_statement, calls_on, queries_on};
ghost use Rattle.bridge_model.specs.Settings.{Setting};
ghost use Rattle.bridge_model.specs.Sides.{Side};
ghost use Rattle.named_variables.specs.Threads.{all_of};
ghost use Rattle.plan_model.specs.Calling.{given_values, number_in, object_of};
ghost use Rattle.plan_model.specs.Evaluation.{value_of_word};
ghost use Rattle.plan_types.specs.Expressions.{argument_of, word_of};
ghost use Rattle.plan_types.specs.Frames.{variables_of};
ghost use Rattle.plan_types.specs.Statements.{call_of, callee_of, query_of, root_statement_of};
ghost use Rattle.uno_model.specs.Sound.{IsSound};
ghost use Rattle.uno_values.specs.Values.{plain_of};
ghost use Rattle.behaviour.specs.Roots.{run_of};
ghost use Rattle.behaviour.specs.Running.{root_scene};
ghost use Rattle.bridge_core.specs.Asking.{HasSmallNumber, IsAsking, IsSmallNumber, asks, entry_of};

use behaviour::{RootRun, Target, number_in, root_target, root_values};
use named_variables::ThreadVariables;
use plan_types::{Call, Query, RootStatement};
use std::alloc::Global;
use uno_base::NoMemory;
use uno_types::{Name, Registry, Text};
use uno_values::Value;

/// What is asked, with all that goes with it: the peer's object of a name, a call, or an object for another interface.
#[derive(Drop)]
pub(crate) enum Asked {
    Name {
        name: Text,
        wanted: Name,
    },
    Call {
        oid: Text,
        face: Name,
        function: u16,
        args: Vec<Value>,
    },
    Query {
        oid: Text,
        face: Name,
        wanted: Name,
    },
}

/// What a statement asks that asks something; none where its target is null.
#[tactic(auto, unfolding(bridge_model::specs::RootRuns::begins_statement, plan_model::specs::Roots::asked_name))]
pub(crate) fn asked_by(
    alloc: Global,
    registry: &Registry,
    run: &RootRun,
    statement: &RootStatement,
) -> Result<Option<Asked>, NoMemory>
    requires sound { IsSound registry.now }
    requires asking { IsAsking (root_statement_of statement.now) }
    requires small { HasSmallNumber registry.now (run_of run.now) (root_statement_of statement.now) }
    ensures { (g : Setting) (s : Side) → g.registry ≡ registry.now → IfOk result (λ a. begins_statement g s (run_of run.now) (root_statement_of statement.now) ≡ asks s (run_of run.now) a) }
{
    match statement {
        RootStatement::Ask {
            wanted,
            name,
            to: _,
        } => Ok(Some(asks_name(name, wanted)?)),
        RootStatement::AskInstance { wanted, to: _ } => {
            Ok(Some(asks_name(&run.instance, wanted)?))
        }
        RootStatement::Call(call) => asks_call(alloc, registry, run, call),
        RootStatement::Query(query) => asks_query(run, query),
        RootStatement::Make(_) => unreachable!(),
        RootStatement::Drop(_) => unreachable!(),
        RootStatement::Same(_, _) => unreachable!(),
        RootStatement::Dispose => unreachable!(),
    }
}

fn asks_name(name: &Text, wanted: &Name) -> Result<Asked, NoMemory>
    ensures { IfOk result (λ a. (root : ℕ) → entry_of root a ≡ asked root name.now wanted.now) }
{
    Ok(Asked::Name {
        name: name.copy()?,
        wanted: wanted.copy()?,
    })
}

/// A call of the object that a word stands for.
fn asks_call(
    alloc: Global,
    registry: &Registry,
    run: &RootRun,
    call: &Call,
) -> Result<Option<Asked>, NoMemory>
    requires sound { IsSound registry.now }
    requires small { IsSmallNumber registry.now (call_of call.now) (object_of (value_of_word (root_scene (variables_of (all_of run.now.variables))) (word_of call.now.target))) }
    ensures { (s : Side) → IfOk result (λ a. calls_on registry.now s (run_of run.now) (call_of call.now) (object_of (value_of_word (root_scene (variables_of (all_of run.now.variables))) (word_of call.now.target))) ≡ asks s (run_of run.now) a) }
{
    match root_target(&run.variables, &call.target) {
        Target::Null => Ok(None),
        Target::Local { oid, face } => Ok(Some(calls(
            alloc,
            registry,
            &run.variables,
            call,
            oid,
            face,
        )?)),
        Target::Remote { oid, face } => Ok(Some(calls(
            alloc,
            registry,
            &run.variables,
            call,
            oid,
            face,
        )?)),
    }
}

/// A call of an object. Where a value cannot be worked out, none goes with it.
fn calls(
    alloc: Global,
    registry: &Registry,
    variables: &ThreadVariables,
    call: &Call,
    oid: &Text,
    face: &Name,
) -> Result<Asked, NoMemory>
    requires sound { IsSound registry.now }
    requires small { number_in registry.now face.now (callee_of call.now.callee) < 2 ^ 16 }
    ensures { IfOk result (λ a. (root : ℕ) → entry_of root a ≡ called root oid.now face.now (number_in registry.now face.now (call_of call.now).callee) (unwrap_or (given_values (root_scene (variables_of (all_of variables.now))) (call_of call.now).arguments) [])) }
{
    let number = number_in(alloc, registry, face.as_str(), &call.callee)?;
    Ok(Asked::Call {
        oid: oid.copy()?,
        face: face.copy()?,
        function: number as u16,
        args: values(alloc, variables, call)?,
    })
}

fn values(alloc: Global, variables: &ThreadVariables, call: &Call) -> Result<Vec<Value>, NoMemory>
    ensures { IfOk result (λ xs. map plain_of xs.items ≡ unwrap_or (given_values (root_scene (variables_of (all_of variables.now))) (map argument_of call.now.arguments.items)) []) }
{
    match root_values(alloc, variables, &call.arguments)? {
        Some(values) => Ok(values),
        None => Ok(Vec::new(alloc)),
    }
}

fn asks_query(run: &RootRun, query: &Query) -> Result<Option<Asked>, NoMemory>
    ensures { (s : Side) → IfOk result (λ a. queries_on s (run_of run.now) (query_of query.now) (object_of (value_of_word (root_scene (variables_of (all_of run.now.variables))) (word_of query.now.target))) ≡ asks s (run_of run.now) a) }
{
    match root_target(&run.variables, &query.target) {
        Target::Null => Ok(None),
        Target::Local { oid, face } | Target::Remote { oid, face } => Ok(Some(Asked::Query {
            oid: oid.copy()?,
            face: face.copy()?,
            wanted: query.wanted.copy()?,
        })),
    }
}
