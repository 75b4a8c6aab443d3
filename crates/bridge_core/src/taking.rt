//! The outcome of a statement.
ghost use Rattle.std.specs.Prelude.{◌≡◌, ◌+◌, ◌-◌, ◌<◌, ◌≤◌, ◌^◌, Some, IfOk, IsSome, OnOk, map, option_map};
ghost use Rattle.std.specs.Vec.{vec_capacity, vec_len};
ghost use Rattle.bridge_model.specs.RootRuns.{line_of, outcome_text, takes_outcome, statement_at};
ghost use Rattle.bridge_model.specs.Roots.{outcome_in};
ghost use Rattle.bridge_model.specs.Sides.{Outcome as Plain, answer, state_of};
ghost use Rattle.bridge_endpoint.specs.Telling.{outcome_of};
ghost use Rattle.message_model.specs.Messages.{returned};
ghost use Rattle.named_variables.specs.Threads.{HasRoom};
ghost use Rattle.plan_model.specs.Statements.{RootStatement as Statement};
ghost use Rattle.plan_types.specs.Statements.{root_statement_of};
ghost use Rattle.uno_entities.specs.Entities.{field_of};
ghost use Rattle.uno_model.specs.Sound.{IsSound};
ghost use Rattle.uno_values.specs.Values.{plain_of};
ghost use Rattle.behaviour.specs.Roots.{run_of};
ghost use Rattle.root_runs.specs.Keeping.{KeepsLines};
ghost use Rattle.bridge_endpoint.specs.Journals.{setting_at, side_at};
ghost use Rattle.bridge_core.specs.Moving.{DoesAny, next_move};
ghost use Rattle.bridge_core.specs.Taking.{outs_of, result_name};

use crate::stepping::statement_at;
use behaviour::RootRun;
use bridge_endpoint::{Endpoint, Outcome};
use plan_types::RootStatement;
use root_runs::{
    disposed_text, line_with, loosen, over_with, raised_text, returned_text, take_outs, take_result,
};
use std::alloc::Global;
use uno_base::NoMemory;
use uno_types::{Field, Name, Registry, Text};
use uno_values::Value;

/// Takes the outcome of the statement: what is returned becomes variables, and its line is given.
pub(crate) fn take_outcome(end: &mut Endpoint, run: &mut RootRun) -> Result<bool, NoMemory>
    requires { IsSome (outcome_in (state_of run.old.root (side_at end.old).tables.roots)) }
    ensures { DoesAny (next_move end.old (run_of run.old)) end.old end.new (run_of run.old) (run_of run.new) result }
{
    if statement_at(end, run).is_none() {
        return Ok(false);
    }
    let (line, name) = prepare(end, run)?;
    let Some(outcome) = end.take(run.root) else {
        unreachable!()
    };
    let Some(statement) = statement_at(end, run) else {
        unreachable!()
    };
    becomes(run, statement, name, outcome);
    over_with(run, line);
    Ok(true)
}

/// The line of the outcome and the name that what is returned gets, with room for all.
fn prepare(end: &Endpoint, run: &mut RootRun) -> Result<(Text, Option<Name>), NoMemory>
    requires answered { IsSome (outcome_in (state_of run.old.root (side_at end.now).tables.roots)) }
    requires there { IsSome (statement_at (setting_at end.now) (run_of run.old)) }
    ensures line { (o : Plain) (s : Statement) → outcome_in (state_of run.old.root (side_at end.now).tables.roots) ≡ Some o → statement_at (setting_at end.now) (run_of run.old) ≡ Some s → IfOk result (λ p. p.0 ≡ line_of (run_of run.old) (outcome_text (setting_at end.now).registry s o)) }
    ensures name { (s : Statement) → statement_at (setting_at end.now) (run_of run.old) ≡ Some s → IfOk result (λ p. p.1 ≡ result_name s) }
    ensures same { run_of run.new ≡ run_of run.old }
    ensures place { OnOk result (run.new.place < 2 ^ 32 - 1) }
    ensures lines { OnOk result (vec_len run.new.lines < vec_capacity run.new.lines) }
    ensures variables { OnOk result (HasRoom run.new.variables) }
    ensures loose { (s : Statement) → statement_at (setting_at end.now) (run_of run.old) ≡ Some s → OnOk result (vec_len run.new.loose + (outs_of s + 1) ≤ vec_capacity run.new.loose) }
{
    if run.place == u32::MAX {
        return Err(NoMemory);
    }
    let Some(statement) = statement_at(end, run) else {
        unreachable!()
    };
    run.lines.reserve(1)?;
    run.variables.reserve()?;
    run.loose.reserve(outs_of(statement).saturating_add(1))?;
    let Some(outcome) = end.outcome(run.root) else {
        unreachable!()
    };
    let alloc = end.registry().allocator();
    let name = result_name(statement)?;
    match outcome_line(alloc, end.registry(), run, statement, outcome) {
        Ok(line) => Ok((line, name)),
        Err(NoMemory) => {
            drop(name);
            Err(NoMemory)
        }
    }
}

/// How many parameters may come out at most.
fn outs_of(statement: &RootStatement) -> usize
    ensures { result ≡ outs_of (root_statement_of statement.now) }
{
    match statement {
        RootStatement::Call(call) => call.arguments.len(),
        _ => 0,
    }
}

#[tactic(auto, unfolding(bridge_model::specs::RootRuns::outcome_text))]
fn outcome_line(
    alloc: Global,
    registry: &Registry,
    run: &RootRun,
    statement: &RootStatement,
    outcome: &Outcome,
) -> Result<Text, NoMemory>
    requires { IsSound registry.now }
    ensures { IfOk result (λ line. line ≡ line_of (run_of run.now) (outcome_text registry.now (root_statement_of statement.now) (outcome_of outcome.now))) }
{
    match outcome {
        Outcome::Returned { value, outs } => {
            let text = returned_text(alloc, registry, statement, value, outs)?;
            line_with(alloc, run, text.as_str())
        }
        Outcome::Raised(exception) => {
            let text = raised_text(alloc, registry, exception)?;
            line_with(alloc, run, text.as_str())
        }
        Outcome::Disposed(cause) => line_with(alloc, run, disposed_text(*cause)),
        Outcome::NoMemory => line_with(alloc, run, "no memory"),
    }
}

/// The name of the variable that the result becomes, where it has one.
fn result_name(statement: &RootStatement) -> Result<Option<Name>, NoMemory>
    ensures { IfOk result (λ name. name ≡ result_name (root_statement_of statement.now)) }
{
    match statement {
        RootStatement::Ask { to, .. } => Ok(Some(to.copy()?)),
        RootStatement::AskInstance { to, .. } => Ok(Some(to.copy()?)),
        RootStatement::Query(query) => Ok(Some(query.to.copy()?)),
        RootStatement::Call(call) => name_of(&call.to),
        _ => Ok(None),
    }
}

fn name_of(to: &Option<Field>) -> Result<Option<Name>, NoMemory>
    ensures { IfOk result (λ name. name ≡ option_map (λ f. f.name) (option_map field_of to.now)) }
{
    match to {
        Some(field) => Ok(Some(field.name.copy()?)),
        None => Ok(None),
    }
}

/// What is returned becomes variables; the references in an exception are loose. There is room for it.
#[tactic(auto, unfolding(bridge_model::specs::RootRuns::takes_outcome))]
fn becomes(run: &mut RootRun, statement: &RootStatement, name: Option<Name>, outcome: Outcome)
    requires name { name ≡ result_name (root_statement_of statement.now) }
    requires variables { HasRoom run.old.variables }
    requires loose { vec_len run.old.loose + (outs_of (root_statement_of statement.now) + 1) ≤ vec_capacity run.old.loose }
    ensures taken { run_of run.new ≡ takes_outcome (root_statement_of statement.now) (outcome_of outcome) (run_of run.old) }
    ensures lines { KeepsLines run.old run.new }
{
    match outcome {
        Outcome::Returned { value, outs } => becomes_returned(run, statement, name, value, outs),
        Outcome::Raised(exception) => {
            drop(name);
            loosen(run, exception.value);
        }
        Outcome::Disposed(_) | Outcome::NoMemory => drop(name),
    }
}

#[tactic(auto, unfolding(bridge_model::specs::RootRuns::takes_outcome))]
fn becomes_returned(
    run: &mut RootRun,
    statement: &RootStatement,
    name: Option<Name>,
    value: Value,
    outs: Vec<Value>,
)
    requires name { name ≡ result_name (root_statement_of statement.now) }
    requires variables { HasRoom run.old.variables }
    requires loose { vec_len run.old.loose + (outs_of (root_statement_of statement.now) + 1) ≤ vec_capacity run.old.loose }
    ensures taken { run_of run.new ≡ takes_outcome (root_statement_of statement.now) (answer (returned (plain_of value) (map plain_of outs.items))) (run_of run.old) }
    ensures lines { KeepsLines run.old run.new }
{
    match statement {
        RootStatement::Call(call) => {
            take_result(run, name, value);
            take_outs(run, &call.arguments, outs);
        }
        RootStatement::Ask { .. } | RootStatement::AskInstance { .. } | RootStatement::Query(_) => {
            drop(outs);
            take_result(run, name, value);
        }
        _ => {
            drop(value);
            drop(outs);
            drop(name);
        }
    }
}
