//! What the next statement of a root begins.
ghost use Rattle.std.specs.Prelude.{◌≡◌, ◌≢◌, ◌-◌, ◌<◌, ◌^◌, [], true, false, Some, IsSome, OnErr, OnOk, codes, is_ok};
ghost use Rattle.std.specs.Vec.{vec_capacity, vec_len};
ghost use Rattle.bridge_model.specs.Answers as answers;
ghost use Rattle.bridge_model.specs.Answers.{begun};
ghost use Rattle.bridge_model.specs.RootRuns.{begins, begins_statement, disposes, drops, goes_over, is_skipped, line_of, next_statement, same_text, statement_at};
ghost use Rattle.bridge_model.specs.Sides.{idle, stands, state_of};
ghost use Rattle.bridge_model.specs.Steps.{has_entries, is_root, may, may_begin};
ghost use Rattle.bridge_laws.specs.Giving.{MayGive};
ghost use Rattle.named_variables.specs.Threads.{all_of};
ghost use Rattle.plan_model.specs.Evaluation.{same_value, value_under};
ghost use Rattle.plan_model.specs.Statements.{RootStatement as Statement};
ghost use Rattle.plan_types.specs.Frames.{variables_of};
ghost use Rattle.behaviour.specs.Roots.{run_of};
ghost use Rattle.bridge_endpoint.specs.Answering.{begun_told};
ghost use Rattle.bridge_endpoint.specs.Entering.{begun_by};
ghost use Rattle.bridge_endpoint.specs.Journals.{setting_at, side_at};
ghost use Rattle.bridge_core.specs.Asking.{entry_of};
ghost use Rattle.bridge_core.specs.Beginning.{IsBegun, began_run, has_begun};
ghost use Rattle.bridge_core.specs.Moving.{DoesAny, DoesOr};
ghost use Rattle.bridge_core.specs.Standing.{IsRunAt};

use crate::asking::{Asked, asked_by};
use crate::making::make;
use crate::saying::{line_for, says};
use crate::stepping::{know_history, statement_at};
use behaviour::{RootRun, same_value};
use bridge_endpoint::{Begun, Endpoint};
use named_variables::ThreadVariables;
use plan_types::RootStatement;
use root_runs::{drop_variable, is_skipped, over, over_with};
use uno_base::NoMemory;
use uno_types::{Name, Text};
use uno_values::Value;

/// Begins the next statement, unless a variable that it names has no value.
pub(crate) fn begin(end: &mut Endpoint, run: &mut RootRun) -> Result<bool, NoMemory>
    requires run { IsRunAt end.old (run_of run.old) }
    requires idle { state_of run.old.root (side_at end.old).tables.roots ≡ idle }
    requires none { (run_of run.old).loose ≡ [] }
    ensures { DoesAny (next_statement (setting_at end.old) (side_at end.old) (run_of run.old) (statement_at (setting_at end.old) (run_of run.old))) end.old end.new (run_of run.old) (run_of run.new) result }
{
    let Some(statement) = statement_at(end, run) else {
        return Ok(false);
    };
    if is_skipped(&run.variables, statement) {
        says(end.registry().allocator(), run, "skipped")?;
        return Ok(true);
    }
    begin_statement(end, run)?;
    Ok(true)
}

/// Begins the next statement, which is there.
#[tactic(auto, unfolding(bridge_model::specs::RootRuns::begins_statement))]
fn begin_statement(end: &mut Endpoint, run: &mut RootRun) -> Result<(), NoMemory>
    requires run { IsRunAt end.old (run_of run.old) }
    requires idle { state_of run.old.root (side_at end.old).tables.roots ≡ idle }
    requires none { (run_of run.old).loose ≡ [] }
    requires there { IsSome (statement_at (setting_at end.old) (run_of run.old)) }
    requires goes { (s : Statement) → statement_at (setting_at end.old) (run_of run.old) ≡ Some s → is_skipped (run_of run.old).variables s ≡ false }
    ensures { (s : Statement) → statement_at (setting_at end.old) (run_of run.old) ≡ Some s → DoesOr (begins_statement (setting_at end.old) (side_at end.old) (run_of run.old) s) end.old end.new (run_of run.old) (run_of run.new) result }
{
    know_history(end);
    let alloc = end.registry().allocator();
    let Some(statement) = statement_at(end, run) else {
        unreachable!()
    };
    match statement {
        RootStatement::Make(making) => {
            let behaviour = making.behaviour;
            let wanted = making.face.copy()?;
            match making.to.copy() {
                Ok(to) => make(end, run, behaviour, wanted, to),
                Err(NoMemory) => {
                    drop(wanted);
                    Err(NoMemory)
                }
            }
        }
        RootStatement::Drop(name) => drops(run, name),
        RootStatement::Same(left, right) => {
            let text = same_text(&run.variables, left, right);
            says(alloc, run, text)
        }
        RootStatement::Dispose => disposes(end, run),
        RootStatement::Ask { .. }
        | RootStatement::AskInstance { .. }
        | RootStatement::Call(_)
        | RootStatement::Query(_) => match asked_by(alloc, end.registry(), run, statement)? {
            Some(asked) => ask(end, run, asked),
            None => says(alloc, run, "null"),
        },
    }
}

/// Asks something of the endpoint, where the bridge stands.
fn ask(end: &mut Endpoint, run: &mut RootRun, asked: Asked) -> Result<(), NoMemory>
    requires root { is_root (setting_at end.old) run.old.root ≡ true }
    requires idle { state_of run.old.root (side_at end.old).tables.roots ≡ idle }
    requires gives { MayGive (setting_at end.old) (entry_of run.old.root asked) }
    requires holds { stands (side_at end.old) ≡ true → has_entries (side_at end.old) ≡ false → may (setting_at end.old) (side_at end.old) (entry_of run.old.root asked) ≡ true }
    ensures { DoesOr (begins (side_at end.old) (run_of run.old) (entry_of run.old.root asked)) end.old end.new (run_of run.old) (run_of run.new) result }
{
    let alloc = end.registry().allocator();
    let root = run.root;
    if end.end().is_some() {
        drop(asked);
        return says(alloc, run, "gone");
    }
    match line_for(alloc, run, "full") {
        Ok(full) => {
            let begun = ask_it(end, root, asked);
            began(run, full, begun)
        }
        Err(NoMemory) => {
            drop(asked);
            Err(NoMemory)
        }
    }
}

fn ask_it(end: &mut Endpoint, root: u32, asked: Asked) -> Begun
    requires idle { may_begin (setting_at end.old) root (side_at end.old) ≡ true }
    requires gives { MayGive (setting_at end.old) (entry_of root asked) }
    ensures answer { begun_told result ≢ answers.no_room_left → begun_told result ≡ begun (setting_at end.old) (side_at end.old) (entry_of root asked) }
    ensures entered { end.new ≡ begun_by result (entry_of root asked) end.old }
{
    match asked {
        Asked::Name { name, wanted } => end.ask(root, &name, &wanted),
        Asked::Call {
            oid,
            face,
            function,
            args,
        } => end.call(root, &oid, &face, function, args),
        Asked::Query { oid, face, wanted } => end.query(root, &oid, &face, &wanted),
    }
}

/// What becomes of the run, with the line for a bridge that is full, for which there is room.
fn began(run: &mut RootRun, full: Text, begun: Begun) -> Result<(), NoMemory>
    requires line { full ≡ line_of (run_of run.old) (codes "full") }
    requires place { run.old.place < 2 ^ 32 - 1 }
    requires room { vec_len run.old.lines < vec_capacity run.old.lines }
    requires begun { IsBegun begun }
    ensures run { run_of run.new ≡ began_run begun (run_of run.old) }
    ensures moved { is_ok result ≡ has_begun begun }
{
    match begun {
        Begun::Started | Begun::Answered => {
            drop(full);
            Ok(())
        }
        Begun::Full => {
            over_with(run, full);
            Ok(())
        }
        Begun::NotHeld => unreachable!(),
        Begun::Gone => unreachable!(),
        Begun::NoMemory => {
            drop(full);
            Err(NoMemory)
        }
    }
}

/// A variable goes.
fn drops(run: &mut RootRun, name: &Name) -> Result<(), NoMemory>
    ensures gone { OnOk result (run_of run.new ≡ goes_over (drops name.now (run_of run.old))) }
    ensures kept { OnErr result (run_of run.new ≡ run_of run.old) }
{
    if run.place == u32::MAX {
        return Err(NoMemory);
    }
    run.loose.reserve(1)?;
    drop_variable(run, name);
    over(run);
    Ok(())
}

/// Whether two variables have the same value, in words.
fn same_text(variables: &ThreadVariables, left: &Name, right: &Name) -> &'static str
    ensures { result.now ≡ same_text (same_value (value_under left.now (variables_of (all_of variables.now))) (value_under right.now (variables_of (all_of variables.now)))) }
{
    let none = Value::Void;
    let left = variables.get(left).unwrap_or(&none);
    let right = variables.get(right).unwrap_or(&none);
    if same_value(left, right) {
        return "same";
    }
    "different"
}

/// The bridge is disposed, where it stands.
fn disposes(end: &mut Endpoint, run: &mut RootRun) -> Result<(), NoMemory>
    ensures { DoesOr (disposes (side_at end.old) (run_of run.old)) end.old end.new (run_of run.old) (run_of run.new) result }
{
    if run.place == u32::MAX {
        return Err(NoMemory);
    }
    end.dispose();
    over(run);
    Ok(())
}
