//! A method goes on with what was returned.
ghost use Rattle.std.specs.Prelude.{◌≡◌, ◌∷◌, ◌++◌, true, List, IfOk, OnOk, OnErr, map, option_map};
ghost use Rattle.bridge_model.specs.Handing.{goes_on_with, taken_by, statement_at};
ghost use Rattle.bridge_model.specs.References.{refs_of_values};
ghost use Rattle.bridge_setting.specs.Settings.{setting_of};
ghost use Rattle.bridge_tables.specs.EndTables.{IsOf};
ghost use Rattle.frame_variables.specs.Taking.{refs_in, taken_of};
ghost use Rattle.plan_model.specs.Frames as plain;
ghost use Rattle.plan_model.specs.Frames.{Frame, frames_of, is_body, top};
ghost use Rattle.plan_model.specs.Holdings.{goes_on, takes_reference};
ghost use Rattle.plan_types.specs.Frames.{body_of, variables_of};
ghost use Rattle.plan_types.specs.Statements.{statement_of};
ghost use Rattle.uno_model.specs.Sound.{IsSound};
ghost use Rattle.uno_model.specs.Values.{refs};
ghost use Rattle.uno_values.specs.Values.{plain_of};
ghost use Rattle.bridge_frames.specs.Unwinding.{stacks_by, tables_by};

use crate::statements::statement_at;
use crate::tops::{put_method, take_method};
use bridge_setting::Setting;
use bridge_tables::Tables;
use call_stacks::Stacks;
use frame_variables::{take_answer, take_reference};
use plan_types::{Body, Query, Statement, Variable};
use std::alloc::Global;
use table_model::Holder;
use uno_base::NoMemory;
use uno_types::Tid;
use uno_values::Value;

/// The method at the top goes on with what was returned.
pub(crate) fn go_on_with(
    alloc: Global,
    setting: &Setting,
    tid: &Tid,
    value: Value,
    outs: Vec<Value>,
    stacks: &mut Stacks,
    tables: &mut Tables,
) -> Result<(), NoMemory>
    requires of { IsOf (setting_of setting.now) tables.old }
    requires stands { tables.old.stands ≡ true }
    requires sound { IsSound setting.now.registry }
    requires method { is_body (top tid.now stacks.old) ≡ true }
    ensures stacks { (b : plain.Body) → (fs : List Frame) → frames_of tid.now stacks.old ≡ plain.body b ∷ fs → OnOk result (stacks.new ≡ stacks_by tid.now (goes_on_with (setting_of setting.now) b (plain_of value) (map plain_of outs.items) fs tables.old.tables) stacks.old) }
    ensures tables { (b : plain.Body) → (fs : List Frame) → frames_of tid.now stacks.old ≡ plain.body b ∷ fs → OnOk result (tables.new ≡ tables_by (goes_on_with (setting_of setting.now) b (plain_of value) (map plain_of outs.items) fs tables.old.tables) tables.old) }
    ensures kept { OnErr result (tables.new ≡ tables.old) }
{
    let mut body = take_method(stacks, tid);
    let holder = Holder::Frame(body.number);
    let Ok(gone) = take_in(alloc, setting, tables, &mut body, value, outs) else {
        drop(body);
        return Err(NoMemory);
    };
    put_method(stacks, tid, body);
    tables.let_values_go(setting, holder, &gone);
    Ok(())
}

/// What is returned becomes variables of the method that waited for it; the values are given whose references it lets go for that.
fn take_in(
    alloc: Global,
    setting: &Setting,
    tables: &Tables,
    body: &mut Body,
    value: Value,
    outs: Vec<Value>,
) -> Result<Vec<Value>, NoMemory>
    requires { IsSound setting.now.registry }
    ensures body { OnOk result (body_of body.new ≡ goes_on (taken_by (setting_of setting.now) (statement_at (setting_of setting.now) tables.now.tables.objects (body_of body.old)) (plain_of value) (map plain_of outs.items) (body_of body.old).variables).variables (body_of body.old)) }
    ensures gone { IfOk result (λ gone. refs_in gone.items ≡ (taken_by (setting_of setting.now) (statement_at (setting_of setting.now) tables.now.tables.objects (body_of body.old)) (plain_of value) (map plain_of outs.items) (body_of body.old).variables).let_go) }
{
    if body.place == u32::MAX {
        drop(value);
        return Err(NoMemory);
    }
    let statement = statement_at(setting, tables, body);
    let gone = take_by(alloc, setting, statement, value, outs, &mut body.variables)?;
    body.place += 1;
    Ok(gone)
}

/// The same by the statement that waited: a call takes its answer and a query what it found; any other lets all of it go.
fn take_by(
    alloc: Global,
    setting: &Setting,
    statement: Option<&Statement>,
    value: Value,
    outs: Vec<Value>,
    variables: &mut Vec<Variable>,
) -> Result<Vec<Value>, NoMemory>
    requires { IsSound setting.now.registry }
    ensures { IfOk result (λ gone. taken_of variables.new.items gone.items ≡ taken_by (setting_of setting.now) (option_map (λ s. statement_of s.now) statement.entry) (plain_of value) (map plain_of outs.items) (variables_of variables.old.items)) }
{
    match statement {
        Some(Statement::Call(call)) => take_answer(alloc, call, value, outs, variables),
        Some(Statement::Query(query)) => {
            drop(outs);
            take_found(alloc, setting, query, value, variables)
        }
        _ => value_and_outs(value, outs),
    }
}

/// What was returned, as one list.
fn value_and_outs(value: Value, outs: Vec<Value>) -> Result<Vec<Value>, NoMemory>
    ensures { IfOk result (λ gone. refs_in gone.items ≡ refs (plain_of value) ++ refs_of_values (map plain_of outs.items)) }
{
    let mut gone = outs;
    gone.insert(0, value)?;
    Ok(gone)
}

/// The reference that a query found becomes a variable.
fn take_found(
    alloc: Global,
    setting: &Setting,
    query: &Query,
    value: Value,
    variables: &mut Vec<Variable>,
) -> Result<Vec<Value>, NoMemory>
    requires { IsSound setting.now.registry }
    ensures { IfOk result (λ gone. taken_of variables.new.items gone.items ≡ takes_reference setting.now.registry query.now.wanted query.now.to (plain_of value) (variables_of variables.old.items)) }
{
    let Ok(to) = query.to.copy() else {
        drop(value);
        return Err(NoMemory);
    };
    let rest = take_reference(&setting.registry, &query.wanted, to, value, variables)?;
    let mut gone = Vec::new(alloc);
    if let Some(rest) = rest {
        gone.push(rest)?;
    }
    Ok(gone)
}
