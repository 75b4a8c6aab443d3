//! Effects on a method's own variables, and on the fields of its object.
ghost use Rattle.std.specs.Prelude.{◌≡◌, ◌∷◌, true, List, IsSome, OnOk, OnErr};
ghost use Rattle.bridge_model.specs.Applying.{goes_on_after};
ghost use Rattle.bridge_model.specs.References.{gains_all};
ghost use Rattle.bridge_model.specs.Stacks.{puts_frames};
ghost use Rattle.bridge_setting.specs.Settings.{setting_of};
ghost use Rattle.bridge_tables.specs.EndTables.{IsOf, lasting, on_tables};
ghost use Rattle.plan_model.specs.Asking as plain;
ghost use Rattle.plan_model.specs.Frames as plain_frames;
ghost use Rattle.plan_model.specs.Frames.{Frame, frames_of, is_body, top, with_top};
ghost use Rattle.plan_model.specs.Holdings.{goes_on};
ghost use Rattle.plan_types.specs.Frames.{body_of, variable_of, variables_of};
ghost use Rattle.uno_model.specs.Values.{refs};
ghost use Rattle.uno_values.specs.Values.{plain_of};
ghost use Rattle.bridge_frames.specs.Unwinding.{stacks_by, tables_by};

use crate::tops::{put_method, take_method};
use bridge_setting::Setting;
use bridge_tables::Tables;
use call_stacks::Stacks;
use frame_variables::add;
use named_variables::{put, take_out};
use plan_types::{Body, Variable};
use std::alloc::Global;
use table_model::Holder;
use uno_base::NoMemory;
use uno_types::{Name, Tid};
use uno_values::{Value, refs_of};

/// Puts a method back, at the next statement.
pub(crate) fn go_on(body: Body, tid: &Tid, stacks: &mut Stacks) -> Result<(), NoMemory>
    requires { IsSome (top tid.now stacks.old) }
    ensures { OnOk result (stacks.new ≡ with_top tid.now (plain_frames.body (goes_on (variables_of body.variables.items) (body_of body))) stacks.old) }
{
    let mut body = body;
    if body.place == u32::MAX {
        drop(body);
        return Err(NoMemory);
    }
    body.place += 1;
    put_method(stacks, tid, body);
    Ok(())
}

/// A variable begins.
pub(crate) fn apply_let(
    alloc: Global,
    setting: &Setting,
    tid: &Tid,
    variable: Variable,
    stacks: &mut Stacks,
    tables: &mut Tables,
) -> Result<(), NoMemory>
    requires of { IsOf (setting_of setting.now) tables.old }
    requires stands { tables.old.stands ≡ true }
    requires method { is_body (top tid.now stacks.old) ≡ true }
    ensures stacks { (b : plain_frames.Body) → (fs : List Frame) → frames_of tid.now stacks.old ≡ plain_frames.body b ∷ fs → OnOk result (stacks.new ≡ stacks_by tid.now (goes_on_after (setting_of setting.now) (plain.lets (variable_of variable)) b fs tables.old.tables) stacks.old) }
    ensures tables { (b : plain_frames.Body) → (fs : List Frame) → frames_of tid.now stacks.old ≡ plain_frames.body b ∷ fs → OnOk result (tables.new ≡ tables_by (goes_on_after (setting_of setting.now) (plain.lets (variable_of variable)) b fs tables.old.tables) tables.old) }
    ensures lost { OnErr result (lasting tables.new ≡ lasting tables.old) }
{
    let mut body = take_method(stacks, tid);
    let holder = Holder::Frame(body.number);
    if let Err(error) = gain_value(alloc, setting, holder, &variable.value, tables) {
        drop(variable);
        drop(body);
        return Err(error);
    }
    let Variable { name, value } = variable;
    if let Err(error) = add(&mut body.variables, name, value) {
        drop(body);
        return Err(error);
    }
    go_on(body, tid, stacks)
}

/// What a value holds is held by this one too.
fn gain_value(
    alloc: Global,
    setting: &Setting,
    holder: Holder,
    value: &Value,
    tables: &mut Tables,
) -> Result<(), NoMemory>
    requires { IsOf (setting_of setting.now) tables.old }
    ensures gained { OnOk result (tables.new ≡ on_tables (gains_all holder (refs (plain_of value.now))) tables.old) }
    ensures kept { OnErr result (tables.new ≡ tables.old) }
{
    let references = refs_of(alloc, value)?;
    tables.gain_all(setting, holder, &references)
}

/// A variable gets another value: the new one is held before the old one is let go.
pub(crate) fn apply_set(
    alloc: Global,
    setting: &Setting,
    tid: &Tid,
    variable: Variable,
    stacks: &mut Stacks,
    tables: &mut Tables,
) -> Result<(), NoMemory>
    requires of { IsOf (setting_of setting.now) tables.old }
    requires stands { tables.old.stands ≡ true }
    requires method { is_body (top tid.now stacks.old) ≡ true }
    ensures stacks { (b : plain_frames.Body) → (fs : List Frame) → frames_of tid.now stacks.old ≡ plain_frames.body b ∷ fs → OnOk result (stacks.new ≡ stacks_by tid.now (goes_on_after (setting_of setting.now) (plain.sets (variable_of variable)) b fs tables.old.tables) stacks.old) }
    ensures tables { (b : plain_frames.Body) → (fs : List Frame) → frames_of tid.now stacks.old ≡ plain_frames.body b ∷ fs → OnOk result (tables.new ≡ tables_by (goes_on_after (setting_of setting.now) (plain.sets (variable_of variable)) b fs tables.old.tables) tables.old) }
    ensures lost { OnErr result (lasting tables.new ≡ lasting tables.old) }
{
    let mut body = take_method(stacks, tid);
    let holder = Holder::Frame(body.number);
    if let Err(error) = gain_value(alloc, setting, holder, &variable.value, tables) {
        drop(variable);
        drop(body);
        return Err(error);
    }
    let Variable { name, value } = variable;
    let was = put(&mut body.variables, &name, value);
    tables.let_value_go(setting, holder, &was);
    drop(was);
    go_on(body, tid, stacks)
}

/// A field of the own object gets another value.
pub(crate) fn apply_set_field(
    setting: &Setting,
    tid: &Tid,
    variable: Variable,
    stacks: &mut Stacks,
    tables: &mut Tables,
) -> Result<(), NoMemory>
    requires of { IsOf (setting_of setting.now) tables.old }
    requires stands { tables.old.stands ≡ true }
    requires method { is_body (top tid.now stacks.old) ≡ true }
    ensures stacks { (b : plain_frames.Body) → (fs : List Frame) → frames_of tid.now stacks.old ≡ plain_frames.body b ∷ fs → OnOk result (stacks.new ≡ stacks_by tid.now (goes_on_after (setting_of setting.now) (plain.sets_field (variable_of variable)) b fs tables.old.tables) stacks.old) }
    ensures tables { (b : plain_frames.Body) → (fs : List Frame) → frames_of tid.now stacks.old ≡ plain_frames.body b ∷ fs → OnOk result (tables.new ≡ tables_by (goes_on_after (setting_of setting.now) (plain.sets_field (variable_of variable)) b fs tables.old.tables) tables.old) }
    ensures lost { OnErr result (lasting tables.new ≡ lasting tables.old) }
{
    let body = take_method(stacks, tid);
    let object = body.object;
    if let Err(error) = go_on(body, tid, stacks) {
        drop(variable);
        return Err(error);
    }
    let Variable { name, value } = variable;
    tables.set_field(setting, object, &name, value)
}

/// A variable goes.
pub(crate) fn apply_drop(
    setting: &Setting,
    tid: &Tid,
    name: &Name,
    stacks: &mut Stacks,
    tables: &mut Tables,
) -> Result<(), NoMemory>
    requires of { IsOf (setting_of setting.now) tables.old }
    requires stands { tables.old.stands ≡ true }
    requires method { is_body (top tid.now stacks.old) ≡ true }
    ensures stacks { (b : plain_frames.Body) → (fs : List Frame) → frames_of tid.now stacks.old ≡ plain_frames.body b ∷ fs → OnOk result (stacks.new ≡ stacks_by tid.now (goes_on_after (setting_of setting.now) (plain.drops name.now) b fs tables.old.tables) stacks.old) }
    ensures tables { (b : plain_frames.Body) → (fs : List Frame) → frames_of tid.now stacks.old ≡ plain_frames.body b ∷ fs → OnOk result (tables.new ≡ tables_by (goes_on_after (setting_of setting.now) (plain.drops name.now) b fs tables.old.tables) tables.old) }
    ensures lost { OnErr result (lasting tables.new ≡ lasting tables.old) }
{
    let mut body = take_method(stacks, tid);
    let was = take_out(&mut body.variables, name);
    tables.let_value_go(setting, Holder::Frame(body.number), &was);
    drop(was);
    go_on(body, tid, stacks)
}

/// Nothing but the next statement.
pub(crate) fn apply_skip(tid: &Tid, stacks: &mut Stacks) -> Result<(), NoMemory>
    requires { is_body (top tid.now stacks.old) ≡ true }
    ensures { (b : plain_frames.Body) → (fs : List Frame) → frames_of tid.now stacks.old ≡ plain_frames.body b ∷ fs → OnOk result (stacks.new ≡ puts_frames tid.now (plain_frames.body (goes_on b.variables b) ∷ fs) stacks.old) }
{
    let body = take_method(stacks, tid);
    go_on(body, tid, stacks)
}
