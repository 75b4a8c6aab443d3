//! What the effect of a statement does.
ghost use Rattle.std.specs.Prelude.{◌≡◌, ◌∷◌, true, List, IfOk, OnOk, OnErr, map};
ghost use Rattle.behaviour.specs.Effects.{effect_of};
ghost use Rattle.bridge_model.specs.Applying.{applies, applies_call, applies_query, answers_query};
ghost use Rattle.bridge_model.specs.Calls.{query_args};
ghost use Rattle.bridge_model.specs.Objects.{object_answer};
ghost use Rattle.bridge_setting.specs.Settings.{setting_of};
ghost use Rattle.bridge_tables.specs.EndTables.{IsOf, lasting};
ghost use Rattle.plan_model.specs.Frames as plain;
ghost use Rattle.plan_model.specs.Frames.{Frame, frames_of, is_body, top};
ghost use Rattle.uno_model.specs.Kinds as kd;
ghost use Rattle.uno_model.specs.Sound.{IsSound};
ghost use Rattle.uno_values.specs.References.{ref_of};
ghost use Rattle.uno_values.specs.Values.{plain_of};
ghost use Rattle.bridge_frames.specs.Unwinding.{stacks_by, tables_by};

use crate::calls::{Call, begin_here, call_peer};
use crate::creating::apply_creating;
use crate::handing::{end_frame, give};
use crate::making::apply_making;
use crate::own::{apply_drop, apply_let, apply_set, apply_set_field, apply_skip};
use behaviour::Effect;
use bridge_setting::Setting;
use bridge_tables::Tables;
use call_stacks::Stacks;
use std::alloc::Global;
use uno_base::NoMemory;
use uno_types::{Name, Text, Tid, TypeName};
use uno_values::{Reference, Value};
use urp_message::Answer;

/// Carries out an effect of the method at the top of a thread, but for the end of the bridge, which changes nothing here.
#[tactic(auto, unfolding(bridge_model::specs::Applying::applies))]
pub fn apply(
    alloc: Global,
    setting: &Setting,
    tid: &Tid,
    effect: Effect,
    stacks: &mut Stacks,
    tables: &mut Tables,
) -> Result<(), NoMemory>
    requires of { IsOf (setting_of setting.now) tables.old }
    requires stands { tables.old.stands ≡ true }
    requires sound { IsSound setting.now.registry }
    requires method { is_body (top tid.now stacks.old) ≡ true }
    ensures stacks { (b : plain.Body) → (fs : List Frame) → frames_of tid.now stacks.old ≡ plain.body b ∷ fs → OnOk result (stacks.new ≡ stacks_by tid.now (applies (setting_of setting.now) tid.now b fs (effect_of effect) tables.old.tables) stacks.old) }
    ensures tables { (b : plain.Body) → (fs : List Frame) → frames_of tid.now stacks.old ≡ plain.body b ∷ fs → OnOk result (tables.new ≡ tables_by (applies (setting_of setting.now) tid.now b fs (effect_of effect) tables.old.tables) tables.old) }
    ensures lost { OnErr result (lasting tables.new ≡ lasting tables.old) }
{
    match effect {
        Effect::Lets(variable) => apply_let(alloc, setting, tid, variable, stacks, tables),
        Effect::Sets(variable) => apply_set(alloc, setting, tid, variable, stacks, tables),
        Effect::SetsField(variable) => apply_set_field(setting, tid, variable, stacks, tables),
        Effect::Drops(name) => apply_drop(setting, tid, &name, stacks, tables),
        Effect::Skips => apply_skip(tid, stacks),
        Effect::Calls {
            target,
            function,
            args,
            to,
        } => {
            drop(to);
            apply_call(alloc, setting, tid, target, function, args, stacks, tables)
        }
        Effect::Queries { target, wanted, to } => {
            drop(to);
            apply_query(alloc, setting, tid, target, wanted, stacks, tables)
        }
        Effect::Makes {
            behaviour,
            face,
            to,
        } => apply_making(alloc, setting, tid, behaviour, face, to, stacks, tables),
        Effect::Disposes => Ok(()),
        Effect::Creates { name, args } => {
            apply_creating(alloc, setting, tid, &name, &args, stacks, tables)
        }
        Effect::Returns { value, outs } => {
            end_frame(
                alloc,
                setting,
                tid,
                Answer::Returned { value, outs },
                stacks,
                tables,
            )
        }
        Effect::Raises(exception) => {
            end_frame(
                alloc,
                setting,
                tid,
                Answer::Raised(exception),
                stacks,
                tables,
            )
        }
    }
}

/// An own object is called here, and the peer's by a request.
fn apply_call(
    alloc: Global,
    setting: &Setting,
    tid: &Tid,
    target: Reference,
    function: u32,
    args: Vec<Value>,
    stacks: &mut Stacks,
    tables: &mut Tables,
) -> Result<(), NoMemory>
    requires of { IsOf (setting_of setting.now) tables.old }
    requires sound { IsSound setting.now.registry }
    ensures stacks { (f : Frame) → (fs : List Frame) → frames_of tid.now stacks.old ≡ f ∷ fs → OnOk result (stacks.new ≡ stacks_by tid.now (applies_call (setting_of setting.now) tid.now (ref_of target) function (map plain_of args.items) (f ∷ fs) tables.old.tables) stacks.old) }
    ensures tables { OnOk result (tables.new ≡ tables_by (applies_call (setting_of setting.now) tid.now (ref_of target) function (map plain_of args.items) (frames_of tid.now stacks.old) tables.old.tables) tables.old) }
    ensures lost { OnErr result (lasting tables.new ≡ lasting tables.old) }
{
    let Ok(function) = u16::try_from(function) else {
        return Err(NoMemory);
    };
    match target {
        Reference::Null => Ok(()),
        Reference::Local { oid, face } => {
            let call = Call {
                tid,
                oid,
                face,
                function,
            };
            begin_here(alloc, setting, call, args, stacks, tables)
        }
        Reference::Remote { oid, face } => {
            let call = Call {
                tid,
                oid,
                face,
                function,
            };
            call_peer(setting, call, args, stacks, tables)
        }
    }
}

/// An own object answers a query in the same event; the peer's is asked by a call of function 0.
fn apply_query(
    alloc: Global,
    setting: &Setting,
    tid: &Tid,
    target: Reference,
    wanted: Name,
    stacks: &mut Stacks,
    tables: &mut Tables,
) -> Result<(), NoMemory>
    requires of { IsOf (setting_of setting.now) tables.old }
    requires stands { tables.old.stands ≡ true }
    requires sound { IsSound setting.now.registry }
    requires method { is_body (top tid.now stacks.old) ≡ true }
    ensures stacks { (f : Frame) → (fs : List Frame) → frames_of tid.now stacks.old ≡ f ∷ fs → OnOk result (stacks.new ≡ stacks_by tid.now (applies_query (setting_of setting.now) tid.now (ref_of target) wanted (f ∷ fs) tables.old.tables) stacks.old) }
    ensures tables { OnOk result (tables.new ≡ tables_by (applies_query (setting_of setting.now) tid.now (ref_of target) wanted (frames_of tid.now stacks.old) tables.old.tables) tables.old) }
    ensures lost { OnErr result (lasting tables.new ≡ lasting tables.old) }
{
    match target {
        Reference::Null => Ok(()),
        Reference::Local { oid, face } => {
            drop(face);
            let value = own_answer(setting, &oid, wanted, tables)?;
            answer_query(alloc, setting, tid, value, stacks, tables)
        }
        Reference::Remote { oid, face } => {
            let args = query_args(alloc, wanted)?;
            let call = Call {
                tid,
                oid,
                face,
                function: 0,
            };
            call_peer(setting, call, args, stacks, tables)
        }
    }
}

/// What an own object answers that is queried.
fn own_answer(
    setting: &Setting,
    oid: &Text,
    wanted: Name,
    tables: &Tables,
) -> Result<Value, NoMemory>
    requires of { IsOf (setting_of setting.now) tables.now }
    requires sound { IsSound setting.now.registry }
    ensures { IfOk result (λ value. plain_of value ≡ object_answer (setting_of setting.now) oid.now (kd.interface wanted) tables.now.tables.objects) }
{
    let wanted = TypeName::Interface(wanted);
    let value = tables.object_answer(setting, oid, &wanted);
    drop(wanted);
    value
}

/// The method gets the answer.
fn answer_query(
    alloc: Global,
    setting: &Setting,
    tid: &Tid,
    value: Value,
    stacks: &mut Stacks,
    tables: &mut Tables,
) -> Result<(), NoMemory>
    requires of { IsOf (setting_of setting.now) tables.old }
    requires stands { tables.old.stands ≡ true }
    requires sound { IsSound setting.now.registry }
    requires method { is_body (top tid.now stacks.old) ≡ true }
    ensures stacks { (f : Frame) → (fs : List Frame) → frames_of tid.now stacks.old ≡ f ∷ fs → OnOk result (stacks.new ≡ stacks_by tid.now (answers_query (setting_of setting.now) tid.now (plain_of value) (f ∷ fs) tables.old.tables) stacks.old) }
    ensures tables { OnOk result (tables.new ≡ tables_by (answers_query (setting_of setting.now) tid.now (plain_of value) (frames_of tid.now stacks.old) tables.old.tables) tables.old) }
    ensures lost { OnErr result (lasting tables.new ≡ lasting tables.old) }
{
    let answer = Answer::Returned {
        value,
        outs: Vec::new(alloc),
    };
    give(alloc, setting, tid, answer, stacks, tables)
}

/// The arguments of a call of function 0.
pub fn query_args(alloc: Global, wanted: Name) -> Result<Vec<Value>, NoMemory>
    ensures { IfOk result (λ args. map plain_of args.items ≡ query_args wanted) }
{
    let mut args = Vec::new(alloc);
    args.push(Value::Kind(TypeName::Interface(wanted)))?;
    Ok(args)
}
