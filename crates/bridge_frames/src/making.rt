//! A method makes an object.
ghost use Rattle.std.specs.Prelude.{◌≡◌, ◌∷◌, true, List, IsSome, OnOk, OnErr};
ghost use Rattle.bridge_model.specs.Applying.{applies_making};
ghost use Rattle.bridge_model.specs.References.{gains};
ghost use Rattle.bridge_model.specs.Settings.{own_oid};
ghost use Rattle.bridge_setting.specs.Settings.{setting_of};
ghost use Rattle.bridge_tables.specs.EndTables.{IsOf, lasting, on_tables};
ghost use Rattle.plan_model.specs.Frames as plain;
ghost use Rattle.plan_model.specs.Frames.{Frame, frames_of, is_body, top, with_top};
ghost use Rattle.plan_model.specs.Holdings.{goes_on, with_variable};
ghost use Rattle.plan_types.specs.Frames.{body_of, variables_of};
ghost use Rattle.table_model.specs.declared.holder.Holder.TheVariants as holder;
ghost use Rattle.uno_model.specs.Sound.{IsSound};
ghost use Rattle.uno_model.specs.Values.{own};
ghost use Rattle.uno_model.specs.Values as v;
ghost use Rattle.bridge_frames.specs.Unwinding.{stacks_by, tables_by};

use crate::own::go_on;
use crate::tops::take_method;
use bridge_setting::Setting;
use bridge_tables::Tables;
use call_stacks::Stacks;
use frame_variables::add;
use plan_types::Body;
use std::alloc::Global;
use table_model::Holder;
use uno_base::NoMemory;
use uno_types::{Name, Tid};
use uno_values::{Reference, Value};

/// A variable gets a new object.
pub(crate) fn apply_making(
    alloc: Global,
    setting: &Setting,
    tid: &Tid,
    behaviour: u32,
    face: Name,
    to: Name,
    stacks: &mut Stacks,
    tables: &mut Tables,
) -> Result<(), NoMemory>
    requires of { IsOf (setting_of setting.now) tables.old }
    requires sound { IsSound setting.now.registry }
    requires method { is_body (top tid.now stacks.old) ≡ true }
    ensures stacks { (b : plain.Body) → (fs : List Frame) → frames_of tid.now stacks.old ≡ plain.body b ∷ fs → OnOk result (stacks.new ≡ stacks_by tid.now (applies_making (setting_of setting.now) behaviour face to b fs tables.old.tables) stacks.old) }
    ensures tables { (b : plain.Body) → (fs : List Frame) → frames_of tid.now stacks.old ≡ plain.body b ∷ fs → OnOk result (tables.new ≡ tables_by (applies_making (setting_of setting.now) behaviour face to b fs tables.old.tables) tables.old) }
    ensures lost { OnErr result (lasting tables.new ≡ lasting tables.old) }
{
    let number = tables.make_default(setting, behaviour)?;
    let body = take_method(stacks, tid);
    match go_on_with_object(alloc, setting, tid, body, number, face, to, stacks, tables) {
        Ok(()) => Ok(()),
        Err(NoMemory) => {
            tables.unmake();
            Err(NoMemory)
        }
    }
}

/// The method goes on with a variable that is the new object, which it holds.
fn go_on_with_object(
    alloc: Global,
    setting: &Setting,
    tid: &Tid,
    body: Body,
    number: u32,
    face: Name,
    to: Name,
    stacks: &mut Stacks,
    tables: &mut Tables,
) -> Result<(), NoMemory>
    requires of { IsOf (setting_of setting.now) tables.old }
    requires method { IsSome (top tid.now stacks.old) }
    ensures stacks { OnOk result (stacks.new ≡ with_top tid.now (plain.body (goes_on (with_variable to (v.ref (own (own_oid (setting_of setting.now) number) face)) (variables_of body.variables.items)) (body_of body))) stacks.old) }
    ensures held { OnOk result (tables.new ≡ on_tables (gains (holder.Frame body.number) (own (own_oid (setting_of setting.now) number) face)) tables.old) }
    ensures lost { OnErr result (lasting tables.new ≡ lasting tables.old) }
{
    let mut body = body;
    let Ok(oid) = setting.own_oid(alloc, number) else {
        drop(body);
        return Err(NoMemory);
    };
    let reference = Reference::Local { oid, face };
    if let Err(error) = tables.gain(setting, Holder::Frame(body.number), &reference) {
        drop(reference);
        drop(body);
        return Err(error);
    }
    if let Err(error) = add(&mut body.variables, to, Value::Ref(reference)) {
        drop(body);
        return Err(error);
    }
    go_on(body, tid, stacks)
}
