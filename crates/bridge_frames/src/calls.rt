//! Frames that begin: a method of an own object, and a call that goes out.
ghost use Rattle.std.specs.Prelude.{◌≡◌, ◌≢◌, ◌<◌, ◌-◌, ◌^◌, ℕ, Bool, IfOk, OnOk, OnErr, map};
ghost use Rattle.bridge_model.specs.Calls.{calls_own, serves, calls_peer, first_body};
ghost use Rattle.bridge_model.specs.References.{gains, gains_all, refs_of_values, says, takes_all};
ghost use Rattle.bridge_model.specs.Settings.{own_oid};
ghost use Rattle.bridge_setting.specs.Settings.{setting_of};
ghost use Rattle.bridge_tables.specs.EndTables.{IsOf, lasting, on_tables, quiet};
ghost use Rattle.message_model.specs.Calls.{numbered};
ghost use Rattle.message_model.specs.Messages.{request};
ghost use Rattle.bridge_model.specs.Calls as plain;
ghost use Rattle.plan_model.specs.Frames.{frames_of};
ghost use Rattle.plan_model.specs.Holdings.{first_variables};
ghost use Rattle.plan_types.specs.Frames.{variables_of};
ghost use Rattle.table_model.specs.declared.holder.Holder.TheVariants as holder;
ghost use Rattle.uno_model.specs.Sound.{IsSound};
ghost use Rattle.uno_model.specs.Values.{own};
ghost use Rattle.uno_values.specs.Values.{plain_of};
ghost use Rattle.bridge_frames.specs.Unwinding.{begins, stacks_by, tables_by};

use bridge_setting::Setting;
use bridge_tables::{Tables, refs_of_values};
use call_stacks::Stacks;
use frame_variables::first_variables;
use plan_types::{Body, Frame, Outgoing, Variable};
use std::alloc::Global;
use table_model::Holder;
use type_registry::function_numbered;
use uno_base::NoMemory;
use uno_types::{Name, Registry, Text, Tid};
use uno_values::{Reference, Value};
use urp_message::Message;

/// Whom a call calls: on which thread, which object under which interface, and the number of the function.
#[derive(Drop)]
pub struct Call<'a> {
    pub tid: &'a Tid,
    pub oid: Text,
    pub face: Name,
    pub function: u16,
}

/// An own object is called from here: a frame more.
pub fn begin_here(
    alloc: Global,
    setting: &Setting,
    call: Call,
    args: Vec<Value>,
    stacks: &mut Stacks,
    tables: &mut Tables,
) -> Result<(), NoMemory>
    requires of { IsOf (setting_of setting.now) tables.old }
    requires sound { IsSound setting.now.registry }
    ensures stacks { OnOk result (stacks.new ≡ stacks_by call.entry.tid.now (calls_own (setting_of setting.now) call.entry.oid call.entry.face call.entry.function (map plain_of args.items) (frames_of call.entry.tid.now stacks.old) tables.old.tables) stacks.old) }
    ensures tables { OnOk result (tables.new ≡ tables_by (calls_own (setting_of setting.now) call.entry.oid call.entry.face call.entry.function (map plain_of args.items) (frames_of call.entry.tid.now stacks.old) tables.old.tables) tables.old) }
    ensures lost { OnErr result (lasting tables.new ≡ lasting tables.old) }
{
    if let Err(error) = gain_args(alloc, setting, &args, tables) {
        return Err(error);
    }
    begin(alloc, setting, call, args, false, stacks, tables)
}

/// The next frame holds what arguments hold, which is here already.
fn gain_args(
    alloc: Global,
    setting: &Setting,
    args: &[Value],
    tables: &mut Tables,
) -> Result<(), NoMemory>
    requires { IsOf (setting_of setting.now) tables.old }
    ensures gained { OnOk result (tables.new ≡ on_tables (λ t. gains_all (holder.Frame t.frames_made) (refs_of_values (map plain_of args.now)) t) tables.old) }
    ensures kept { OnErr result (tables.new ≡ tables.old) }
{
    let number = next_number(tables)?;
    let references = refs_of_values(alloc, args)?;
    tables.gain_all(setting, Holder::Frame(number), &references)
}

/// It is called by the peer.
pub fn begin_there(
    alloc: Global,
    setting: &Setting,
    call: Call,
    args: Vec<Value>,
    stacks: &mut Stacks,
    tables: &mut Tables,
) -> Result<(), NoMemory>
    requires of { IsOf (setting_of setting.now) tables.old }
    requires sound { IsSound setting.now.registry }
    ensures stacks { OnOk result (stacks.new ≡ stacks_by call.entry.tid.now (serves (setting_of setting.now) call.entry.oid call.entry.face call.entry.function (map plain_of args.items) (frames_of call.entry.tid.now stacks.old) tables.old.tables) stacks.old) }
    ensures tables { OnOk result (tables.new ≡ tables_by (serves (setting_of setting.now) call.entry.oid call.entry.face call.entry.function (map plain_of args.items) (frames_of call.entry.tid.now stacks.old) tables.old.tables) tables.old) }
    ensures lost { OnErr result (lasting tables.new ≡ lasting tables.old) }
{
    if let Err(error) = take_args(alloc, setting, &args, tables) {
        return Err(error);
    }
    begin(alloc, setting, call, args, true, stacks, tables)
}

/// The same of arguments that come from the peer.
fn take_args(
    alloc: Global,
    setting: &Setting,
    args: &[Value],
    tables: &mut Tables,
) -> Result<(), NoMemory>
    requires { IsOf (setting_of setting.now) tables.old }
    ensures taken { OnOk result (tables.new ≡ on_tables (λ t. takes_all (setting_of setting.now) (holder.Frame t.frames_made) (refs_of_values (map plain_of args.now)) t) tables.old) }
    ensures kept { OnErr result (quiet tables.new ≡ quiet tables.old) }
{
    let number = next_number(tables)?;
    let references = refs_of_values(alloc, args)?;
    tables.take_all(setting, Holder::Frame(number), &references)
}

/// A method whose arguments are held already.
fn begin(
    alloc: Global,
    setting: &Setting,
    call: Call,
    args: Vec<Value>,
    from_peer: bool,
    stacks: &mut Stacks,
    tables: &mut Tables,
) -> Result<(), NoMemory>
    requires of { IsOf (setting_of setting.now) tables.old }
    requires sound { IsSound setting.now.registry }
    ensures stacks { OnOk result (stacks.new ≡ stacks_by call.entry.tid.now (begins (setting_of setting.now) (first_body (setting_of setting.now) from_peer call.entry.oid call.entry.face call.entry.function (map plain_of args.items) tables.old.tables) (frames_of call.entry.tid.now stacks.old) tables.old.tables) stacks.old) }
    ensures tables { OnOk result (tables.new ≡ tables_by (begins (setting_of setting.now) (first_body (setting_of setting.now) from_peer call.entry.oid call.entry.face call.entry.function (map plain_of args.items) tables.old.tables) (frames_of call.entry.tid.now stacks.old) tables.old.tables) tables.old) }
    ensures lost { OnErr result (lasting tables.new ≡ lasting tables.old) }
{
    let Ok(number) = next_number(tables) else {
        return Err(NoMemory);
    };
    let object = tables.number_of(&call.oid);
    if let Err(error) = hold_own(
        alloc, setting, number, object, &call.oid, &call.face, tables,
    ) {
        return Err(error);
    }
    let Ok(variables) = variables_of(alloc, &setting.registry, &call.face, call.function, args)
    else {
        return Err(NoMemory);
    };
    let body = Body {
        number,
        object,
        face: call.face,
        function: call.function,
        from_peer,
        variables,
        place: 0,
    };
    if let Err(error) = stacks.push(call.tid, Frame::Body(body)) {
        return Err(error);
    }
    tables.count_frame();
    Ok(())
}

/// The number of the next frame.
fn next_number(tables: &Tables) -> Result<u64, NoMemory>
    ensures is { IfOk result (λ n. n ≡ tables.now.tables.frames_made) }
    ensures few { IfOk result (λ n. n < 2 ^ 64 - 1) }
{
    let made = tables.frames_made();
    if made == u64::MAX {
        return Err(NoMemory);
    }
    Ok(made)
}

/// A method holds its own object, of this number and where there is one of this identity, under the interface that was called.
fn hold_own(
    alloc: Global,
    setting: &Setting,
    number: u64,
    object: u32,
    oid: &Text,
    face: &Name,
    tables: &mut Tables,
) -> Result<(), NoMemory>
    requires of { IsOf (setting_of setting.now) tables.old }
    requires named { object ≢ 0 → oid.now ≡ own_oid (setting_of setting.now) object }
    ensures held { OnOk result (tables.new ≡ on_tables (gains (holder.Frame number) (own (own_oid (setting_of setting.now) object) face.now)) tables.old) }
    ensures kept { OnErr result (tables.new ≡ tables.old) }
{
    let oid = identity(alloc, setting, object, oid)?;
    let face = face.copy()?;
    let own = Reference::Local { oid, face };
    let held = tables.gain(setting, Holder::Frame(number), &own);
    drop(own);
    held
}

/// The identity of the object of a number: this one, but for the number that no object has.
fn identity(alloc: Global, setting: &Setting, object: u32, oid: &Text) -> Result<Text, NoMemory>
    requires { object ≢ 0 → oid.now ≡ own_oid (setting_of setting.now) object }
    ensures { IfOk result (λ own. own ≡ own_oid (setting_of setting.now) object) }
{
    if object == 0 {
        return setting.own_oid(alloc, object);
    }
    oid.copy()
}

/// The variables with which it begins; a function that is not there has no parameters.
#[tactic(auto, unfolding(message_model::specs::Calls::numbered, plan_model::specs::Holdings::first_variables))]
fn variables_of(
    alloc: Global,
    registry: &Registry,
    face: &Name,
    function: u16,
    args: Vec<Value>,
) -> Result<Vec<Variable>, NoMemory>
    requires { IsSound registry.now }
    ensures { IfOk result (λ xs. variables_of xs.items ≡ first_variables registry.now (plain.params_of (numbered registry.now face.now function)) (map plain_of args.items)) }
{
    match function_numbered(registry, face.as_str(), function) {
        Some(function) => first_variables(alloc, registry, &function, args),
        None => {
            drop(args);
            Ok(Vec::new(alloc))
        }
    }
}

/// An object of the peer's is called: a request, and a frame that waits for its reply.
pub fn call_peer(
    setting: &Setting,
    call: Call,
    args: Vec<Value>,
    stacks: &mut Stacks,
    tables: &mut Tables,
) -> Result<(), NoMemory>
    requires { IsSound setting.now.registry }
    ensures stacks { OnOk result (stacks.new ≡ stacks_by call.entry.tid.now (calls_peer (setting_of setting.now) call.entry.tid.now call.entry.oid call.entry.face call.entry.function (map plain_of args.items) (frames_of call.entry.tid.now stacks.old) tables.old.tables) stacks.old) }
    ensures tables { OnOk result (tables.new ≡ tables_by (calls_peer (setting_of setting.now) call.entry.tid.now call.entry.oid call.entry.face call.entry.function (map plain_of args.items) (frames_of call.entry.tid.now stacks.old) tables.old.tables) tables.old) }
    ensures lost { OnErr result (lasting tables.new ≡ lasting tables.old) }
{
    let Ok(number) = next_number(tables) else {
        return Err(NoMemory);
    };
    if let Err(error) = say_request(setting, &call, args, tables) {
        return Err(error);
    }
    let outgoing = Outgoing {
        number,
        oid: call.oid,
        face: call.face,
        function: call.function,
    };
    if let Err(error) = stacks.push(call.tid, Frame::Out(outgoing)) {
        return Err(error);
    }
    tables.count_frame();
    Ok(())
}

/// Its request.
fn say_request(
    setting: &Setting,
    call: &Call,
    args: Vec<Value>,
    tables: &mut Tables,
) -> Result<(), NoMemory>
    requires { IsSound setting.now.registry }
    ensures said { OnOk result (tables.new ≡ on_tables (says (setting_of setting.now) (request call.now.tid.now call.now.oid call.now.face call.now.function (map plain_of args.items))) tables.old) }
    ensures kept { OnErr result (quiet tables.new ≡ quiet tables.old) }
{
    let Ok(tid) = call.tid.copy() else {
        return Err(NoMemory);
    };
    let Ok(oid) = call.oid.copy() else {
        return Err(NoMemory);
    };
    let Ok(face) = call.face.copy() else {
        return Err(NoMemory);
    };
    let message = Message::Request {
        tid,
        oid,
        face,
        function: call.function,
        args,
    };
    tables.say(setting, message)
}
