//! How a method ends: its answer is sent or handed down first, then it lets go what it holds.
ghost use Rattle.std.specs.Prelude.{◌≡◌, true, IfOk, OnOk, OnErr, map, option_map};
ghost use Rattle.behaviour.specs.Answers.{raised_of};
ghost use Rattle.bridge_model.specs.Handing.{answers_peer, hands_over, lets_go_frame, gains_below, takes_below};
ghost use Rattle.bridge_model.specs.References.{lets_go_all, refs_of_answer, says};
ghost use Rattle.bridge_model.specs.Settings.{own_oid};
ghost use Rattle.bridge_setting.specs.Settings.{setting_of};
ghost use Rattle.bridge_tables.specs.EndTables.{IsOf, lasting, on_tables, quiet};
ghost use Rattle.message_model.specs.Messages as plain;
ghost use Rattle.message_model.specs.Messages.{reply};
ghost use Rattle.plan_model.specs.Frames.{frames_of};
ghost use Rattle.plan_model.specs.Holdings.{refs_under};
ghost use Rattle.plan_types.specs.Frames.{body_of, frame_of, variables_of};
ghost use Rattle.uno_model.specs.Sound.{IsSound};
ghost use Rattle.uno_model.specs.Values as v;
ghost use Rattle.uno_values.specs.References.{ref_of};
ghost use Rattle.urp_message.specs.Messages.{answer_of};
ghost use Rattle.bridge_frames.specs.Unwinding.{holder_above};

use bridge_setting::Setting;
use bridge_tables::{Tables, refs_of_answer};
use call_stacks::Stacks;
use plan_types::{Body, Frame, Variable};
use std::alloc::Global;
use table_model::Holder;
use uno_base::NoMemory;
use uno_types::Tid;
use uno_values::{AnyValue, Reference, refs_of};
use urp_message::{Answer, Message};

/// A method that the peer called answers it, and lets go what it holds, and these before.
pub(crate) fn answer_peer(
    alloc: Global,
    setting: &Setting,
    tid: &Tid,
    body: &Body,
    extra: &[Reference],
    answer: Answer,
    tables: &mut Tables,
) -> Result<(), NoMemory>
    requires of { IsOf (setting_of setting.now) tables.old }
    requires stands { tables.old.stands ≡ true }
    requires sound { IsSound setting.now.registry }
    ensures answered { OnOk result (tables.new ≡ on_tables (answers_peer (setting_of setting.now) tid.now (body_of body.now) (map ref_of extra.now) (answer_of answer)) tables.old) }
    ensures lost { OnErr result (lasting tables.new ≡ lasting tables.old) }
{
    let Ok(own) = own_reference(alloc, setting, body) else {
        drop(answer);
        return Err(NoMemory);
    };
    if let Err(error) = say_reply(setting, tid, body, answer, tables) {
        drop(own);
        return Err(error);
    }
    let_frame_go(setting, body, &own, extra, tables);
    drop(own);
    Ok(())
}

/// Its reply.
fn say_reply(
    setting: &Setting,
    tid: &Tid,
    body: &Body,
    answer: Answer,
    tables: &mut Tables,
) -> Result<(), NoMemory>
    requires { IsSound setting.now.registry }
    ensures said { OnOk result (tables.new ≡ on_tables (says (setting_of setting.now) (reply tid.now body.now.face body.now.function (answer_of answer))) tables.old) }
    ensures kept { OnErr result (quiet tables.new ≡ quiet tables.old) }
{
    let Ok(tid) = tid.copy() else {
        drop(answer);
        return Err(NoMemory);
    };
    let Ok(face) = body.face.copy() else {
        drop(answer);
        return Err(NoMemory);
    };
    let message = Message::Reply {
        tid,
        face,
        function: body.function,
        answer,
    };
    tables.say(setting, message)
}

/// The frame below holds what the exception holds that it gets, and then this one lets go what it holds, and these before.
pub(crate) fn hand_over(
    alloc: Global,
    setting: &Setting,
    tid: &Tid,
    body: &Body,
    extra: &[Reference],
    exception: &AnyValue,
    stacks: &Stacks,
    tables: &mut Tables,
) -> Result<(), NoMemory>
    requires of { IsOf (setting_of setting.now) tables.old }
    requires stands { tables.old.stands ≡ true }
    ensures handed { OnOk result (tables.new ≡ on_tables (hands_over (setting_of setting.now) (body_of body.now) (map ref_of extra.now) (raised_of exception.now) (frames_of tid.now stacks.now)) tables.old) }
    ensures kept { OnErr result (tables.new ≡ tables.old) }
{
    let own = own_reference(alloc, setting, body)?;
    if let Err(error) = gain_exception(alloc, setting, tid, exception, stacks, tables) {
        drop(own);
        return Err(error);
    }
    let_frame_go(setting, body, &own, extra, tables);
    drop(own);
    Ok(())
}

/// The own object of a method, under the interface that was called.
pub(crate) fn own_reference(
    alloc: Global,
    setting: &Setting,
    body: &Body,
) -> Result<Reference, NoMemory>
    ensures { IfOk result (λ r. ref_of r ≡ v.own (own_oid (setting_of setting.now) body.now.object) body.now.face) }
{
    let oid = setting.own_oid(alloc, body.object)?;
    let face = body.face.copy()?;
    Ok(Reference::Local { oid, face })
}

/// What a method holds goes: first these, then its variables, its own object last.
pub(crate) fn let_frame_go(
    setting: &Setting,
    body: &Body,
    own: &Reference,
    extra: &[Reference],
    tables: &mut Tables,
)
    requires of { IsOf (setting_of setting.now) tables.old }
    requires stands { tables.old.stands ≡ true }
    requires own { ref_of own.now ≡ v.own (own_oid (setting_of setting.now) body.now.object) body.now.face }
    ensures { tables.new ≡ on_tables (lets_go_frame (setting_of setting.now) (body_of body.now) (map ref_of extra.now)) tables.old }
{
    let holder = Holder::Frame(body.number);
    tables.let_go_all(setting, holder, extra);
    let_variables_go(setting, holder, &body.variables, tables);
    tables.let_go(setting, holder, own);
}

/// What variables hold goes.
fn let_variables_go(setting: &Setting, holder: Holder, variables: &[Variable], tables: &mut Tables)
    requires of { IsOf (setting_of setting.now) tables.old }
    requires stands { tables.old.stands ≡ true }
    ensures { tables.new ≡ on_tables (lets_go_all (setting_of setting.now) holder (refs_under (variables_of variables.now))) tables.old }
{
    for variable in variables {
        tables.let_value_go(setting, holder, &variable.value);
    }
}

/// The frame at the top holds what an answer holds, which is here already.
pub(crate) fn gain_answer(
    alloc: Global,
    setting: &Setting,
    tid: &Tid,
    answer: &Answer,
    stacks: &Stacks,
    tables: &mut Tables,
) -> Result<(), NoMemory>
    requires { IsOf (setting_of setting.now) tables.old }
    ensures gained { OnOk result (tables.new ≡ on_tables (gains_below (frames_of tid.now stacks.now) (answer_of answer.now)) tables.old) }
    ensures kept { OnErr result (tables.new ≡ tables.old) }
{
    let references = refs_of_answer(alloc, answer)?;
    gain_below(setting, tid, &references, stacks, tables)
}

/// The same of an exception.
fn gain_exception(
    alloc: Global,
    setting: &Setting,
    tid: &Tid,
    exception: &AnyValue,
    stacks: &Stacks,
    tables: &mut Tables,
) -> Result<(), NoMemory>
    requires { IsOf (setting_of setting.now) tables.old }
    ensures gained { OnOk result (tables.new ≡ on_tables (gains_below (frames_of tid.now stacks.now) (raised_of exception.now)) tables.old) }
    ensures kept { OnErr result (tables.new ≡ tables.old) }
{
    let references = refs_of(alloc, &exception.value)?;
    gain_below(setting, tid, &references, stacks, tables)
}

/// Or it takes what an answer of the peer's holds.
pub(crate) fn take_answer(
    alloc: Global,
    setting: &Setting,
    tid: &Tid,
    answer: &Answer,
    stacks: &Stacks,
    tables: &mut Tables,
) -> Result<(), NoMemory>
    requires { IsOf (setting_of setting.now) tables.old }
    ensures taken { OnOk result (tables.new ≡ on_tables (takes_below (setting_of setting.now) (frames_of tid.now stacks.now) (answer_of answer.now)) tables.old) }
    ensures kept { OnErr result (quiet tables.new ≡ quiet tables.old) }
{
    let references = refs_of_answer(alloc, answer)?;
    take_below(setting, tid, &references, stacks, tables)
}

/// The frame at the top holds these, which are here already.
fn gain_below(
    setting: &Setting,
    tid: &Tid,
    references: &[Reference],
    stacks: &Stacks,
    tables: &mut Tables,
) -> Result<(), NoMemory>
    requires { IsOf (setting_of setting.now) tables.old }
    ensures gained { OnOk result ((a : plain.Answer) → refs_of_answer a ≡ map ref_of references.now → tables.new ≡ on_tables (gains_below (frames_of tid.now stacks.now) a) tables.old) }
    ensures kept { OnErr result (tables.new ≡ tables.old) }
{
    match holder_of(stacks.top(tid)) {
        Some(holder) => tables.gain_all(setting, holder, references),
        None => Ok(()),
    }
}

/// Or takes them, where they came from the peer.
fn take_below(
    setting: &Setting,
    tid: &Tid,
    references: &[Reference],
    stacks: &Stacks,
    tables: &mut Tables,
) -> Result<(), NoMemory>
    requires { IsOf (setting_of setting.now) tables.old }
    ensures taken { OnOk result ((a : plain.Answer) → refs_of_answer a ≡ map ref_of references.now → tables.new ≡ on_tables (takes_below (setting_of setting.now) (frames_of tid.now stacks.now) a) tables.old) }
    ensures kept { OnErr result (quiet tables.new ≡ quiet tables.old) }
{
    match holder_of(stacks.top(tid)) {
        Some(holder) => tables.take_all(setting, holder, references),
        None => Ok(()),
    }
}

/// Who holds for a frame; a call that went out holds nothing, and no frame neither.
fn holder_of(frame: Option<&Frame>) -> Option<Holder>
    ensures { result ≡ holder_above (option_map (λ f. frame_of f.now) frame.entry) }
{
    match frame {
        Some(Frame::Base { root }) => Some(Holder::Root(*root)),
        Some(Frame::Body(body)) => Some(Holder::Frame(body.number)),
        Some(Frame::Out(_)) | None => None,
    }
}
