//! Answers: how one is handed to the frame below, and how an exception goes through frames.
ghost use Rattle.std.specs.Prelude.{◌≡◌, ◌∷◌, ℕ, true, false, [], drop, List, Some, IfOk, OnOk, OnErr, map, option_map};
ghost use Rattle.behaviour.specs.Answers.{raised_of};
ghost use Rattle.bridge_model.specs.Handing.{hands, hands_down, hands_from_peer, ends_frame};
ghost use Rattle.bridge_model.specs.Sides.{state_of};
ghost use Rattle.bridge_setting.specs.Settings.{setting_of};
ghost use Rattle.bridge_tables.specs.EndTables.{IsOf, lasting};
ghost use Rattle.plan_model.specs.Frames as plain;
ghost use Rattle.plan_model.specs.Frames.{Frame, frames_of, is_body, popped, top};
ghost use Rattle.plan_types.specs.Frames.{body_of};
ghost use Rattle.uno_model.specs.Sound.{IsSound};
ghost use Rattle.uno_values.specs.References.{ref_of};
ghost use Rattle.urp_message.specs.Messages.{answer_of};
ghost use Rattle.bridge_frames.specs.Answered.{answered_root, gets_all, root_answered, root_reached, taken_back};
ghost use Rattle.bridge_frames.specs.Raising.{GoesThrough, Leaves, gives, handed_down};
ghost use Rattle.bridge_frames.specs.Unwinding.{is_root, stacks_by, tables_by};

use crate::ending::{
    answer_peer, gain_answer, hand_over, let_frame_go, own_reference, take_answer,
};
use crate::going_on::go_on_with;
use crate::roots::{AnsweredRoot, root_gets};
use crate::tops::{end_thread, is_method, pop_method, root_on_top};
use behaviour::leaving_exception;
use bridge_setting::Setting;
use bridge_tables::Tables;
use call_stacks::Stacks;
use plan_types::Body;
use std::alloc::Global;
use uno_base::NoMemory;
use uno_types::Tid;
use uno_values::{AnyValue, Reference, refs_of};
use urp_message::Answer;

/// An answer to the top frame of a thread, which holds what is in it. A root is answered, and its stack ends; a method goes on, or ends with the
/// exception, which goes to the frame below. A root is answered without memory, and told with what it did before.
pub fn hand(
    alloc: Global,
    setting: &Setting,
    tid: &Tid,
    answer: Answer,
    stacks: &mut Stacks,
    tables: &mut Tables,
) -> Result<Option<AnsweredRoot>, NoMemory>
    requires of { IsOf (setting_of setting.now) tables.old }
    requires stands { tables.old.stands ≡ true }
    requires sound { IsSound setting.now.registry }
    ensures stacks { (f : Frame) → (fs : List Frame) → frames_of tid.now stacks.old ≡ f ∷ fs → OnOk result (stacks.new ≡ stacks_by tid.now (hands (setting_of setting.now) tid.now (answer_of answer) (f ∷ fs) tables.old.tables) stacks.old) }
    ensures none { frames_of tid.now stacks.old ≡ [] → OnOk result (stacks.new ≡ stacks.old) }
    ensures tables { OnOk result (tables.new ≡ tables_by (hands (setting_of setting.now) tid.now (answer_of answer) (frames_of tid.now stacks.old) tables.old.tables) tables.old) }
    ensures answered { IfOk result (λ root. option_map answered_root root ≡ root_answered tables.old.tables.roots (answer_of answer) (frames_of tid.now stacks.old)) }
    ensures below { OnErr result (is_root (frames_of tid.now stacks.old) ≡ false) }
    ensures lost { OnErr result (lasting tables.new ≡ lasting tables.old) }
{
    if let Some(root) = root_on_top(stacks, tid) {
        end_thread(stacks, tid);
        let before = root_gets(setting, root, answer, tables);
        return Ok(Some(AnsweredRoot { root, before }));
    }
    if !is_method(stacks, tid) {
        drop(answer);
        return Ok(None);
    }
    match answer {
        Answer::Returned { value, outs } => {
            go_on_with(alloc, setting, tid, value, outs, stacks, tables)?;
            Ok(None)
        }
        Answer::Raised(exception) => {
            let Some(left) = raise_through(alloc, setting, tid, exception, stacks, tables)? else {
                return Ok(None);
            };
            hand(alloc, setting, tid, Answer::Raised(left), stacks, tables)
        }
    }
}

/// The same where it is not asked which root was answered.
pub(crate) fn hand_untold(
    alloc: Global,
    setting: &Setting,
    tid: &Tid,
    answer: Answer,
    stacks: &mut Stacks,
    tables: &mut Tables,
) -> Result<(), NoMemory>
    requires of { IsOf (setting_of setting.now) tables.old }
    requires stands { tables.old.stands ≡ true }
    requires sound { IsSound setting.now.registry }
    ensures stacks { (f : Frame) → (fs : List Frame) → frames_of tid.now stacks.old ≡ f ∷ fs → OnOk result (stacks.new ≡ stacks_by tid.now (hands (setting_of setting.now) tid.now (answer_of answer) (f ∷ fs) tables.old.tables) stacks.old) }
    ensures none { frames_of tid.now stacks.old ≡ [] → OnOk result (stacks.new ≡ stacks.old) }
    ensures tables { OnOk result (tables.new ≡ tables_by (hands (setting_of setting.now) tid.now (answer_of answer) (frames_of tid.now stacks.old) tables.old.tables) tables.old) }
    ensures below { OnErr result (is_root (frames_of tid.now stacks.old) ≡ false) }
    ensures lost { OnErr result (lasting tables.new ≡ lasting tables.old) }
{
    match hand(alloc, setting, tid, answer, stacks, tables) {
        Ok(answered) => {
            drop(answered);
            Ok(())
        }
        Err(error) => Err(error),
    }
}

/// The answer of the peer, behind the call that went out. Where a root got it whole, `Tables::take_back_root` takes back what lasts of it.
pub fn hand_from_peer(
    alloc: Global,
    setting: &Setting,
    tid: &Tid,
    answer: Answer,
    stacks: &mut Stacks,
    tables: &mut Tables,
) -> Result<Option<AnsweredRoot>, NoMemory>
    requires of { IsOf (setting_of setting.now) tables.old }
    requires stands { tables.old.stands ≡ true }
    requires sound { IsSound setting.now.registry }
    ensures stacks { (f : Frame) → (fs : List Frame) → frames_of tid.now stacks.old ≡ f ∷ fs → OnOk result (stacks.new ≡ stacks_by tid.now (hands_from_peer (setting_of setting.now) tid.now (answer_of answer) (f ∷ fs) tables.old.tables) stacks.old) }
    ensures none { frames_of tid.now stacks.old ≡ [] → OnOk result (stacks.new ≡ stacks.old) }
    ensures tables { OnOk result (tables.new ≡ tables_by (hands_from_peer (setting_of setting.now) tid.now (answer_of answer) (frames_of tid.now stacks.old) tables.old.tables) tables.old) }
    ensures answered { IfOk result (λ root. option_map answered_root root ≡ root_answered tables.old.tables.roots (answer_of answer) (frames_of tid.now stacks.old)) }
    ensures back { ((root : ℕ) → root_reached (answer_of answer) (frames_of tid.now stacks.old) ≡ Some root → gets_all (state_of root tables.old.tables.roots) (answer_of answer) ≡ true) → IfOk result (λ root. lasting (taken_back (option_map answered_root root) tables.new) ≡ lasting tables.old) }
    ensures lost { OnErr result (lasting tables.new ≡ lasting tables.old) }
{
    if let Err(error) = take_answer(alloc, setting, tid, &answer, stacks, tables) {
        drop(answer);
        return Err(error);
    }
    hand(alloc, setting, tid, answer, stacks, tables)
}

/// An answer that is here already: the top frame of a thread holds what is in it, before it gets it.
pub(crate) fn give(
    alloc: Global,
    setting: &Setting,
    tid: &Tid,
    answer: Answer,
    stacks: &mut Stacks,
    tables: &mut Tables,
) -> Result<(), NoMemory>
    requires of { IsOf (setting_of setting.now) tables.old }
    requires stands { tables.old.stands ≡ true }
    requires sound { IsSound setting.now.registry }
    ensures stacks { (f : Frame) → (fs : List Frame) → frames_of tid.now stacks.old ≡ f ∷ fs → OnOk result (stacks.new ≡ stacks_by tid.now (gives (setting_of setting.now) tid.now (answer_of answer) (f ∷ fs) tables.old.tables) stacks.old) }
    ensures none { frames_of tid.now stacks.old ≡ [] → OnOk result (stacks.new ≡ stacks.old) }
    ensures tables { OnOk result (tables.new ≡ tables_by (gives (setting_of setting.now) tid.now (answer_of answer) (frames_of tid.now stacks.old) tables.old.tables) tables.old) }
    ensures lost { OnErr result (lasting tables.new ≡ lasting tables.old) }
{
    if let Err(error) = gain_answer(alloc, setting, tid, &answer, stacks, tables) {
        drop(answer);
        return Err(error);
    }
    hand_untold(alloc, setting, tid, answer, stacks, tables)
}

/// The method at the top ends with an exception, which it holds: what leaves it is sent, or given for the frame below.
fn raise_through(
    alloc: Global,
    setting: &Setting,
    tid: &Tid,
    exception: AnyValue,
    stacks: &mut Stacks,
    tables: &mut Tables,
) -> Result<Option<AnyValue>, NoMemory>
    requires of { IsOf (setting_of setting.now) tables.old }
    requires stands { tables.old.stands ≡ true }
    requires sound { IsSound setting.now.registry }
    requires method { is_body (top tid.now stacks.old) ≡ true }
    ensures goes { (b : plain.Body) → (fs : List Frame) → frames_of tid.now stacks.old ≡ plain.body b ∷ fs → GoesThrough (setting_of setting.now) tid.now b fs (raised_of exception) tables.old tables.new result }
    ensures stacks { stacks.new ≡ popped tid.now stacks.old }
    ensures below { frames_of tid.now stacks.new ≡ drop 1 (frames_of tid.now stacks.old) }
    ensures lost { OnErr result (lasting tables.new ≡ lasting tables.old) }
{
    let body = pop_method(stacks, tid);
    let left = raise_from(alloc, setting, tid, &body, exception, stacks, tables);
    drop(body);
    left
}

/// The same of a method that is gone from the stack.
fn raise_from(
    alloc: Global,
    setting: &Setting,
    tid: &Tid,
    body: &Body,
    exception: AnyValue,
    stacks: &Stacks,
    tables: &mut Tables,
) -> Result<Option<AnyValue>, NoMemory>
    requires of { IsOf (setting_of setting.now) tables.old }
    requires stands { tables.old.stands ≡ true }
    requires sound { IsSound setting.now.registry }
    ensures goes { GoesThrough (setting_of setting.now) tid.now (body_of body.now) (frames_of tid.now stacks.now) (raised_of exception) tables.old tables.new result }
    ensures lost { OnErr result (lasting tables.new ≡ lasting tables.old) }
{
    let Ok(held) = refs_of(alloc, &exception.value) else {
        drop(exception);
        return Err(NoMemory);
    };
    let left = leaving_exception(
        alloc,
        &setting.registry,
        tid,
        &body.face,
        body.function,
        exception,
    )?;
    leave(alloc, setting, tid, body, &held, left, stacks, tables)
}

/// What leaves a method that is gone from the stack is sent, or given for the frame below; then it lets go what it holds, and these before.
fn leave(
    alloc: Global,
    setting: &Setting,
    tid: &Tid,
    body: &Body,
    held: &[Reference],
    left: AnyValue,
    stacks: &Stacks,
    tables: &mut Tables,
) -> Result<Option<AnyValue>, NoMemory>
    requires of { IsOf (setting_of setting.now) tables.old }
    requires stands { tables.old.stands ≡ true }
    requires sound { IsSound setting.now.registry }
    ensures leaves { Leaves (setting_of setting.now) tid.now (body_of body.now) (frames_of tid.now stacks.now) (map ref_of held.now) (raised_of left) tables.old tables.new result }
    ensures lost { OnErr result (lasting tables.new ≡ lasting tables.old) }
{
    if body.from_peer {
        return match answer_peer(
            alloc,
            setting,
            tid,
            body,
            held,
            Answer::Raised(left),
            tables,
        ) {
            Ok(()) => Ok(None),
            Err(error) => Err(error),
        };
    }
    if let Err(error) = hand_over(alloc, setting, tid, body, held, &left, stacks, tables) {
        drop(left);
        return Err(error);
    }
    Ok(Some(left))
}

/// A result is handed down whole before the method lets go what it holds.
fn hand_result(
    alloc: Global,
    setting: &Setting,
    tid: &Tid,
    body: &Body,
    answer: Answer,
    stacks: &mut Stacks,
    tables: &mut Tables,
) -> Result<(), NoMemory>
    requires of { IsOf (setting_of setting.now) tables.old }
    requires stands { tables.old.stands ≡ true }
    requires sound { IsSound setting.now.registry }
    ensures stacks { (f : Frame) → (fs : List Frame) → frames_of tid.now stacks.old ≡ f ∷ fs → OnOk result (stacks.new ≡ stacks_by tid.now (handed_down (setting_of setting.now) tid.now (body_of body.now) (answer_of answer) (f ∷ fs) tables.old.tables) stacks.old) }
    ensures none { frames_of tid.now stacks.old ≡ [] → OnOk result (stacks.new ≡ stacks.old) }
    ensures tables { OnOk result (tables.new ≡ tables_by (handed_down (setting_of setting.now) tid.now (body_of body.now) (answer_of answer) (frames_of tid.now stacks.old) tables.old.tables) tables.old) }
    ensures lost { OnErr result (lasting tables.new ≡ lasting tables.old) }
{
    let Ok(own) = own_reference(alloc, setting, body) else {
        drop(answer);
        return Err(NoMemory);
    };
    if let Err(error) = give(alloc, setting, tid, answer, stacks, tables) {
        drop(own);
        return Err(error);
    }
    let_frame_go(setting, body, &own, &[], tables);
    drop(own);
    Ok(())
}

/// An exception is handed down behind what the method lets go.
fn hand_exception(
    alloc: Global,
    setting: &Setting,
    tid: &Tid,
    body: &Body,
    exception: AnyValue,
    stacks: &mut Stacks,
    tables: &mut Tables,
) -> Result<(), NoMemory>
    requires of { IsOf (setting_of setting.now) tables.old }
    requires stands { tables.old.stands ≡ true }
    requires sound { IsSound setting.now.registry }
    ensures stacks { (f : Frame) → (fs : List Frame) → frames_of tid.now stacks.old ≡ f ∷ fs → OnOk result (stacks.new ≡ stacks_by tid.now (hands_down (setting_of setting.now) tid.now (body_of body.now) (raised_of exception) (f ∷ fs) tables.old.tables) stacks.old) }
    ensures none { frames_of tid.now stacks.old ≡ [] → OnOk result (stacks.new ≡ stacks.old) }
    ensures tables { OnOk result (tables.new ≡ tables_by (hands_down (setting_of setting.now) tid.now (body_of body.now) (raised_of exception) (frames_of tid.now stacks.old) tables.old.tables) tables.old) }
    ensures lost { OnErr result (lasting tables.new ≡ lasting tables.old) }
{
    if let Err(error) = hand_over(alloc, setting, tid, body, &[], &exception, stacks, tables) {
        drop(exception);
        return Err(error);
    }
    hand_untold(
        alloc,
        setting,
        tid,
        Answer::Raised(exception),
        stacks,
        tables,
    )
}

/// The method at the top ends with what leaves it.
pub fn end_frame(
    alloc: Global,
    setting: &Setting,
    tid: &Tid,
    answer: Answer,
    stacks: &mut Stacks,
    tables: &mut Tables,
) -> Result<(), NoMemory>
    requires of { IsOf (setting_of setting.now) tables.old }
    requires stands { tables.old.stands ≡ true }
    requires sound { IsSound setting.now.registry }
    requires method { is_body (top tid.now stacks.old) ≡ true }
    ensures stacks { (b : plain.Body) → (fs : List Frame) → frames_of tid.now stacks.old ≡ plain.body b ∷ fs → OnOk result (stacks.new ≡ stacks_by tid.now (ends_frame (setting_of setting.now) tid.now b (answer_of answer) fs tables.old.tables) stacks.old) }
    ensures tables { (b : plain.Body) → (fs : List Frame) → frames_of tid.now stacks.old ≡ plain.body b ∷ fs → OnOk result (tables.new ≡ tables_by (ends_frame (setting_of setting.now) tid.now b (answer_of answer) fs tables.old.tables) tables.old) }
    ensures lost { OnErr result (lasting tables.new ≡ lasting tables.old) }
{
    let body = pop_method(stacks, tid);
    if body.from_peer {
        let sent = answer_peer(alloc, setting, tid, &body, &[], answer, tables);
        drop(body);
        return sent;
    }
    match answer {
        Answer::Returned { value, outs } => {
            let answer = Answer::Returned { value, outs };
            let handed = hand_result(alloc, setting, tid, &body, answer, stacks, tables);
            drop(body);
            handed
        }
        Answer::Raised(exception) => {
            let handed = hand_exception(alloc, setting, tid, &body, exception, stacks, tables);
            drop(body);
            handed
        }
    }
}
