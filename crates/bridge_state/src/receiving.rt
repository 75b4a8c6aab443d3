//! What a message of the peer does.
ghost use Rattle.std.specs.Prelude.{◌≡◌, ◌+◌, ◌<◌, ◌∷◌, ℕ, true, List, IfOk, IfSome, IfNone, OnOk, OnErr, Some, length, map, option_map};
ghost use Rattle.std.specs.Vec.{vec_capacity, vec_len};
ghost use Rattle.bridge_laws.specs.Grounded.{HasRoots};
ghost use Rattle.bridge_model.specs.Receiving as receiving;
ghost use Rattle.bridge_model.specs.Receiving.{receives, answers_at_once, asked_kind, requested};
ghost use Rattle.bridge_model.specs.References.{refs_of_answer};
ghost use Rattle.bridge_model.specs.Sides.{idle, stands, state_of, waits_query};
ghost use Rattle.bridge_laws.specs.Room.{message_brings};
ghost use Rattle.bridge_setting.specs.Settings.{setting_of};
ghost use Rattle.bridge_tables.specs.EndTables.{IsOf, on_tables, quiet};
ghost use Rattle.bridge_tables.specs.Roots.{root_of};
ghost use Rattle.std.specs.Option.{unwrap_or};
ghost use Rattle.plan_model.specs.Frames as plain;
ghost use Rattle.plan_model.specs.Frames.{frames_of};
ghost use Rattle.plan_types.specs.Frames.{frame_of};
ghost use Rattle.uno_entities.specs.TypeNames.{kind_of};
ghost use Rattle.uno_model.specs.Sound.{IsSound};
ghost use Rattle.uno_values.specs.Values.{plain_of};
ghost use Rattle.urp_message.specs.Messages.{message_of, answer_of};
ghost use Rattle.bridge_state.specs.EndSides.{IsEndOf, on_side, with_side};
ghost use Rattle.bridge_state.specs.Hearing.{is_whole, replied};
ghost use Rattle.bridge_state.specs.Undoing.{rests, undone};

use crate::State;
use crate::hearing::Trace;
use bridge_frames::{Call, begin_there, hand_from_peer};
use bridge_setting::{Setting, home_answer, home_each};
use bridge_tables::{Root, Tables, refs_of_answer};
use plan_types::Frame;
use std::alloc::Global;
use uno_base::NoMemory;
use uno_types::{Text, Tid, TypeName};
use uno_values::Value;
use urp_message::{Answer, Message};

impl State {
    /// Receives a message that breaks nothing.
    #[tactic(auto, unfolding(bridge_model::specs::Receiving::receives))]
    pub(crate) fn receive(
        &mut self,
        setting: &Setting,
        message: Message,
        trace: &mut Trace,
    ) -> Result<(), NoMemory>
        requires of { IsEndOf (setting_of setting.now) self.old }
        requires sound { IsSound setting.now.registry }
        requires stands { stands self.old.side ≡ true }
        ensures received { OnOk result (self.new ≡ on_side (receives (setting_of setting.now) (message_of message)) self.old) }
        ensures counted { OnOk result (trace.new.references ≡ trace.old.references + message_brings (message_of message)) }
        ensures began { trace.new.frames_made ≡ trace.old.frames_made }
        ensures back { HasRoots (setting_of setting.now) self.old.side → rests (undone trace.new self.new.side) ≡ rests (undone trace.old self.old.side) }
        ensures names { self.new ≡ with_side self.new.side self.old }
    {
        match message {
            Message::Release { tid, oid, face } => {
                drop(tid);
                self.tables.released_one(&oid, &face).ok();
                Ok(())
            }
            Message::Request {
                tid,
                oid,
                face,
                function,
                args,
            } => {
                let call = Call {
                    tid: &tid,
                    oid,
                    face,
                    function,
                };
                self.receive_request(setting, call, args)
            }
            Message::Reply {
                tid,
                face,
                function: _,
                answer,
            } => {
                drop(face);
                self.receive_reply(setting, &tid, answer, trace)
            }
        }
    }

    /// A request: function 0 is answered at once, and any other begins a method.
    fn receive_request(
        &mut self,
        setting: &Setting,
        call: Call,
        args: Vec<Value>,
    ) -> Result<(), NoMemory>
        requires of { IsEndOf (setting_of setting.now) self.old }
        requires sound { IsSound setting.now.registry }
        ensures received { OnOk result (self.new ≡ on_side (requested (setting_of setting.now) call.entry.tid.now call.entry.oid call.entry.face call.entry.function (map plain_of args.items)) self.old) }
        ensures rests { rests self.new.side ≡ rests self.old.side }
        ensures names { self.new ≡ with_side self.new.side self.old }
    {
        if call.function == 0 {
            let said = answer_at_once(self.alloc, setting, call, &args, &mut self.tables);
            drop(args);
            return said;
        }
        let args = home_each(setting, args);
        begin_there(
            self.alloc,
            setting,
            call,
            args,
            &mut self.stacks,
            &mut self.tables,
        )
    }

    /// A reply: the call that waited for it is gone, and the frame below gets what it answers.
    fn receive_reply(
        &mut self,
        setting: &Setting,
        tid: &Tid,
        answer: Answer,
        trace: &mut Trace,
    ) -> Result<(), NoMemory>
        requires of { IsEndOf (setting_of setting.now) self.old }
        requires sound { IsSound setting.now.registry }
        requires stands { stands self.old.side ≡ true }
        ensures received { OnOk result (self.new ≡ on_side (replied (setting_of setting.now) tid.now (answer_of answer)) self.old) }
        ensures counted { OnOk result (trace.new.references ≡ trace.old.references + length (refs_of_answer (answer_of answer))) }
        ensures began { trace.new.frames_made ≡ trace.old.frames_made }
        ensures back { HasRoots (setting_of setting.now) self.old.side → rests (undone trace.new self.new.side) ≡ rests (undone trace.old self.old.side) }
        ensures names { self.new ≡ with_side self.new.side self.old }
    {
        if let Err(error) = count_answer(self.alloc, &answer, trace) {
            drop(answer);
            return Err(error);
        }
        let answer = home_answer(setting, answer);
        drop(self.stacks.pop(tid));
        if !self.may_get(tid, &answer) {
            drop(answer);
            return Err(NoMemory);
        }
        let answered = hand_from_peer(
            self.alloc,
            setting,
            tid,
            answer,
            &mut self.stacks,
            &mut self.tables,
        )?;
        trace.note(answered);
        Ok(())
    }

    /// Whether the outcome of the root on top has all that an answer holds.
    fn may_get(&self, tid: &Tid, answer: &Answer) -> bool
        ensures { (root : ℕ) → (fs : List plain.Frame) → frames_of tid.now self.now.side.stacks ≡ plain.base root ∷ fs → result ≡ is_whole (state_of root self.now.side.tables.roots) (answer_of answer.now) }
    {
        match root_in(self.stacks.top(tid)) {
            Some(root) => gets_whole(self.tables.root(root), answer),
            None => true,
        }
    }
}

/// A reply is counted with the objects that it refers to, and there is room for the root that it may answer.
fn count_answer(alloc: Global, answer: &Answer, trace: &mut Trace) -> Result<(), NoMemory>
    ensures counted { OnOk result (trace.new.references ≡ trace.old.references + length (refs_of_answer (answer_of answer.now))) }
    ensures room { OnOk result (vec_len trace.new.answered < vec_capacity trace.new.answered) }
    ensures answered { trace.new.answered.items ≡ trace.old.answered.items }
    ensures frames { trace.new.frames_made ≡ trace.old.frames_made }
{
    let references = refs_of_answer(alloc, answer)?.len();
    trace.count(references)?;
    trace.answered.reserve(1)?;
    Ok(())
}

/// The root that a frame is.
fn root_in(frame: Option<&Frame>) -> Option<u32>
    ensures root { IfSome result (λ r. option_map (λ f. frame_of f.now) frame.entry ≡ Some (plain.base r)) }
    ensures none { IfNone result ((r : ℕ) → option_map (λ f. frame_of f.now) frame.entry ≡ Some (plain.base r) → ⊥) }
{
    match frame {
        Some(Frame::Base { root }) => Some(*root),
        Some(Frame::Body(_)) | Some(Frame::Out(_)) | None => None,
    }
}

/// Whether the outcome of a root in this state has all that an answer holds.
fn gets_whole(state: Option<&Root>, answer: &Answer) -> bool
    ensures { result ≡ is_whole (unwrap_or (option_map (λ r. root_of r.now) state.entry) idle) (answer_of answer.now) }
{
    match state {
        Some(Root::Queries(_)) => gives_one(answer),
        Some(Root::Idle) | Some(Root::Calls) | Some(Root::Answered(_)) | None => true,
    }
}

/// Whether an answer gives no values of parameters, as none to a query does.
fn gives_one(answer: &Answer) -> bool
    ensures { (wanted : List ℕ) → result ≡ is_whole (waits_query wanted) (answer_of answer.now) }
{
    match answer {
        Answer::Returned { value: _, outs } => outs.is_empty(),
        Answer::Raised(_) => true,
    }
}

/// Function 0 is answered at once.
fn answer_at_once(
    alloc: Global,
    setting: &Setting,
    call: Call,
    args: &[Value],
    tables: &mut Tables,
) -> Result<(), NoMemory>
    requires of { IsOf (setting_of setting.now) tables.old }
    requires sound { IsSound setting.now.registry }
    ensures said { OnOk result (tables.new ≡ on_tables (answers_at_once (setting_of setting.now) call.entry.tid.now call.entry.oid call.entry.face (map plain_of args.now)) tables.old) }
    ensures kept { OnErr result (quiet tables.new ≡ quiet tables.old) }
{
    let Call {
        tid,
        oid,
        face,
        function: _,
    } = call;
    let tid = tid.copy()?;
    let value = answer_asked(setting, &oid, args, tables)?;
    let message = Message::Reply {
        tid,
        face,
        function: 0,
        answer: Answer::Returned {
            value,
            outs: Vec::new(alloc),
        },
    };
    tables.say(setting, message)
}

/// What is answered to the arguments of function 0, the first of which is the type that is asked for.
fn answer_asked(
    setting: &Setting,
    oid: &Text,
    args: &[Value],
    tables: &Tables,
) -> Result<Value, NoMemory>
    requires of { IsOf (setting_of setting.now) tables.now }
    requires sound { IsSound setting.now.registry }
    ensures { IfOk result (λ x. plain_of x ≡ receiving.answer_to (setting_of setting.now) oid.now (asked_kind (map plain_of args.now)) tables.now.tables.objects) }
{
    match args.first() {
        Some(Value::Kind(kind)) => answer_to(setting, oid, kind, tables),
        _ => {
            let void = TypeName::Void;
            let answer = answer_to(setting, oid, &void, tables);
            drop(void);
            answer
        }
    }
}

/// What the object of an identity or a name answers.
fn answer_to(
    setting: &Setting,
    oid: &Text,
    wanted: &TypeName,
    tables: &Tables,
) -> Result<Value, NoMemory>
    requires of { IsOf (setting_of setting.now) tables.now }
    requires sound { IsSound setting.now.registry }
    ensures { IfOk result (λ x. plain_of x ≡ receiving.answer_to (setting_of setting.now) oid.now (kind_of wanted.now) tables.now.tables.objects) }
{
    if setting.is_own(oid.as_str().as_bytes()) {
        tables.object_answer(setting, oid, wanted)
    } else {
        tables.name_answer(setting, oid, wanted)
    }
}
