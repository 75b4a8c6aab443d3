//! What roots begin: calls, queries, and asking the peer for a name.
ghost use Rattle.std.specs.Prelude.{◌≡◌, true, [], IfOk, OnOk, OnErr, length, map};
ghost use Rattle.bridge_model.specs.Calls.{calls_own, calls_peer};
ghost use Rattle.bridge_model.specs.Calls as plain;
ghost use Rattle.bridge_model.specs.Objects.{object_answer};
ghost use Rattle.bridge_model.specs.References.{gains_all};
ghost use Rattle.bridge_model.specs.Roots.{asks_peer, bottom, is_answered, root_calls, root_queries, root_asks};
ghost use Rattle.bridge_model.specs.Settings.{root_tid};
ghost use Rattle.bridge_model.specs.Sides.{on_tables};
ghost use Rattle.bridge_model.specs.Stacks.{with_unwound};
ghost use Rattle.bridge_setting.specs.Settings.{setting_of};
ghost use Rattle.bridge_tables.specs.Roots.{root_of};
ghost use Rattle.message_model.specs.Messages.{returned};
ghost use Rattle.plan_model.specs.Frames.{frames_of};
ghost use Rattle.plan_model.specs.Leaving as leaving;
ghost use Rattle.plan_types.specs.Plans.{plan_of};
ghost use Rattle.table_model.specs.declared.holder.Holder.TheVariants as holder;
ghost use Rattle.uno_model.specs.Kinds as kd;
ghost use Rattle.uno_model.specs.Sound.{IsSound};
ghost use Rattle.uno_model.specs.Values.{refs};
ghost use Rattle.uno_values.specs.Values.{plain_of};
ghost use Rattle.urp_message.specs.Messages.{answer_of};
ghost use Rattle.bridge_state.specs.EndSides.{IsEndOf, on_side, with_side};
ghost use Rattle.bridge_state.specs.Roots.{MayBegin, answers_own, begins_own, begins_peer};
ghost use Rattle.bridge_state.specs.Undoing.{remains};

use crate::State;
use behaviour::{caused, why_too_much};
use bridge_frames::{Call, begin_here, call_peer, query_args, root_gets};
use bridge_setting::Setting;
use bridge_tables::{Outcome, Root};
use plan_types::{Frame, RuntimeCause};
use table_model::Holder;
use uno_base::NoMemory;
use uno_types::{Name, Text, Tid, TypeName};
use uno_values::{Value, refs_of};
use urp_message::Answer;

/// The interface of all objects, under which the peer is asked for a name.
const X_INTERFACE: &str = "com.sun.star.uno.XInterface";

impl State {
    /// A root calls a function of an object. Where the request would be too large or an argument is nested too deep, the root is answered at once.
    #[tactic(auto, unfolding(bridge_model::specs::Roots::root_calls))]
    pub fn root_calls(
        &mut self,
        setting: &Setting,
        root: u32,
        oid: &Text,
        face: &Name,
        function: u16,
        args: Vec<Value>,
    ) -> Result<(), NoMemory>
        requires of { IsEndOf (setting_of setting.now) self.old }
        requires sound { IsSound setting.now.registry }
        requires may { MayBegin (setting_of setting.now) root self.old.side }
        requires roots { setting.now.names.roots ≡ length (plan_of setting.now.plan).threads }
        ensures called { OnOk result (self.new ≡ on_side (root_calls (setting_of setting.now) root oid.now face.now function (map plain_of args.items)) self.old) }
        ensures lost { OnErr result (remains self.new.side ≡ remains self.old.side) }
        ensures names { self.new ≡ with_side self.new.side self.old }
    {
        let Some(tid) = setting.root_tid(root) else {
            drop(args);
            return Err(NoMemory);
        };
        if let Some(cause) = why_too_much(tid, oid.as_str(), face.as_str(), &args) {
            drop(args);
            return self.answer_root(root, cause);
        }
        let Ok(object) = oid.copy() else {
            drop(args);
            return Err(NoMemory);
        };
        let Ok(under) = face.copy() else {
            drop(object);
            drop(args);
            return Err(NoMemory);
        };
        let call = Call {
            tid,
            oid: object,
            face: under,
            function,
        };
        if setting.is_own(oid.as_str().as_bytes()) {
            self.begin_own(setting, root, call, args)
        } else {
            self.begin_peer(setting, root, Root::Calls, call, args)
        }
    }

    /// A root asks an object for another interface. An own object answers at once.
    #[tactic(auto, unfolding(bridge_model::specs::Roots::root_queries))]
    pub fn root_queries(
        &mut self,
        setting: &Setting,
        root: u32,
        oid: &Text,
        face: &Name,
        wanted: &Name,
    ) -> Result<(), NoMemory>
        requires of { IsEndOf (setting_of setting.now) self.old }
        requires sound { IsSound setting.now.registry }
        requires may { MayBegin (setting_of setting.now) root self.old.side }
        requires roots { setting.now.names.roots ≡ length (plan_of setting.now.plan).threads }
        ensures queried { OnOk result (self.new ≡ on_side (root_queries (setting_of setting.now) root oid.now face.now wanted.now) self.old) }
        ensures lost { OnErr result (remains self.new.side ≡ remains self.old.side) }
        ensures names { self.new ≡ with_side self.new.side self.old }
    {
        let Some(tid) = setting.root_tid(root) else {
            return Err(NoMemory);
        };
        let args = query_args(self.alloc, wanted.copy()?)?;
        if let Some(cause) = why_too_much(tid, oid.as_str(), face.as_str(), &args) {
            drop(args);
            return self.answer_root(root, cause);
        }
        if setting.is_own(oid.as_str().as_bytes()) {
            drop(args);
            return self.query_own(setting, root, oid, wanted);
        }
        let Ok(under) = face.copy() else {
            drop(args);
            return Err(NoMemory);
        };
        self.ask_peer(setting, root, tid, oid, under, wanted, args)
    }

    /// A root asks the peer for the object of an exported name, under the wanted interface.
    #[tactic(auto, unfolding(bridge_model::specs::Roots::root_asks))]
    pub fn root_asks(
        &mut self,
        setting: &Setting,
        root: u32,
        name: &Text,
        wanted: &Name,
    ) -> Result<(), NoMemory>
        requires of { IsEndOf (setting_of setting.now) self.old }
        requires sound { IsSound setting.now.registry }
        requires may { MayBegin (setting_of setting.now) root self.old.side }
        requires roots { setting.now.names.roots ≡ length (plan_of setting.now.plan).threads }
        ensures asked { OnOk result (self.new ≡ on_side (root_asks (setting_of setting.now) root name.now wanted.now) self.old) }
        ensures lost { OnErr result (remains self.new.side ≡ remains self.old.side) }
        ensures names { self.new ≡ with_side self.new.side self.old }
    {
        let Some(tid) = setting.root_tid(root) else {
            return Err(NoMemory);
        };
        let args = query_args(self.alloc, wanted.copy()?)?;
        if let Some(cause) = why_too_much(tid, name.as_str(), X_INTERFACE, &args) {
            drop(args);
            return self.answer_root(root, cause);
        }
        let Ok(face) = Name::of(self.alloc, X_INTERFACE) else {
            drop(args);
            return Err(NoMemory);
        };
        self.ask_peer(setting, root, tid, name, face, wanted, args)
    }

    /// A root is answered with a RuntimeException.
    fn answer_root(&mut self, root: u32, cause: RuntimeCause) -> Result<(), NoMemory>
        ensures answered { OnOk result (self.new ≡ on_side (is_answered root (leaving.caused cause)) self.old) }
        ensures kept { OnErr result (self.new ≡ self.old) }
    {
        let exception = caused(self.alloc, cause)?;
        let outcome = Outcome::Raised(exception);
        drop(self.tables.set_root(root, Root::Answered(outcome)));
        Ok(())
    }

    /// The peer is asked for the wanted interface, of an object or of a name.
    fn ask_peer(
        &mut self,
        setting: &Setting,
        root: u32,
        tid: &Tid,
        oid: &Text,
        face: Name,
        wanted: &Name,
        args: Vec<Value>,
    ) -> Result<(), NoMemory>
        requires of { IsEndOf (setting_of setting.now) self.old }
        requires sound { IsSound setting.now.registry }
        requires may { MayBegin (setting_of setting.now) root self.old.side }
        requires thread { tid.now ≡ root_tid (setting_of setting.now) root }
        requires args { map plain_of args.items ≡ plain.query_args wanted.now }
        ensures asked { OnOk result (self.new ≡ on_side (asks_peer (setting_of setting.now) root oid.now face wanted.now) self.old) }
        ensures lost { OnErr result (remains self.new.side ≡ remains self.old.side) }
        ensures names { self.new ≡ with_side self.new.side self.old }
    {
        let Ok(object) = oid.copy() else {
            drop(face);
            drop(args);
            return Err(NoMemory);
        };
        let call = Call {
            tid,
            oid: object,
            face,
            function: 0,
        };
        let Ok(wanted) = wanted.copy() else {
            drop(call);
            drop(args);
            return Err(NoMemory);
        };
        self.begin_peer(setting, root, Root::Queries(wanted), call, args)
    }

    /// An own object answers a query at once.
    fn query_own(
        &mut self,
        setting: &Setting,
        root: u32,
        oid: &Text,
        wanted: &Name,
    ) -> Result<(), NoMemory>
        requires of { IsEndOf (setting_of setting.now) self.old }
        requires sound { IsSound setting.now.registry }
        requires may { MayBegin (setting_of setting.now) root self.old.side }
        ensures answered { OnOk result (self.new ≡ on_side (answers_own (setting_of setting.now) root oid.now wanted.now) self.old) }
        ensures lost { OnErr result (remains self.new.side ≡ remains self.old.side) }
        ensures names { self.new ≡ with_side self.new.side self.old }
    {
        let asked = Root::Queries(wanted.copy()?);
        match self.own_answer(setting, root, oid, wanted) {
            Ok(answer) => {
                drop(self.tables.set_root(root, asked));
                drop(root_gets(setting, root, answer, &mut self.tables));
                Ok(())
            }
            Err(NoMemory) => {
                drop(asked);
                Err(NoMemory)
            }
        }
    }

    /// What an own object answers, which the root holds.
    fn own_answer(
        &mut self,
        setting: &Setting,
        root: u32,
        oid: &Text,
        wanted: &Name,
    ) -> Result<Answer, NoMemory>
        requires of { IsEndOf (setting_of setting.now) self.old }
        requires sound { IsSound setting.now.registry }
        ensures answer { IfOk result (λ a. answer_of a ≡ returned (object_answer (setting_of setting.now) oid.now (kd.interface wanted.now) self.old.side.tables.objects) []) }
        ensures held { OnOk result (self.new ≡ on_side (on_tables (gains_all (holder.Root root) (refs (object_answer (setting_of setting.now) oid.now (kd.interface wanted.now) self.old.side.tables.objects)))) self.old) }
        ensures kept { OnErr result (self.new ≡ self.old) }
    {
        let value = self.own_value(setting, oid, wanted)?;
        if let Err(error) = self.hold_value(setting, root, &value) {
            drop(value);
            return Err(error);
        }
        Ok(Answer::Returned {
            value,
            outs: Vec::new(self.alloc),
        })
    }

    /// A root holds what a value refers to.
    fn hold_value(&mut self, setting: &Setting, root: u32, value: &Value) -> Result<(), NoMemory>
        requires { IsEndOf (setting_of setting.now) self.old }
        ensures held { OnOk result (self.new ≡ on_side (on_tables (gains_all (holder.Root root) (refs (plain_of value.now)))) self.old) }
        ensures kept { OnErr result (self.new ≡ self.old) }
    {
        let references = refs_of(self.alloc, value)?;
        let holder = Holder::Root(root);
        if let Err(error) = self.tables.gain_all(setting, holder, &references) {
            return Err(error);
        }
        Ok(())
    }

    fn own_value(&self, setting: &Setting, oid: &Text, wanted: &Name) -> Result<Value, NoMemory>
        requires of { IsEndOf (setting_of setting.now) self.now }
        requires sound { IsSound setting.now.registry }
        ensures { IfOk result (λ x. plain_of x ≡ object_answer (setting_of setting.now) oid.now (kd.interface wanted.now) self.now.side.tables.objects) }
    {
        let kind = TypeName::Interface(wanted.copy()?);
        let answer = self.tables.object_answer(setting, oid, &kind);
        drop(kind);
        answer
    }

    /// A root waits for the call of an own object, which begins above it.
    fn begin_own(
        &mut self,
        setting: &Setting,
        root: u32,
        call: Call,
        args: Vec<Value>,
    ) -> Result<(), NoMemory>
        requires of { IsEndOf (setting_of setting.now) self.old }
        requires sound { IsSound setting.now.registry }
        requires may { MayBegin (setting_of setting.now) root self.old.side }
        requires thread { call.tid.now ≡ root_tid (setting_of setting.now) root }
        ensures begun { OnOk result (self.new ≡ on_side (begins_own (setting_of setting.now) root call.entry.oid call.entry.face call.entry.function (map plain_of args.items)) self.old) }
        ensures lost { OnErr result (remains self.new.side ≡ remains self.old.side) }
        ensures names { self.new ≡ with_side self.new.side self.old }
    {
        let before = self.tables.set_root(root, Root::Calls);
        match self.own_above(setting, root, call, args) {
            Ok(()) => {
                drop(before);
                Ok(())
            }
            Err(NoMemory) => {
                drop(self.tables.set_root(root, before));
                Err(NoMemory)
            }
        }
    }

    fn own_above(
        &mut self,
        setting: &Setting,
        root: u32,
        call: Call,
        args: Vec<Value>,
    ) -> Result<(), NoMemory>
        requires of { IsEndOf (setting_of setting.now) self.old }
        requires sound { IsSound setting.now.registry }
        requires none { frames_of call.tid.now self.old.side.stacks ≡ [] }
        ensures begun { OnOk result (self.new ≡ on_side (λ s. with_unwound call.entry.tid.now (calls_own (setting_of setting.now) call.entry.oid call.entry.face call.entry.function (map plain_of args.items) (bottom root) s.tables) s) self.old) }
        ensures lost { OnErr result (remains self.new.side ≡ remains self.old.side) }
        ensures names { self.new ≡ with_side self.new.side self.old }
    {
        if let Err(error) = self.stacks.push(call.tid, Frame::Base { root }) {
            drop(call);
            drop(args);
            return Err(error);
        }
        begin_here(
            self.alloc,
            setting,
            call,
            args,
            &mut self.stacks,
            &mut self.tables,
        )
    }

    /// A root waits for the answer of the peer to a request.
    fn begin_peer(
        &mut self,
        setting: &Setting,
        root: u32,
        waits: Root,
        call: Call,
        args: Vec<Value>,
    ) -> Result<(), NoMemory>
        requires of { IsEndOf (setting_of setting.now) self.old }
        requires sound { IsSound setting.now.registry }
        requires may { MayBegin (setting_of setting.now) root self.old.side }
        requires thread { call.tid.now ≡ root_tid (setting_of setting.now) root }
        ensures begun { OnOk result (self.new ≡ on_side (begins_peer (setting_of setting.now) root (root_of waits) call.entry.oid call.entry.face call.entry.function (map plain_of args.items)) self.old) }
        ensures lost { OnErr result (remains self.new.side ≡ remains self.old.side) }
        ensures names { self.new ≡ with_side self.new.side self.old }
    {
        let before = self.tables.set_root(root, waits);
        match self.peer_above(setting, root, call, args) {
            Ok(()) => {
                drop(before);
                Ok(())
            }
            Err(NoMemory) => {
                drop(self.tables.set_root(root, before));
                Err(NoMemory)
            }
        }
    }

    fn peer_above(
        &mut self,
        setting: &Setting,
        root: u32,
        call: Call,
        args: Vec<Value>,
    ) -> Result<(), NoMemory>
        requires of { IsEndOf (setting_of setting.now) self.old }
        requires sound { IsSound setting.now.registry }
        requires none { frames_of call.tid.now self.old.side.stacks ≡ [] }
        ensures begun { OnOk result (self.new ≡ on_side (λ s. with_unwound call.entry.tid.now (calls_peer (setting_of setting.now) call.entry.tid.now call.entry.oid call.entry.face call.entry.function (map plain_of args.items) (bottom root) s.tables) s) self.old) }
        ensures lost { OnErr result (remains self.new.side ≡ remains self.old.side) }
        ensures names { self.new ≡ with_side self.new.side self.old }
    {
        if let Err(error) = self.stacks.push(call.tid, Frame::Base { root }) {
            drop(call);
            drop(args);
            return Err(error);
        }
        call_peer(setting, call, args, &mut self.stacks, &mut self.tables)
    }
}
