//! What roots begin.
ghost use Rattle.std.specs.Prelude.{◌≡◌, ◌≢◌, ◌+◌, ◌-◌, ◌<◌, ◌≤◌, ◌^◌, true, OnErr, OnOk, length, map};
ghost use Rattle.bridge_journal.specs.Logs.{entered};
ghost use Rattle.bridge_model.specs.Answers as answers;
ghost use Rattle.bridge_model.specs.Answers.{begun};
ghost use Rattle.bridge_model.specs.Entries as plain;
ghost use Rattle.bridge_model.specs.Steps.{counted, does, may_begin};
ghost use Rattle.bridge_setting.specs.Settings.{setting_of};
ghost use Rattle.bridge_laws.specs.Giving.{MayGive};
ghost use Rattle.plan_types.specs.Plans.{plan_of};
ghost use Rattle.uno_model.specs.Sound.{IsSound};
ghost use Rattle.uno_values.specs.Values.{plain_of};
ghost use Rattle.bridge_state.specs.EndSides.{IsEndOf, on_side, with_side};
ghost use Rattle.bridge_state.specs.Roots.{MayBegin};
ghost use Rattle.bridge_state.specs.Undoing.{remains};
ghost use Rattle.bridge_endpoint.specs.Answering.{begun_state, begun_told};
ghost use Rattle.bridge_endpoint.specs.Entering.{IsWithin, begun_by, with_room};
ghost use Rattle.bridge_endpoint.specs.Journals.{setting_at, side_at};

use crate::entering::{enter, reserve, run_out};
use crate::{Begun, Endpoint, RootState};
use bridge_journal::{Entry, Journal};
use bridge_setting::Setting;
use bridge_state::State;
use std::alloc::Global;
use uno_base::NoMemory;
use uno_types::{Name, Text};
use uno_values::{Value, copy_all};

impl Endpoint {
    /// A root asks the peer for the object of an exported name, under the wanted interface.
    pub fn ask(&mut self, root: u32, name: &Text, wanted: &Name) -> Begun
        requires idle { may_begin (setting_at self.old) root (side_at self.old) ≡ true }
        requires gives { MayGive (setting_at self.old) (plain.asked root name.now wanted.now) }
        ensures answer { begun_told result ≢ answers.no_room_left → begun_told result ≡ begun (setting_at self.old) (side_at self.old) (plain.asked root name.now wanted.now) }
        ensures entered { self.new ≡ begun_by result (plain.asked root name.now wanted.now) self.old }
    {
        if let Some(refused) = self.refused() {
            return refused.begun();
        }
        match ask_standing(
            &self.setting,
            &mut self.state,
            &mut self.journal,
            root,
            name,
            wanted,
        ) {
            Ok(()) => started(self.state.root_state(root)),
            Err(NoMemory) => {
                run_out(&mut self.state, &mut self.journal);
                Begun::NoMemory
            }
        }
    }

    /// A root calls a function of an object that it holds.
    pub fn call(
        &mut self,
        root: u32,
        oid: &Text,
        face: &Name,
        function: u16,
        args: Vec<Value>,
    ) -> Begun
        requires idle { may_begin (setting_at self.old) root (side_at self.old) ≡ true }
        requires gives { MayGive (setting_at self.old) (plain.called root oid.now face.now function (map plain_of args.items)) }
        ensures answer { begun_told result ≢ answers.no_room_left → begun_told result ≡ begun (setting_at self.old) (side_at self.old) (plain.called root oid.now face.now function (map plain_of args.items)) }
        ensures entered { self.new ≡ begun_by result (plain.called root oid.now face.now function (map plain_of args.items)) self.old }
    {
        if let Some(refused) = self.refused() {
            drop(args);
            return refused.begun();
        }
        if !self.state.root_holds(root, oid, face) {
            drop(args);
            return Begun::NotHeld;
        }
        if !self.state.may_give(&self.setting, root, &args) {
            drop(args);
            return Begun::NotHeld;
        }
        match call_standing(
            self.alloc,
            &self.setting,
            &mut self.state,
            &mut self.journal,
            root,
            oid,
            face,
            function,
            args,
        ) {
            Ok(()) => started(self.state.root_state(root)),
            Err(NoMemory) => {
                run_out(&mut self.state, &mut self.journal);
                Begun::NoMemory
            }
        }
    }

    /// A root asks an object that it holds for another interface.
    pub fn query(&mut self, root: u32, oid: &Text, face: &Name, wanted: &Name) -> Begun
        requires idle { may_begin (setting_at self.old) root (side_at self.old) ≡ true }
        requires gives { MayGive (setting_at self.old) (plain.queried root oid.now face.now wanted.now) }
        ensures answer { begun_told result ≢ answers.no_room_left → begun_told result ≡ begun (setting_at self.old) (side_at self.old) (plain.queried root oid.now face.now wanted.now) }
        ensures entered { self.new ≡ begun_by result (plain.queried root oid.now face.now wanted.now) self.old }
    {
        if let Some(refused) = self.refused() {
            return refused.begun();
        }
        if !self.state.root_holds(root, oid, face) {
            return Begun::NotHeld;
        }
        match query_standing(
            &self.setting,
            &mut self.state,
            &mut self.journal,
            root,
            oid,
            face,
            wanted,
        ) {
            Ok(()) => started(self.state.root_state(root)),
            Err(NoMemory) => {
                run_out(&mut self.state, &mut self.journal);
                Begun::NoMemory
            }
        }
    }
}

/// What a root is answered that began something, by its state behind it.
fn started(state: RootState) -> Begun
    ensures { result ≡ begun_state state }
{
    match state {
        RootState::Answered => Begun::Answered,
        RootState::Idle | RootState::Waits => Begun::Started,
    }
}

fn ask_standing(
    setting: &Setting,
    state: &mut State,
    journal: &mut Journal,
    root: u32,
    name: &Text,
    wanted: &Name,
) -> Result<(), NoMemory>
    requires of { IsEndOf (setting_of setting.now) state.old }
    requires sound { IsSound setting.now.registry }
    requires may { MayBegin (setting_of setting.now) root state.old.side }
    requires roots { setting.now.names.roots ≡ length (plan_of setting.now.plan).threads }
    requires few { state.old.side.entries < 2 ^ 64 - 1 }
    ensures done { OnOk result (state.new ≡ on_side (λ s. counted (plain.asked root name.now wanted.now) (does (setting_of setting.now) (plain.asked root name.now wanted.now) s).side) state.old) }
    ensures entered { OnOk result (journal.new ≡ with_room (journal.old.room + 1) (entered (plain.asked root name.now wanted.now) journal.old)) }
    ensures lost { OnErr result (remains state.new.side ≡ remains state.old.side) }
    ensures names { OnErr result (state.new ≡ with_side state.new.side state.old) }
    ensures nothing { OnErr result (journal.new ≡ with_room journal.new.room journal.old) }
    ensures least { OnErr result (journal.old.room ≤ journal.new.room) }
    ensures within { IsWithin journal.old → IsWithin journal.new }
{
    reserve(journal, 2)?;
    let entry = Entry::Asked {
        root,
        name: name.copy()?,
        wanted: wanted.copy()?,
    };
    state.root_asks(setting, root, name, wanted)?;
    enter(state, journal, entry);
    Ok(())
}

fn call_standing(
    alloc: Global,
    setting: &Setting,
    state: &mut State,
    journal: &mut Journal,
    root: u32,
    oid: &Text,
    face: &Name,
    function: u16,
    args: Vec<Value>,
) -> Result<(), NoMemory>
    requires of { IsEndOf (setting_of setting.now) state.old }
    requires sound { IsSound setting.now.registry }
    requires may { MayBegin (setting_of setting.now) root state.old.side }
    requires roots { setting.now.names.roots ≡ length (plan_of setting.now.plan).threads }
    requires few { state.old.side.entries < 2 ^ 64 - 1 }
    ensures done { OnOk result (state.new ≡ on_side (λ s. counted (plain.called root oid.now face.now function (map plain_of args.items)) (does (setting_of setting.now) (plain.called root oid.now face.now function (map plain_of args.items)) s).side) state.old) }
    ensures entered { OnOk result (journal.new ≡ with_room (journal.old.room + 1) (entered (plain.called root oid.now face.now function (map plain_of args.items)) journal.old)) }
    ensures lost { OnErr result (remains state.new.side ≡ remains state.old.side) }
    ensures names { OnErr result (state.new ≡ with_side state.new.side state.old) }
    ensures nothing { OnErr result (journal.new ≡ with_room journal.new.room journal.old) }
    ensures least { OnErr result (journal.old.room ≤ journal.new.room) }
    ensures within { IsWithin journal.old → IsWithin journal.new }
{
    reserve(journal, 2)?;
    let entry = Entry::Called {
        root,
        oid: oid.copy()?,
        face: face.copy()?,
        function,
        args: copy_all(&args, alloc)?,
    };
    state.root_calls(setting, root, oid, face, function, args)?;
    enter(state, journal, entry);
    Ok(())
}

fn query_standing(
    setting: &Setting,
    state: &mut State,
    journal: &mut Journal,
    root: u32,
    oid: &Text,
    face: &Name,
    wanted: &Name,
) -> Result<(), NoMemory>
    requires of { IsEndOf (setting_of setting.now) state.old }
    requires sound { IsSound setting.now.registry }
    requires may { MayBegin (setting_of setting.now) root state.old.side }
    requires roots { setting.now.names.roots ≡ length (plan_of setting.now.plan).threads }
    requires few { state.old.side.entries < 2 ^ 64 - 1 }
    ensures done { OnOk result (state.new ≡ on_side (λ s. counted (plain.queried root oid.now face.now wanted.now) (does (setting_of setting.now) (plain.queried root oid.now face.now wanted.now) s).side) state.old) }
    ensures entered { OnOk result (journal.new ≡ with_room (journal.old.room + 2) (entered (plain.queried root oid.now face.now wanted.now) journal.old)) }
    ensures lost { OnErr result (remains state.new.side ≡ remains state.old.side) }
    ensures names { OnErr result (state.new ≡ with_side state.new.side state.old) }
    ensures nothing { OnErr result (journal.new ≡ with_room journal.new.room journal.old) }
    ensures least { OnErr result (journal.old.room ≤ journal.new.room) }
    ensures within { IsWithin journal.old → IsWithin journal.new }
{
    reserve(journal, 3)?;
    let entry = Entry::Queried {
        root,
        oid: oid.copy()?,
        face: face.copy()?,
        wanted: wanted.copy()?,
    };
    state.root_queries(setting, root, oid, face, wanted)?;
    enter(state, journal, entry);
    Ok(())
}
