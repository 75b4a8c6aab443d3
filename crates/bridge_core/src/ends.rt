//! The calls of an endpoint, of each end that a value has.
ghost use Rattle.std.specs.Prelude.{◌≡◌, ◌≢◌, ◌↔◌, ◌≤◌, ℕ, Bool, List, suc, true, false, IfOk, IfSome, IfNone, OnErr, OnOk, length, map, option_map};
ghost use Rattle.bridge_journal.specs.Logs.{entry_of};
ghost use Rattle.bridge_model.specs.Answers as answers;
ghost use Rattle.bridge_model.specs.Answers.{begun, drained_next, feed_answer, next_cut, no_room, pick};
ghost use Rattle.bridge_model.specs.Entries as plain;
ghost use Rattle.bridge_model.specs.Histories.{Leads};
ghost use Rattle.bridge_model.specs.Roots.{holds_pair, outcome_in};
ghost use Rattle.bridge_model.specs.Settings.{own_oid};
ghost use Rattle.bridge_model.specs.Sides.{stands, state_of};
ghost use Rattle.bridge_model.specs.Steps.{is_no_memory, is_root, may_begin};
ghost use Rattle.bridge_endpoint.specs.Telling.{counts_told, outcome_of, state_told};
ghost use Rattle.bridge_laws.specs.Giving.{MayGive, RootsGive};
ghost use Rattle.plan_model.specs.Effects as effects;
ghost use Rattle.plan_types.specs.Frames.{job_of};
ghost use Rattle.plan_types.specs.Plans.{plan_of};
ghost use Rattle.uno_entities.specs.Tag.{IsTag};
ghost use Rattle.uno_model.specs.BuiltIn.{HasBuiltIn};
ghost use Rattle.uno_model.specs.Sound.{IsSound};
ghost use Rattle.uno_values.specs.Values.{plain_of};
ghost use Rattle.behaviour.specs.Effects.{effect_of};
ghost use Rattle.behaviour.specs.Roots.{run_of};
ghost use Rattle.bridge_endpoint.specs.Answering.{AppliedSo, IsMadeOid, begun_told, fed_told, made_answer, made_told};
ghost use Rattle.bridge_endpoint.specs.Entering.{applied_by, begun_by, draining, fed_by, how_ended, made_by, out_of_memory};
ghost use Rattle.bridge_endpoint.specs.Journals as journals;
ghost use Rattle.bridge_endpoint.specs.Journals.{IsSetUp, setting_at, side_at, told_at, with_entry};
ghost use Rattle.bridge_core.specs.Moving.{StepsSo};
ghost use Rattle.bridge_core.specs.Standing.{IsRunAt};
ghost use Rattle.bridge_core.specs.Sides.{is_a};
ghost use Rattle.bridge_core.specs.declared.side.Side.{Side};

use crate::{RootMoved, Side, root_step};
use behaviour::{Done, RootRun};
use bridge_endpoint::{
    ApplyError, Begun, Counts, Endpoint, Entry, Fed, Made, NotHeld, Outcome, RootState,
};
use bridge_model::{Cause, InputEnd};
use plan_types::{Job, Plan};
use uno_base::NoMemory;
use uno_types::{Name, Registry, Text, Tid};
use uno_values::Value;

/// One or two ends of a bridge. Each call is that of the endpoint at a side, and leaves the other as it is.
pub trait Ends {
    /// The endpoint at a side, where there is one.
    ghost end_at: { Self → Side → journals.Endpoint };

    /// Which sides there are.
    ghost has: { Self → Side → Bool };

    /// Which pieces may be fed at a side: any, but where the other end is known, which must have said them next.
    ghost may_feed: { Self → Side → List ℕ → Type 0 };

    /// What an end entered stands behind all that was entered before, where there is another end.
    ghost grows: { Side → Self → Self → Type 0 };

    /// Bytes come in: the front of a piece is taken, at most to the end of a block and as much as the limit of fed bytes leaves, and the messages of a block that is
    /// whole are received.
    fn feed(&mut self, side: Side, piece: &[u8]) -> Fed
        requires side { has self.old side ≡ true }
        requires piece { may_feed self.old side piece.now }
        ensures answer { fed_told result ≢ no_room → fed_told result ≡ feed_answer (setting_at (end_at self.old side)) (side_at (end_at self.old side)) piece.now }
        ensures entered { end_at self.new side ≡ fed_by result (next_cut (side_at (end_at self.old side)) piece.now) (end_at self.old side) }
        ensures others { (other : Side) → has self.old other ≡ true → other ≢ side → end_at self.new other ≡ end_at self.old other }
        ensures sides { (other : Side) → has self.new other ≡ has self.old other }
        ensures history { grows side self.old self.new };

    /// No more bytes come, or they cannot be read or written. Where the bridge has ended nothing happens.
    fn end_input(&mut self, side: Side, how: InputEnd)
        requires { has self.old side ≡ true }
        ensures ended { stands (side_at (end_at self.old side)) ≡ true → end_at self.new side ≡ with_entry (how_ended how) (end_at self.old side) }
        ensures kept { stands (side_at (end_at self.old side)) ≡ false → end_at self.new side ≡ end_at self.old side }
        ensures others { (other : Side) → has self.old other ≡ true → other ≢ side → end_at self.new other ≡ end_at self.old other }
        ensures sides { (other : Side) → has self.new other ≡ has self.old other }
        ensures history { grows side self.old self.new };

    /// A root asks the peer for the object of an exported name, under the wanted interface.
    fn ask(&mut self, side: Side, root: u32, name: &Text, wanted: &Name) -> Begun
        requires side { has self.old side ≡ true }
        requires idle { may_begin (setting_at (end_at self.old side)) root (side_at (end_at self.old side)) ≡ true }
        requires gives { MayGive (setting_at (end_at self.old side)) (plain.asked root name.now wanted.now) }
        ensures answer { begun_told result ≢ answers.no_room_left → begun_told result ≡ begun (setting_at (end_at self.old side)) (side_at (end_at self.old side)) (plain.asked root name.now wanted.now) }
        ensures entered { end_at self.new side ≡ begun_by result (plain.asked root name.now wanted.now) (end_at self.old side) }
        ensures others { (other : Side) → has self.old other ≡ true → other ≢ side → end_at self.new other ≡ end_at self.old other }
        ensures sides { (other : Side) → has self.new other ≡ has self.old other }
        ensures history { grows side self.old self.new };

    /// A root calls a function of an object that it holds.
    fn call(
        &mut self,
        side: Side,
        root: u32,
        oid: &Text,
        face: &Name,
        function: u16,
        args: Vec<Value>,
    ) -> Begun
        requires side { has self.old side ≡ true }
        requires idle { may_begin (setting_at (end_at self.old side)) root (side_at (end_at self.old side)) ≡ true }
        requires gives { MayGive (setting_at (end_at self.old side)) (plain.called root oid.now face.now function (map plain_of args.items)) }
        ensures answer { begun_told result ≢ answers.no_room_left → begun_told result ≡ begun (setting_at (end_at self.old side)) (side_at (end_at self.old side)) (plain.called root oid.now face.now function (map plain_of args.items)) }
        ensures entered { end_at self.new side ≡ begun_by result (plain.called root oid.now face.now function (map plain_of args.items)) (end_at self.old side) }
        ensures others { (other : Side) → has self.old other ≡ true → other ≢ side → end_at self.new other ≡ end_at self.old other }
        ensures sides { (other : Side) → has self.new other ≡ has self.old other }
        ensures history { grows side self.old self.new };

    /// A root asks an object that it holds for another interface.
    fn query(&mut self, side: Side, root: u32, oid: &Text, face: &Name, wanted: &Name) -> Begun
        requires side { has self.old side ≡ true }
        requires idle { may_begin (setting_at (end_at self.old side)) root (side_at (end_at self.old side)) ≡ true }
        requires gives { MayGive (setting_at (end_at self.old side)) (plain.queried root oid.now face.now wanted.now) }
        ensures answer { begun_told result ≢ answers.no_room_left → begun_told result ≡ begun (setting_at (end_at self.old side)) (side_at (end_at self.old side)) (plain.queried root oid.now face.now wanted.now) }
        ensures entered { end_at self.new side ≡ begun_by result (plain.queried root oid.now face.now wanted.now) (end_at self.old side) }
        ensures others { (other : Side) → has self.old other ≡ true → other ≢ side → end_at self.new other ≡ end_at self.old other }
        ensures sides { (other : Side) → has self.new other ≡ has self.old other }
        ensures history { grows side self.old self.new };

    /// A root makes an object of a behaviour, which it holds under the wanted interface.
    fn make(&mut self, side: Side, root: u32, behaviour: u32, wanted: &Name) -> Made
        requires side { has self.old side ≡ true }
        requires root { is_root (setting_at (end_at self.old side)) root ≡ true }
        requires supports { MayGive (setting_at (end_at self.old side)) (plain.made root behaviour wanted.now) }
        ensures answer { made_told result ≢ answers.no_room_left → made_told result ≡ made_answer (side_at (end_at self.old side)) }
        ensures identity { IsMadeOid result (own_oid (setting_at (end_at self.old side)) (suc (side_at (end_at self.old side)).tables.objects_made)) }
        ensures entered { end_at self.new side ≡ made_by result (plain.made root behaviour wanted.now) (end_at self.old side) }
        ensures others { (other : Side) → has self.old other ≡ true → other ≢ side → end_at self.new other ≡ end_at self.old other }
        ensures sides { (other : Side) → has self.new other ≡ has self.old other }
        ensures history { grows side self.old self.new };

    /// What a root does.
    fn root_state(&self, side: Side, root: u32) -> RootState
        requires { has self.now side ≡ true }
        ensures { result ≡ state_told (state_of root (side_at (end_at self.now side)).tables.roots) };

    /// Takes the outcome of a root, where it has one. The references in it are held by the root still.
    fn take(&mut self, side: Side, root: u32) -> Option<Outcome>
        requires { has self.old side ≡ true }
        ensures outcome { option_map (λ o. outcome_of o) result ≡ outcome_in (state_of root (side_at (end_at self.old side)).tables.roots) }
        ensures entered { IfSome result (λ o. end_at self.new side ≡ with_entry (plain.took root) (end_at self.old side)) }
        ensures kept { IfNone result (end_at self.new side ≡ (end_at self.old side)) }
        ensures others { (other : Side) → has self.old other ≡ true → other ≢ side → end_at self.new other ≡ end_at self.old other }
        ensures sides { (other : Side) → has self.new other ≡ has self.old other }
        ensures history { grows side self.old self.new };

    /// A root lets an occurrence go. It takes no memory.
    fn drop_ref(&mut self, side: Side, root: u32, oid: Text, face: Name) -> Result<(), NotHeld>
        requires { has self.old side ≡ true }
        ensures held { OnOk result (holds_pair root oid face (side_at (end_at self.old side)).tables ≡ true) }
        ensures not_held { OnErr result (holds_pair root oid face (side_at (end_at self.old side)).tables ≡ false) }
        ensures entered { OnOk result (end_at self.new side ≡ with_entry (plain.dropped root oid face) (end_at self.old side)) }
        ensures kept { OnErr result (end_at self.new side ≡ (end_at self.old side)) }
        ensures others { (other : Side) → has self.old other ≡ true → other ≢ side → end_at self.new other ≡ end_at self.old other }
        ensures sides { (other : Side) → has self.new other ≡ has self.old other }
        ensures history { grows side self.old self.new };

    /// The thread at a place, from 0, among those whose top is a method, oldest first.
    fn ready(&self, side: Side, nth: u32) -> Option<&Tid>
        requires { has self.now side ≡ true }
        ensures { option_map (λ tid. tid.now) result ≡ answers.ready_at (side_at (end_at self.now side)) nth };

    /// The job of the method at the top of a thread, where one is there.
    fn pick(&self, side: Side, tid: &Tid) -> Result<Option<Job>, NoMemory>
        requires { has self.now side ≡ true }
        ensures { IfOk result (λ j. option_map job_of j ≡ pick (setting_at (end_at self.now side)) tid.now (side_at (end_at self.now side))) };

    /// Carries out the effect of a job, where it is still the one that would be picked.
    fn apply(&mut self, side: Side, done: Done) -> Result<(), ApplyError>
        requires side { has self.old side ≡ true }
        requires effect { effect_of done.effect ≡ effects.effect (setting_at (end_at self.old side)).plan (setting_at (end_at self.old side)).registry (job_of done.job) }
        ensures answer { AppliedSo (setting_at (end_at self.old side)) (side_at (end_at self.old side)) (job_of done.job) result }
        ensures entered { end_at self.new side ≡ applied_by result done.job.tid (end_at self.old side) }
        ensures others { (other : Side) → has self.old other ≡ true → other ≢ side → end_at self.new other ≡ end_at self.old other }
        ensures sides { (other : Side) → has self.new other ≡ has self.old other }
        ensures history { grows side self.old self.new };

    /// Takes out the lowest object that may go, and lets its fields go.
    fn reap(&mut self, side: Side) -> Option<u32>
        requires { has self.old side ≡ true }
        ensures object { result ≡ answers.may_reap (setting_at (end_at self.old side)) (side_at (end_at self.old side)) }
        ensures entered { IfSome result (λ n. end_at self.new side ≡ with_entry (plain.reaped n) (end_at self.old side)) }
        ensures kept { IfNone result (end_at self.new side ≡ (end_at self.old side)) }
        ensures others { (other : Side) → has self.old other ≡ true → other ≢ side → end_at self.new other ≡ end_at self.old other }
        ensures sides { (other : Side) → has self.new other ≡ has self.old other }
        ensures history { grows side self.old self.new };

    /// The next bytes to be written: so many, or all where fewer wait. Messages are spelled as they are wanted.
    fn drain(&mut self, side: Side, max: u32) -> Result<Vec<u8>, NoMemory>
        requires { has self.old side ≡ true }
        ensures bytes { IfOk result (λ bytes. bytes.items ≡ drained_next (setting_at (end_at self.old side)) max (side_at (end_at self.old side))) }
        ensures memory { OnOk result (is_no_memory (side_at (end_at self.old side)).cause ≡ false) }
        ensures entered { IfOk result (λ bytes. end_at self.new side ≡ draining bytes.items (end_at self.old side)) }
        ensures lost { OnErr result (end_at self.new side ≡ out_of_memory (end_at self.old side)) }
        ensures others { (other : Side) → has self.old other ≡ true → other ≢ side → end_at self.new other ≡ end_at self.old other }
        ensures sides { (other : Side) → has self.new other ≡ has self.old other }
        ensures history { grows side self.old self.new };

    /// Memory was wanting in what stands above: the bridge ends for that, and nothing is drained any more.
    fn run_out(&mut self, side: Side)
        requires { has self.old side ≡ true }
        ensures entered { is_no_memory (side_at (end_at self.old side)).cause ≡ false → end_at self.new side ≡ with_entry plain.no_memory (end_at self.old side) }
        ensures kept { is_no_memory (side_at (end_at self.old side)).cause ≡ true → end_at self.new side ≡ end_at self.old side }
        ensures others { (other : Side) → has self.old other ≡ true → other ≢ side → end_at self.new other ≡ end_at self.old other }
        ensures sides { (other : Side) → has self.new other ≡ has self.old other }
        ensures history { grows side self.old self.new };

    fn plan(&self, side: Side) -> &Plan
        requires { has self.now side ≡ true }
        ensures { plan_of result.now ≡ (setting_at (end_at self.now side)).plan };

    fn registry(&self, side: Side) -> &Registry
        requires { has self.now side ≡ true }
        ensures same { result.now ≡ (setting_at (end_at self.now side)).registry }
        ensures sound { IsSound result.now }
        ensures built_in { HasBuiltIn result.now }
        ensures tag { length (setting_at (end_at self.now side)).tag ≤ 32 };

    /// Ends the bridge, where it stands.
    fn dispose(&mut self, side: Side)
        requires { has self.old side ≡ true }
        ensures disposed { stands (side_at (end_at self.old side)) ≡ true → end_at self.new side ≡ with_entry plain.disposed (end_at self.old side) }
        ensures kept { stands (side_at (end_at self.old side)) ≡ false → end_at self.new side ≡ end_at self.old side }
        ensures others { (other : Side) → has self.old other ≡ true → other ≢ side → end_at self.new other ≡ end_at self.old other }
        ensures sides { (other : Side) → has self.new other ≡ has self.old other }
        ensures history { grows side self.old self.new };

    /// Why the bridge has ended, where it has.
    fn end(&self, side: Side) -> Option<Cause>
        requires { has self.now side ≡ true }
        ensures { result ≡ (side_at (end_at self.now side)).cause };

    /// The entries, oldest first. They are a history of the definition, and the setting is as its laws ask for, so that all of them hold of it.
    fn journal(&self, side: Side) -> &[Entry]
        requires { has self.now side ≡ true }
        ensures entries { map entry_of result.now ≡ (end_at self.now side).entries }
        ensures leads { Leads (setting_at (end_at self.now side)) (end_at self.now side).entries (told_at (end_at self.now side)) }
        ensures gives { RootsGive (setting_at (end_at self.now side)) (end_at self.now side).entries }
        ensures set_up { IsSetUp (setting_at (end_at self.now side)) }
        ensures built_in { HasBuiltIn (setting_at (end_at self.now side)).registry }
        ensures tag { IsTag (setting_at (end_at self.now side)).tag };

    /// How many stubs, living proxies and objects there are.
    fn counts(&self, side: Side) -> Counts
        requires { has self.now side ≡ true }
        ensures { counts_told result ≡ answers.counts_of (setting_at (end_at self.now side)) (side_at (end_at self.now side)) };

    /// Whether bytes were said and not drained; after want of memory none are.
    fn bytes_wait(&self, side: Side) -> bool
        requires { has self.now side ≡ true }
        ensures { result ≡ answers.bytes_wait (setting_at (end_at self.now side)) (side_at (end_at self.now side)) };

    /// What `reap` would now give.
    fn may_reap(&self, side: Side) -> Option<u32>
        requires { has self.now side ≡ true }
        ensures { result ≡ answers.may_reap (setting_at (end_at self.now side)) (side_at (end_at self.now side)) };

    /// Whether no part of a block is held, no byte waits, and no stack is there.
    fn at_rest(&self, side: Side) -> bool
        requires { has self.now side ≡ true }
        ensures { result ≡ answers.at_rest (setting_at (end_at self.now side)) (side_at (end_at self.now side)) };

    /// Whether the bridge stands, and a part of a block is held or a call that went out is not answered.
    fn awaits_input(&self, side: Side) -> bool
        requires { has self.now side ≡ true }
        ensures { result ≡ answers.awaits_input (side_at (end_at self.now side)) };

    /// Does what a root does next, where it does not wait.
    fn root_step(&mut self, side: Side, run: &mut RootRun) -> RootMoved
        requires side { has self.old side ≡ true }
        requires run { IsRunAt (end_at self.old side) (run_of run.old) }
        ensures step { StepsSo (end_at self.old side) (end_at self.new side) (run_of run.old) (run_of run.new) result }
        ensures waits { (result ≡ RootMoved.Waiting) ↔ (state_told (state_of run.old.root (side_at (end_at self.old side)).tables.roots) ≡ RootState.Waits) }
        ensures stands { IsRunAt (end_at self.new side) (run_of run.new) }
        ensures others { (other : Side) → has self.old other ≡ true → other ≢ side → end_at self.new other ≡ end_at self.old other }
        ensures sides { (other : Side) → has self.new other ≡ has self.old other }
        ensures history { grows side self.old self.new };
}

/// An endpoint is side A.
impl Ends for Endpoint {
    ghost end_at = { λ e side. e };

    ghost has = { λ e side. is_a side };

    ghost may_feed = { λ e side piece. Unit };

    ghost grows = { λ side e f. Unit };

    fn feed(&mut self, side: Side, piece: &[u8]) -> Fed {
        Endpoint::feed(self, piece)
    }

    fn end_input(&mut self, side: Side, how: InputEnd) {
        Endpoint::end_input(self, how)
    }

    fn ask(&mut self, side: Side, root: u32, name: &Text, wanted: &Name) -> Begun {
        Endpoint::ask(self, root, name, wanted)
    }

    fn call(
        &mut self,
        side: Side,
        root: u32,
        oid: &Text,
        face: &Name,
        function: u16,
        args: Vec<Value>,
    ) -> Begun {
        Endpoint::call(self, root, oid, face, function, args)
    }

    fn query(&mut self, side: Side, root: u32, oid: &Text, face: &Name, wanted: &Name) -> Begun {
        Endpoint::query(self, root, oid, face, wanted)
    }

    fn make(&mut self, side: Side, root: u32, behaviour: u32, wanted: &Name) -> Made {
        Endpoint::make(self, root, behaviour, wanted)
    }

    fn root_state(&self, side: Side, root: u32) -> RootState {
        Endpoint::root_state(self, root)
    }

    fn take(&mut self, side: Side, root: u32) -> Option<Outcome> {
        Endpoint::take(self, root)
    }

    fn drop_ref(&mut self, side: Side, root: u32, oid: Text, face: Name) -> Result<(), NotHeld> {
        Endpoint::drop_ref(self, root, oid, face)
    }

    fn ready(&self, side: Side, nth: u32) -> Option<&Tid> {
        Endpoint::ready(self, nth)
    }

    fn pick(&self, side: Side, tid: &Tid) -> Result<Option<Job>, NoMemory> {
        Endpoint::pick(self, tid)
    }

    fn apply(&mut self, side: Side, done: Done) -> Result<(), ApplyError> {
        Endpoint::apply(self, done)
    }

    fn reap(&mut self, side: Side) -> Option<u32> {
        Endpoint::reap(self)
    }

    fn drain(&mut self, side: Side, max: u32) -> Result<Vec<u8>, NoMemory> {
        Endpoint::drain(self, max)
    }

    fn run_out(&mut self, side: Side) {
        Endpoint::run_out(self)
    }

    fn plan(&self, side: Side) -> &Plan {
        Endpoint::plan(self)
    }

    fn registry(&self, side: Side) -> &Registry {
        Endpoint::registry(self)
    }

    fn dispose(&mut self, side: Side) {
        Endpoint::dispose(self)
    }

    fn end(&self, side: Side) -> Option<Cause> {
        Endpoint::end(self)
    }

    fn journal(&self, side: Side) -> &[Entry] {
        Endpoint::journal(self)
    }

    fn counts(&self, side: Side) -> Counts {
        Endpoint::counts(self)
    }

    fn bytes_wait(&self, side: Side) -> bool {
        Endpoint::bytes_wait(self)
    }

    fn may_reap(&self, side: Side) -> Option<u32> {
        Endpoint::may_reap(self)
    }

    fn at_rest(&self, side: Side) -> bool {
        Endpoint::at_rest(self)
    }

    fn awaits_input(&self, side: Side) -> bool {
        Endpoint::awaits_input(self)
    }

    fn root_step(&mut self, side: Side, run: &mut RootRun) -> RootMoved {
        root_step(self, run)
    }
}
