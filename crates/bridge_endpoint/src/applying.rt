//! Statements that are carried out.
ghost use Rattle.std.specs.Prelude.{◌≡◌, ◌≢◌, ◌+◌, ◌-◌, ◌<◌, ◌≤◌, ◌^◌, true, false, IfOk, IfErr, OnErr, OnOk, Some, option_map};
ghost use Rattle.behaviour.specs.Effects.{effect_of};
ghost use Rattle.bridge_journal.specs.Logs.{entered};
ghost use Rattle.bridge_model.specs.Answers.{pick};
ghost use Rattle.bridge_state.specs.Undoing.{remains};
ghost use Rattle.bridge_model.specs.Entries as plain;
ghost use Rattle.bridge_model.specs.Sides.{stands};
ghost use Rattle.bridge_model.specs.Steps.{counted, does, is_no_memory};
ghost use Rattle.bridge_laws.specs.Room.{brought, effect_brings};
ghost use Rattle.bridge_setting.specs.Settings.{setting_of};
ghost use Rattle.plan_model.specs.Effects as effects;
ghost use Rattle.plan_model.specs.Frames.{Body, body};
ghost use Rattle.plan_types.specs.Frames.{frame_of, job_of};
ghost use Rattle.uno_model.specs.Sound.{IsSound};
ghost use Rattle.bridge_state.specs.EndSides.{IsEndOf, on_side, with_side};
ghost use Rattle.bridge_endpoint.specs.Answering.{AppliedSo};
ghost use Rattle.bridge_endpoint.specs.Entering.{IsWithin, applied_by, with_room};
ghost use Rattle.bridge_endpoint.specs.Journals.{setting_at, side_at, with_entry};
ghost use Rattle.bridge_endpoint.specs.declared.answers.ApplyError.TheVariants as variant;

use crate::entering::{end, enter, reserve, run_out};
use crate::feeding::MOST_ENTRIES;
use crate::{ApplyError, Endpoint};
use behaviour::{Done, Effect};
use bridge_journal::{Entry, Journal};
use bridge_model::Cause;
use bridge_setting::Setting;
use bridge_state::State;
use bridge_tables::refs_of_values;
use plan_types::{Frame, Job};
use std::alloc::Global;
use uno_base::NoMemory;
use uno_types::Tid;
use uno_values::refs_of;

impl Endpoint {
    /// The job of the method at the top of a thread, where one is there.
    pub fn pick(&self, tid: &Tid) -> Result<Option<Job>, NoMemory>
        ensures { IfOk result (λ j. option_map job_of j ≡ pick (setting_at self.now) tid.now (side_at self.now)) }
    {
        self.state.pick(&self.setting, tid)
    }

    /// Carries out the effect of a job, where it is still the one that would be picked.
    pub fn apply(&mut self, done: Done) -> Result<(), ApplyError>
        requires { effect_of done.effect ≡ effects.effect (setting_at self.old).plan (setting_at self.old).registry (job_of done.job) }
        ensures answer { AppliedSo (setting_at self.old) (side_at self.old) (job_of done.job) result }
        ensures entered { self.new ≡ applied_by result done.job.tid self.old }
    {
        if self.lacks_memory() {
            drop(done);
            return Err(ApplyError::NoMemory);
        }
        let Done { job, effect } = done;
        if self.state.is_current(&self.setting, &job) {
            self.apply_current(job, effect)
        } else {
            drop(effect);
            self.stale(job)
        }
    }

    /// What would be picked in the place of a job.
    fn stale(&mut self, job: Job) -> Result<(), ApplyError>
        requires stale { pick (setting_at self.old) job.tid (side_at self.old) ≢ Some (job_of job) }
        requires memory { is_no_memory (side_at self.old).cause ≡ false }
        ensures answer { AppliedSo (setting_at self.old) (side_at self.old) (job_of job) result }
        ensures entered { self.new ≡ applied_by result job.tid self.old }
    {
        match self.pick(&job.tid) {
            Ok(now) => Err(ApplyError::Stale(now)),
            Err(NoMemory) => self.out_of_memory(),
        }
    }

    /// There was no memory to tell which job would be picked.
    fn out_of_memory(&mut self) -> Result<(), ApplyError>
        requires { is_no_memory (side_at self.old).cause ≡ false }
        ensures answer { IfErr result (λ e. e ≡ variant.NoMemory) }
        ensures error { OnOk result ⊥ }
        ensures entered { self.new ≡ with_entry plain.no_memory self.old }
    {
        run_out(&mut self.state, &mut self.journal);
        Err(ApplyError::NoMemory)
    }

    /// Carries out the effect of the job that would be picked.
    pub fn apply_current(&mut self, job: Job, effect: Effect) -> Result<(), ApplyError>
        requires current { pick (setting_at self.old) job.tid (side_at self.old) ≡ Some (job_of job) }
        requires effect { effect_of effect ≡ effects.effect (setting_at self.old).plan (setting_at self.old).registry (job_of job) }
        ensures answer { AppliedSo (setting_at self.old) (side_at self.old) (job_of job) result }
        ensures entered { self.new ≡ applied_by result job.tid self.old }
    {
        if self.state.entries() >= MOST_ENTRIES {
            drop(effect);
            drop(job);
            end(&mut self.state, &mut self.journal, Cause::Full, Entry::Full);
            return Err(ApplyError::Full);
        }
        match apply_standing(
            self.alloc,
            &self.setting,
            &mut self.state,
            &mut self.journal,
            job,
            effect,
        ) {
            Ok(()) => Ok(()),
            Err(NoMemory) => {
                run_out(&mut self.state, &mut self.journal);
                Err(ApplyError::NoMemory)
            }
        }
    }
}

/// The effect of a job that would be picked, with its entry.
fn apply_standing(
    alloc: Global,
    setting: &Setting,
    state: &mut State,
    journal: &mut Journal,
    job: Job,
    effect: Effect,
) -> Result<(), NoMemory>
    requires of { IsEndOf (setting_of setting.now) state.old }
    requires sound { IsSound setting.now.registry }
    requires stands { stands state.old.side ≡ true }
    requires current { pick (setting_of setting.now) job.tid state.old.side ≡ Some (job_of job) }
    requires effect { effect_of effect ≡ effects.effect (setting_of setting.now).plan setting.now.registry (job_of job) }
    requires few { state.old.side.entries < 2 ^ 64 - 1 }
    ensures done { OnOk result (state.new ≡ on_side (λ s. counted (plain.applied job.tid) (does (setting_of setting.now) (plain.applied job.tid) s).side) state.old) }
    ensures entered { OnOk result (journal.new ≡ with_room (journal.old.room + brought (setting_of setting.now) state.old.side (plain.applied job.tid)) (entered (plain.applied job.tid) journal.old)) }
    ensures lost { OnErr result (remains state.new.side ≡ remains state.old.side) }
    ensures names { OnErr result (state.new ≡ with_side state.new.side state.old) }
    ensures nothing { OnErr result (journal.new ≡ with_room journal.new.room journal.old) }
    ensures least { OnErr result (journal.old.room ≤ journal.new.room) }
    ensures within { IsWithin journal.old → IsWithin journal.new }
{
    let Job { tid, frame, .. } = job;
    if let Err(error) = take_room(alloc, journal, &frame, &effect) {
        drop(effect);
        return Err(error);
    }
    drop(frame);
    state.apply(setting, &tid, effect)?;
    enter(state, journal, Entry::Applied { tid });
    Ok(())
}

/// Takes room for the entry of an effect of a method, and for the entries for which that may need room.
fn take_room(
    alloc: Global,
    journal: &mut Journal,
    frame: &Frame,
    effect: &Effect,
) -> Result<(), NoMemory>
    ensures room { OnOk result ((b : Body) → frame_of frame.now ≡ body b → journal.new.room ≡ journal.old.room + 1 + effect_brings b (effect_of effect.now)) }
    ensures some { OnOk result (0 < journal.new.room) }
    ensures kept { journal.new ≡ with_room journal.new.room journal.old }
    ensures least { journal.old.room ≤ journal.new.room }
    ensures within { IsWithin journal.old → IsWithin journal.new }
{
    journal.reserve()?;
    let more = room_for(alloc, frame, effect)?;
    reserve(journal, more)?;
    Ok(())
}

/// For how many entries an effect of a method may need room: one that makes an object, and one for each reference that a root may get.
fn room_for(alloc: Global, frame: &Frame, effect: &Effect) -> Result<usize, NoMemory>
    ensures { IfOk result (λ n. (b : Body) → frame_of frame.now ≡ body b → n ≡ effect_brings b (effect_of effect.now)) }
{
    match effect {
        Effect::Makes { .. } => Ok(1),
        Effect::Creates { .. } => Ok(2),
        Effect::Returns { value, outs } => {
            if is_from_peer(frame) {
                return Ok(0);
            }
            let first = refs_of(alloc, value)?.len();
            let rest = refs_of_values(alloc, outs)?.len();
            sum(first, rest)
        }
        Effect::Raises(exception) => {
            if is_from_peer(frame) {
                return Ok(0);
            }
            Ok(refs_of(alloc, &exception.value)?.len())
        }
        Effect::Lets(_)
        | Effect::Sets(_)
        | Effect::SetsField(_)
        | Effect::Drops(_)
        | Effect::Skips
        | Effect::Calls { .. }
        | Effect::Queries { .. }
        | Effect::Disposes => Ok(0),
    }
}

/// Whether a frame is a method that the peer called.
fn is_from_peer(frame: &Frame) -> bool
    ensures { (b : Body) → frame_of frame.now ≡ body b → result ≡ b.from_peer }
{
    match frame {
        Frame::Body(body) => body.from_peer,
        Frame::Base { root: _ } | Frame::Out(_) => false,
    }
}

fn sum(a: usize, b: usize) -> Result<usize, NoMemory>
    ensures { IfOk result (λ n. n ≡ a + b) }
{
    match a.checked_add(b) {
        Some(sum) => Ok(sum),
        None => Err(NoMemory),
    }
}
