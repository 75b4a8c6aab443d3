//! A move is done.
ghost use Rattle.std.specs.Prelude.{◌≡◌, ◌≢◌, ◌<◌, ◌≤◌, ℕ, List, None, Some, IfNone, IfOk, IfSome, OnOk, OnErr, length, map, slice_get, take, true};
ghost use Rattle.behaviour.specs.Effects.{effect_of};
ghost use Rattle.behaviour.specs.Roots.{run_of};
ghost use Rattle.bridge_endpoint.specs.Answering.{fed_told};
ghost use Rattle.bridge_endpoint.specs.Entering.{draining};
ghost use Rattle.bridge_endpoint.specs.Journals.{setting_at, side_at, with_entry};
ghost use Rattle.bridge_model.specs.Answers.{drained_next, is_some_piece, no_room, pick, ready_at};
ghost use Rattle.bridge_model.specs.Entries as plain;
ghost use Rattle.bridge_model.specs.Orders.{most_drained, or_full};
ghost use Rattle.bridge_model.specs.Sides.{stands};
ghost use Rattle.bridge_model.specs.Steps.{is_no_memory};
ghost use Rattle.world_model.specs.Moves as listed;
ghost use Rattle.world_model.specs.Moves.{stepping};
ghost use Rattle.plan_model.specs.Effects.{effect};
ghost use Rattle.plan_types.specs.Frames.{job_of};
ghost use Rattle.bridge_world.specs.Doing.{BothStand, HasStepped, IsDeedIn, IsDone, IsMoved, KeepsRuns, StandThere, deeds_in, other_of};
ghost use Rattle.bridge_world.specs.Joined.{Grows, end_at, on_the_way};
ghost use Rattle.bridge_world.specs.Playing.{moves_of, progress_of};

use crate::history::entry_at;
use crate::roots::moving_at;
use crate::world::count;
use crate::{Pair, Runs, World};
use behaviour::{Done, RootRun, next};
use bridge_core::{Ends, RootMoved, Side};
use bridge_endpoint::{ApplyError, Entry, Fed};
use bridge_model::InputEnd;
use move_choice::Deed;
use uno_base::NoMemory;

/// The most bytes that are drained at once.
const MOST_DRAINED: u32 = 65_536;

impl Pair for World {
    ghost joined = { λ w. w };

    fn carry(&mut self, to: Side, count: u32) -> Fed {
        self.feed_first(to, count)
    }

    fn moves(&self, runs: &Runs) -> u32 {
        let a = self.choices(Side::A, &runs.a).count();
        let b = self.choices(Side::B, &runs.b).count();
        a.saturating_add(b)
    }

    fn move_at(&mut self, nth: u32, cut: u32, runs: &mut Runs) -> Result<(), NoMemory> {
        self.know_history();
        let moved = self.do_nth(nth, cut, runs);
        self.know_history();
        moved
    }

    fn entries(&self) -> u64 {
        self.know_history();
        count(&self.a, &self.b)
    }

    fn entry(&self, nth: u64) -> Option<(Side, &Entry)> {
        entry_at(self, nth)
    }
}

impl World {
    /// Does the move at a place.
    fn do_nth(&mut self, nth: u32, cut: u32, runs: &mut Runs) -> Result<(), NoMemory>
        requires stands { BothStand self.old (progress_of runs.old) }
        requires cut { 1 ≤ cut }
        ensures moves { OnOk result ((m : listed.Move) → slice_get (moves_of self.old (progress_of runs.old)) nth ≡ Some m → IsMoved cut m self.old self.new (progress_of runs.old) (progress_of runs.new)) }
        ensures stands { BothStand self.new (progress_of runs.new) }
    {
        // There are never so many.
        if nth == u32::MAX {
            return Err(self.lacks_memory(Side::A));
        }
        let a = self.choices(Side::A, &runs.a);
        match nth.checked_sub(a.count()) {
            None => self.do_at(Side::A, a.deed_at(nth), cut, &mut runs.a),
            Some(nth) => {
                let b = self.choices(Side::B, &runs.b);
                self.do_at(Side::B, b.deed_at(nth), cut, &mut runs.b)
            }
        }
    }

    /// Does what may be done at a side.
    fn do_at(
        &mut self,
        side: Side,
        deed: Deed,
        cut: u32,
        runs: &mut Vec<RootRun>,
    ) -> Result<(), NoMemory>
        requires cut { 1 ≤ cut }
        requires stands { StandThere (end_at self.old side) (map run_of runs.old.items) }
        ensures does { OnOk result ((place : ℕ) (d : listed.Deed) → slice_get (deeds_in self.old side (map run_of runs.old.items)) place ≡ Some d → IsDeedIn self.old side (map run_of runs.old.items) d deed → IsDone cut side d self.old self.new (map run_of runs.old.items) (map run_of runs.new.items)) }
        ensures stands { StandThere (end_at self.new side) (map run_of runs.new.items) }
        ensures other { end_at self.new (other_of side) ≡ end_at self.old (other_of side) }
    {
        self.know_history();
        match deed {
            Deed::Applies(nth) => self.apply_nth(side, nth),
            Deed::Steps(nth) => self.step_nth(side, nth, runs),
            Deed::Reaps => {
                self.reap(side);
                Ok(())
            }
            Deed::Drains => self.drain_some(side),
            Deed::Carries => self.carry_some(side, cut),
            Deed::Closes => {
                self.end_input(side, InputEnd::Ended);
                Ok(())
            }
        }
    }

    /// Carries out the next statement of a thread that is ready.
    fn apply_nth(&mut self, side: Side, nth: u32) -> Result<(), NoMemory>
        ensures applied { OnOk result ((tid : List ℕ) → ready_at (side_at (end_at self.old side)) nth ≡ Some tid → end_at self.new side ≡ with_entry (or_full (side_at (end_at self.old side)) (plain.applied tid)) (end_at self.old side)) }
        ensures grows { OnOk result (Grows side self.old self.new) }
        ensures runs { KeepsRuns (end_at self.old side) (end_at self.new side) }
        ensures other { end_at self.new (other_of side) ≡ end_at self.old (other_of side) }
    {
        let done = match self.asked(side, nth) {
            Ok(Some(done)) => done,
            Ok(None) => return Ok(()),
            Err(NoMemory) => return Err(self.lacks_memory(side)),
        };
        match self.apply(side, done) {
            Ok(()) | Err(ApplyError::Full) => Ok(()),
            Err(ApplyError::Stale(_)) => unreachable!(),
            Err(ApplyError::NoMemory) => Err(NoMemory),
        }
    }

    /// What the next statement of a thread that is ready asks. Such a thread has a job.
    fn asked(&self, side: Side, nth: u32) -> Result<Option<Done>, NoMemory>
        ensures none { IfOk result (λ d. IfNone d (ready_at (side_at (end_at self.now side)) nth ≡ None)) }
        ensures ready { IfOk result (λ d. IfSome d (λ done. ready_at (side_at (end_at self.now side)) nth ≡ Some done.job.tid)) }
        ensures current { IfOk result (λ d. IfSome d (λ done. pick (setting_at (end_at self.now side)) done.job.tid (side_at (end_at self.now side)) ≡ Some (job_of done.job))) }
        ensures asks { IfOk result (λ d. IfSome d (λ done. effect_of done.effect ≡ effect (setting_at (end_at self.now side)).plan (setting_at (end_at self.now side)).registry (job_of done.job))) }
    {
        self.journal(side);
        let Some(tid) = self.ready(side, nth) else {
            return Ok(None);
        };
        let Some(job) = self.pick(side, tid)? else {
            unreachable!()
        };
        let registry = self.registry(side);
        Ok(Some(next(registry.allocator(), self.plan(side), registry, job)?))
    }

    /// Moves the root at a place among those that move.
    fn step_nth(&mut self, side: Side, nth: u32, runs: &mut Vec<RootRun>) -> Result<(), NoMemory>
        requires stands { StandThere (end_at self.old side) (map run_of runs.old.items) }
        ensures stepped { OnOk result ((d : listed.Deed) → slice_get (stepping (setting_at (end_at self.old side)) (side_at (end_at self.old side)) 0 (map run_of runs.old.items)) nth ≡ Some d → HasStepped nth (end_at self.old side) (end_at self.new side) (map run_of runs.old.items) (map run_of runs.new.items)) }
        ensures grows { OnOk result (Grows side self.old self.new) }
        ensures stands { StandThere (end_at self.new side) (map run_of runs.new.items) }
        ensures other { end_at self.new (other_of side) ≡ end_at self.old (other_of side) }
    {
        self.journal(side);
        let Some(place) = moving_at(self.end_of(side), runs, nth) else {
            return Ok(());
        };
        match self.root_step(side, &mut runs[place]) {
            RootMoved::Moved => Ok(()),
            RootMoved::Waiting | RootMoved::Finished => unreachable!(),
            RootMoved::NoMemory => Err(self.lacks_memory(side)),
        }
    }

    /// Bytes go out.
    fn drain_some(&mut self, side: Side) -> Result<(), NoMemory>
        ensures drained { OnOk result (end_at self.new side ≡ draining (drained_next (setting_at (end_at self.old side)) most_drained (side_at (end_at self.old side))) (end_at self.old side)) }
        ensures grows { Grows side self.old self.new }
        ensures runs { KeepsRuns (end_at self.old side) (end_at self.new side) }
    {
        self.drain(side, MOST_DRAINED)?;
        Ok(())
    }

    /// Bytes come in, at most so many.
    fn carry_some(&mut self, side: Side, cut: u32) -> Result<(), NoMemory>
        ensures carried { OnOk result (stands (side_at (end_at self.old side)) ≡ true → is_some_piece (take cut (on_the_way self.old side)) ≡ true → end_at self.new side ≡ with_entry (listed.carried (side_at (end_at self.old side)) (take cut (on_the_way self.old side))) (end_at self.old side)) }
        ensures grows { Grows side self.old self.new }
        ensures runs { KeepsRuns (end_at self.old side) (end_at self.new side) }
    {
        let fed = self.feed_first(side, cut);
        carried(fed)
    }

    /// Memory was wanting at a side.
    fn lacks_memory(&mut self, side: Side) -> NoMemory
        ensures runs { KeepsRuns (end_at self.old side) (end_at self.new side) }
        ensures other { end_at self.new (other_of side) ≡ end_at self.old (other_of side) }
    {
        self.run_out(side);
        NoMemory
    }
}

/// Whether bytes could be carried.
fn carried(fed: Fed) -> Result<(), NoMemory>
    ensures { OnOk result (fed_told fed ≢ no_room) }
{
    match fed {
        Fed::Taken(_) | Fed::Broken(_, _) | Fed::Full | Fed::Gone => Ok(()),
        Fed::NoMemory => Err(NoMemory),
    }
}
