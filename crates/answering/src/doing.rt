//! The first thing that can be done, but for feeding.
ghost use Rattle.std.specs.Prelude.{◌≡◌, None, Some, IfOk, IfErr, IfSome, IfNone, map};
ghost use Rattle.plan_model.specs.Effects.{effect};
ghost use Rattle.plan_types.specs.Frames.{job_of};
ghost use Rattle.behaviour.specs.Effects.{effect_of};
ghost use Rattle.behaviour.specs.Roots.{run_of};
ghost use Rattle.bridge_endpoint.specs.Journals.{setting_at, side_at};
ghost use Rattle.bridge_model.specs.Answers.{pick, ready_at};
ghost use Rattle.bridge_core.specs.Standing.{IsHistory};
ghost use Rattle.answering.specs.Ends.{AppliesFirst, DoesFirst, DrainsFirst, MovesFirst};
ghost use Rattle.answering.specs.Running.{AreRoots};
ghost use Rattle.answering.specs.Serving.{Writes};

use crate::stopped::Halted;
use behaviour::{Done, RootRun, next};
use bridge_core::{RootMoved, root_step};
use bridge_endpoint::{ApplyError, Endpoint};
use uno_base::NoMemory;
use uno_io::{Sink, write_all};

/// The most bytes that are drained at once.
const MOST_DRAINED: u32 = 65_536;

/// What is known of each endpoint. It does nothing.
pub(crate) fn know(end: &Endpoint)
    ensures { IsHistory end.now }
{
    end.journal();
}

/// Memory was wanting.
pub(crate) fn lacks_memory(end: &mut Endpoint) -> Halted
    ensures { result ≡ Halted.NoMemory }
{
    end.run_out();
    Halted::NoMemory
}

/// Does the first thing that can be done: the next statement of the oldest method that is ready; the step of the lowest root that moves; reaping; draining, and
/// writing all of it. It says whether there was one.
pub(crate) fn do_first<O: Sink>(
    end: &mut Endpoint,
    runs: &mut Vec<RootRun>,
    output: &mut O,
) -> Result<bool, Halted>
    requires { AreRoots end.old (map run_of runs.old.items) }
    ensures does { DoesFirst end.old end.new (map run_of runs.old.items) (map run_of runs.new.items) (O.taken output.old) (O.taken output.new) result }
    ensures writes { Writes (O.faults output.old) (O.faults output.new) result }
    ensures stays { O.closed output.new ≡ O.closed output.old }
{
    if apply_first(end)? {
        return Ok(true);
    }
    if move_first(end, runs)? {
        return Ok(true);
    }
    if end.reap().is_some() {
        return Ok(true);
    }
    drain_first(end, output)
}

/// Carries out the next statement of the oldest method that is ready.
fn apply_first(end: &mut Endpoint) -> Result<bool, Halted>
    ensures { AppliesFirst end.old end.new result }
{
    let Done { job, effect } = match asked_first(end) {
        Ok(Some(done)) => done,
        Ok(None) => return Ok(false),
        Err(NoMemory) => return Err(lacks_memory(end)),
    };
    match end.apply_current(job, effect) {
        Ok(()) | Err(ApplyError::Full) => Ok(true),
        Err(ApplyError::Stale(_)) => unreachable!(),
        Err(ApplyError::NoMemory) => Err(lacks_memory(end)),
    }
}

/// What the next statement of the oldest method that is ready asks. A thread that is ready has a job.
fn asked_first(end: &Endpoint) -> Result<Option<Done>, NoMemory>
    ensures none { IfOk result (λ d. IfNone d (ready_at (side_at end.now) 0 ≡ None)) }
    ensures ready { IfOk result (λ d. IfSome d (λ done. ready_at (side_at end.now) 0 ≡ Some done.job.tid)) }
    ensures current { IfOk result (λ d. IfSome d (λ done. pick (setting_at end.now) done.job.tid (side_at end.now) ≡ Some (job_of done.job))) }
    ensures asks { IfOk result (λ d. IfSome d (λ done. effect_of done.effect ≡ effect (setting_at end.now).plan (setting_at end.now).registry (job_of done.job))) }
{
    know(end);
    let Some(tid) = end.ready(0) else {
        return Ok(None);
    };
    let Some(job) = end.pick(tid)? else {
        unreachable!()
    };
    let registry = end.registry();
    Ok(Some(next(registry.allocator(), end.plan(), registry, job)?))
}

/// Moves the lowest root that moves.
fn move_first(end: &mut Endpoint, runs: &mut Vec<RootRun>) -> Result<bool, Halted>
    requires { AreRoots end.old (map run_of runs.old.items) }
    ensures { MovesFirst end.old end.new (map run_of runs.old.items) (map run_of runs.new.items) result }
{
    for place in 0..runs.len() {
        match root_step(end, &mut runs[place]) {
            RootMoved::Moved => return Ok(true),
            RootMoved::Waiting | RootMoved::Finished => {}
            RootMoved::NoMemory => return Err(lacks_memory(end)),
        }
    }
    Ok(false)
}

/// Drains the next bytes, and writes all of them.
fn drain_first<O: Sink>(end: &mut Endpoint, output: &mut O) -> Result<bool, Halted>
    ensures drains { DrainsFirst end.old end.new (O.taken output.old) (O.taken output.new) result }
    ensures writes { Writes (O.faults output.old) (O.faults output.new) result }
    ensures stays { O.closed output.new ≡ O.closed output.old }
{
    let bytes = end.drain(MOST_DRAINED)?;
    if bytes.is_empty() {
        return Ok(false);
    }
    write_all(output, bytes.as_slice())?;
    Ok(true)
}
