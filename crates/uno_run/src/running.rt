//! Two joined ends with the roots of their plans, and what they come to.
ghost use Rattle.std.specs.Prelude.{◌≡◌, ◌≤◌, IfErr, IfOk, map};
ghost use Rattle.behaviour.specs.Roots.{run_of};
ghost use Rattle.bridge_core.specs.declared.side.Side.TheVariants as code;
ghost use Rattle.bridge_endpoint.specs.Journals.{setting_at};
ghost use Rattle.bridge_model.specs.Orders.{first_runs};
ghost use Rattle.bridge_world.specs.Joined.{end_at, settings_of};
ghost use Rattle.bridge_world.specs.Playing.{progress_of};
ghost use Rattle.report_model.specs.Pairs.{IsPairReport};
ghost use Rattle.report_model.specs.Reports.{both_reports};
ghost use Rattle.uno_run.specs.Joining.{AreFirst, IsFresh, Ran, StopsSo, counts_seen, stopped};

use crate::Status;
use crate::serving::openings;
use behaviour::RootRun;
use bridge_core::{Ends, Side};
use bridge_world::{RunError, Runs, World};
use std::alloc::Global;
use uno_base::NoMemory;
use uno_report::report_lines;

/// Lets two ends run until nothing is left to do, and reports on both.
pub(crate) fn report_of(
    alloc: Global,
    world: World,
    seed: Option<u64>,
    cut: u32,
) -> Result<Vec<u8>, Status>
    requires fresh { IsFresh world }
    requires cut { 1 ≤ cut }
    ensures reported { IfOk result (λ report. IsPairReport (settings_of world) seed cut report.items) }
    ensures stopped { IfErr result (StopsSo (settings_of world) seed cut) }
{
    let mut world = world;
    let report = report_lent(alloc, &mut world, seed, cut);
    world.close();
    report
}

/// The same of ends that stay.
fn report_lent(
    alloc: Global,
    world: &mut World,
    seed: Option<u64>,
    cut: u32,
) -> Result<Vec<u8>, Status>
    requires fresh { IsFresh world.old }
    requires cut { 1 ≤ cut }
    ensures reported { IfOk result (λ report. IsPairReport (settings_of world.old) seed cut report.items) }
    ensures stopped { IfErr result (StopsSo (settings_of world.old) seed cut) }
{
    match run_through(alloc, world, seed, cut) {
        Ok(runs) => report(alloc, world, &runs),
        Err(status) => Err(status),
    }
}

/// The reports of both ends.
fn report(alloc: Global, world: &World, runs: &Runs) -> Result<Vec<u8>, Status>
    ensures reported { IfOk result (λ text. text.items ≡ both_reports (progress_of runs.now) (counts_seen world.now code.A) (counts_seen world.now code.B)) }
    ensures memory { IfErr result (λ status. status ≡ Status.NoMemory) }
{
    match both_lines(alloc, world, runs) {
        Ok(text) => Ok(text),
        Err(NoMemory) => Err(Status::NoMemory),
    }
}

/// The same, or no memory for it.
fn both_lines(alloc: Global, world: &World, runs: &Runs) -> Result<Vec<u8>, NoMemory>
    ensures { IfOk result (λ text. text.items ≡ both_reports (progress_of runs.now) (counts_seen world.now code.A) (counts_seen world.now code.B)) }
{
    let mut text = report_lines(alloc, "A", runs.a.as_slice(), world.counts(Side::A))?;
    let b = report_lines(alloc, "B", runs.b.as_slice(), world.counts(Side::B))?;
    text.extend_from_slice(b.as_slice())?;
    Ok(text)
}

/// Lets two ends run until nothing is left to do, and gives what their roots have come to.
pub(crate) fn run_through(
    alloc: Global,
    world: &mut World,
    seed: Option<u64>,
    cut: u32,
) -> Result<Runs, Status>
    requires fresh { IsFresh world.old }
    requires cut { 1 ≤ cut }
    ensures ran { IfOk result (λ runs. Ran seed cut world.old world.new (progress_of runs)) }
    ensures stopped { IfErr result (StopsSo (settings_of world.old) seed cut) }
{
    match runs_of(alloc, world) {
        Ok(runs) => run_all(world, runs, seed, cut),
        Err(NoMemory) => Err(Status::NoMemory),
    }
}

/// The roots of both plans at their beginnings.
fn runs_of(alloc: Global, world: &World) -> Result<Runs, NoMemory>
    ensures { IfOk result (λ runs. AreFirst (settings_of world.now) (progress_of runs)) }
{
    let a = runs_at(alloc, world, Side::A)?;
    let b = runs_at(alloc, world, Side::B)?;
    Ok(Runs { a, b })
}

/// Those of the plan of one.
fn runs_at(alloc: Global, world: &World, side: Side) -> Result<Vec<RootRun>, NoMemory>
    ensures { IfOk result (λ runs. map run_of runs.items ≡ first_runs 1 (setting_at (end_at world.now side)).plan.threads) }
{
    openings(alloc, world.plan(side).threads.len())
}

/// Lets two ends run with these roots.
fn run_all(world: &mut World, runs: Runs, seed: Option<u64>, cut: u32) -> Result<Runs, Status>
    requires fresh { IsFresh world.old }
    requires first { AreFirst (settings_of world.old) (progress_of runs) }
    requires cut { 1 ≤ cut }
    ensures ran { IfOk result (λ runs. Ran seed cut world.old world.new (progress_of runs)) }
    ensures stopped { IfErr result (StopsSo (settings_of world.old) seed cut) }
{
    let mut runs = runs;
    match world.run_seeded(seed, cut, &mut runs) {
        Ok(()) => Ok(runs),
        Err(error) => {
            drop(runs);
            Err(stopped(error))
        }
    }
}

/// The status of ends that stopped while there was more to do.
fn stopped(error: RunError) -> Status
    ensures { result ≡ stopped error }
{
    match error {
        RunError::NoMemory => Status::NoMemory,
        RunError::Full => Status::Full,
    }
}
