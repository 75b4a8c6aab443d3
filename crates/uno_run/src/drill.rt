//! The command `drill`: two ends of texts of its own, joined in memory, and the summary of what they come to.
ghost use Rattle.std.specs.Prelude.{◌≡◌, ◌≢◌, IfErr, IfOk, Some, codes};
ghost use Rattle.bridge_core.specs.declared.side.Side.TheVariants as code;
ghost use Rattle.bridge_endpoint.specs.Journals.{opening_endpoint, setting_at};
ghost use Rattle.bridge_world.specs.Joined.{settings_of};
ghost use Rattle.bridge_world.specs.Playing.{progress_of};
ghost use Rattle.plan_typing.specs.Effects.{NamesDiffer};
ghost use Rattle.report_model.specs.Drills.{calling_plan, node_plan, summary};
ghost use Rattle.report_model.specs.Pairs.{IsSummary};
ghost use Rattle.uno_model.specs.Sound.{IsSound};
ghost use Rattle.world_model.specs.Worlds.{of_a, of_b};
ghost use Rattle.uno_run.specs.Drill.{AreOfDrill, DrillRun, Drilled};
ghost use Rattle.uno_run.specs.Idl.{IsRegistryText};
ghost use Rattle.uno_run.specs.Joining.{IsEndWith, IsFresh, NotDrilled, RefusedAt, StopsSo, counts_seen};
ghost use Rattle.uno_run.specs.Own.{own_types};

use crate::Status;
use crate::drill_plans::{called_plan, calling_plan};
use crate::idl::write_text;
use crate::joining::{end_at_place, joined};
use crate::own::own_types;
use crate::running::run_through;
use crate::setting_up::registry_in;
use bridge_core::{Ends, Side};
use bridge_endpoint::Endpoint;
use bridge_world::{Runs, World};
use std::alloc::Global;
use uno_base::NoMemory;
use uno_io::Sink;
use uno_report::drill_lines;
use uno_types::Registry;

/// The most bytes that come in at once.
const CUT: u32 = 65_536;

/// The places of the texts of the plans, behind that of the registry.
const CALLING: u32 = 1;

const CALLED: u32 = 2;

/// Lets two ends run so many rounds by plans of their own, and writes the summary.
pub(crate) fn drill<O: Sink>(alloc: Global, rounds: u64, seed: u64, output: &mut O) -> Status
    ensures run { DrillRun O.taken O.faults rounds seed output.old output.new result }
    ensures no_words { result ≢ Status.Words }
    ensures stays { O.closed output.new ≡ O.closed output.old }
{
    // The form of the words allows no more rounds.
    match u32::try_from(rounds) {
        Ok(rounds) => drill_rounds(alloc, rounds, seed, output),
        Err(_) => Status::NoMemory,
    }
}

fn drill_rounds<O: Sink>(alloc: Global, rounds: u32, seed: u64, output: &mut O) -> Status
    ensures run { DrillRun O.taken O.faults rounds seed output.old output.new result }
    ensures stays { O.closed output.new ≡ O.closed output.old }
{
    match summary_of(alloc, rounds, seed) {
        Ok(summary) => write_text(summary.as_slice(), output),
        Err(status) => status,
    }
}

/// The summary of so many rounds.
fn summary_of(alloc: Global, rounds: u32, seed: u64) -> Result<Vec<u8>, Status>
    ensures summed { IfOk result (λ text. Drilled rounds seed text.items) }
    ensures stopped { IfErr result (NotDrilled rounds seed) }
{
    match world_of(alloc, rounds, seed) {
        Ok(world) => sum_up(alloc, world, rounds, seed),
        Err(status) => Err(status),
    }
}

// ---- what two ends come to

/// Lets two ends run, and sums up.
fn sum_up(alloc: Global, world: World, rounds: u32, seed: u64) -> Result<Vec<u8>, Status>
    requires { IsFresh world }
    ensures summed { IfOk result (λ text. IsSummary rounds seed (settings_of world) text.items) }
    ensures stopped { IfErr result (StopsSo (settings_of world) (Some seed) 65536) }
{
    let mut world = world;
    let summary = sum_lent(alloc, &mut world, rounds, seed);
    world.close();
    summary
}

/// The same of ends that stay.
fn sum_lent(alloc: Global, world: &mut World, rounds: u32, seed: u64) -> Result<Vec<u8>, Status>
    requires { IsFresh world.old }
    ensures summed { IfOk result (λ text. IsSummary rounds seed (settings_of world.old) text.items) }
    ensures stopped { IfErr result (StopsSo (settings_of world.old) (Some seed) 65536) }
{
    match run_through(alloc, world, Some(seed), CUT) {
        Ok(runs) => summary(alloc, world, &runs, rounds, seed),
        Err(status) => Err(status),
    }
}

/// The summary of ends and roots.
fn summary(
    alloc: Global,
    world: &World,
    runs: &Runs,
    rounds: u32,
    seed: u64,
) -> Result<Vec<u8>, Status>
    ensures summed { IfOk result (λ text. text.items ≡ summary rounds seed (progress_of runs.now) (counts_seen world.now code.A) (counts_seen world.now code.B)) }
    ensures memory { IfErr result (λ status. status ≡ Status.NoMemory) }
{
    let a = world.counts(Side::A);
    let b = world.counts(Side::B);
    match drill_lines(alloc, rounds, seed, runs, a, b) {
        Ok(text) => Ok(text),
        Err(NoMemory) => Err(Status::NoMemory),
    }
}

// ---- the two ends

/// Two ends of so many rounds, or why their texts are refused.
fn world_of(alloc: Global, rounds: u32, seed: u64) -> Result<World, Status>
    ensures are_of { IfOk result (λ w. AreOfDrill rounds seed (settings_of w)) }
    ensures fresh { IfOk result IsFresh }
    ensures refused { IfErr result (NotDrilled rounds seed) }
{
    match registry_in(alloc, own_types()) {
        Ok(registry) => world_in(alloc, registry, rounds, seed),
        Err(status) => Err(status),
    }
}

/// The same in their registry.
fn world_in(alloc: Global, registry: Registry, rounds: u32, seed: u64) -> Result<World, Status>
    requires sound { IsSound registry }
    requires names { NamesDiffer registry }
    requires is_text { IsRegistryText own_types registry }
    ensures are_of { IfOk result (λ w. AreOfDrill rounds seed (settings_of w)) }
    ensures fresh { IfOk result IsFresh }
    ensures refused { IfErr result (NotDrilled rounds seed) }
{
    match calling_end(alloc, &registry, rounds, seed) {
        Ok(a) => world_with(alloc, a, registry),
        Err(status) => {
            drop(registry);
            Err(status)
        }
    }
}

/// The end that calls.
fn calling_end(
    alloc: Global,
    registry: &Registry,
    rounds: u32,
    seed: u64,
) -> Result<Endpoint, Status>
    requires sound { IsSound registry.now }
    requires names { NamesDiffer registry.now }
    ensures is_of { IfOk result (λ e. IsEndWith registry.now (calling_plan rounds seed) (codes "A") (setting_at e)) }
    ensures opening { IfOk result (λ e. e ≡ opening_endpoint e.configured) }
    ensures refused { IfErr result (RefusedAt registry.now (calling_plan rounds seed) 1) }
{
    match calling_plan(alloc, rounds, seed) {
        Ok(plan) => copied_end(alloc, registry, plan.as_bytes()),
        Err(NoMemory) => Err(Status::NoMemory),
    }
}

/// The end with the tag `A`, in an equal registry, of the text of a plan.
fn copied_end(alloc: Global, registry: &Registry, plan: &[u8]) -> Result<Endpoint, Status>
    requires sound { IsSound registry.now }
    requires names { NamesDiffer registry.now }
    ensures is_of { IfOk result (λ e. IsEndWith registry.now plan.now (codes "A") (setting_at e)) }
    ensures opening { IfOk result (λ e. e ≡ opening_endpoint e.configured) }
    ensures refused { IfErr result (RefusedAt registry.now plan.now 1) }
{
    match registry.copy() {
        Ok(registry) => end_at_place(alloc, registry, plan, CALLING, "A"),
        Err(NoMemory) => Err(Status::NoMemory),
    }
}

/// That end, and the one that is called, are joined.
fn world_with(alloc: Global, a: Endpoint, registry: Registry) -> Result<World, Status>
    requires sound { IsSound registry }
    requires names { NamesDiffer registry }
    requires opening { a ≡ opening_endpoint a.configured }
    requires registry { (setting_at a).registry ≡ registry }
    requires tag { (setting_at a).tag ≡ codes "A" }
    ensures a { IfOk result (λ w. of_a (settings_of w) ≡ setting_at a) }
    ensures b { IfOk result (λ w. IsEndWith registry node_plan (codes "B") (of_b (settings_of w))) }
    ensures fresh { IfOk result IsFresh }
    ensures refused { IfErr result (RefusedAt registry node_plan 2) }
{
    match end_at_place(alloc, registry, called_plan(), CALLED, "B") {
        Ok(b) => joined(alloc, a, b),
        Err(status) => {
            a.close();
            Err(status)
        }
    }
}
