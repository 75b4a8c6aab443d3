//! The command `pair`: two ends over a registry and a plan each, joined in memory, and the report of both.
ghost use Rattle.std.specs.Prelude.{◌≡◌, ◌≢◌, ◌≤◌, IfErr, IfOk, IfSome};
ghost use Rattle.uno_run.specs.Joining.{NotReported};
ghost use Rattle.uno_run.specs.Pair.{FilesReported, PairRun};

use crate::Status;
use crate::idl::write_text;
use crate::joining::world_of_files;
use crate::running::report_of;
use std::alloc::Global;
use uno_io::{Files, Sink};

/// Joins two ends over a registry and a plan each, lets them run until nothing is left to do, and writes the report of both.
pub(crate) fn pair<F: Files, O: Sink>(
    alloc: Global,
    types: &str,
    plan_a: &str,
    plan_b: &str,
    seed: Option<u64>,
    cut: u64,
    files: &mut F,
    output: &mut O,
) -> Status
    ensures run { PairRun F.stored F.faults O.taken O.faults types.now plan_a.now plan_b.now seed cut files.old files.new output.old output.new result }
    ensures no_words { result ≢ Status.Words }
    ensures stays { O.closed output.new ≡ O.closed output.old }
{
    match cut_of(cut) {
        Some(cut) => pair_by(alloc, types, plan_a, plan_b, seed, cut, files, output),
        None => Status::NoMemory,
    }
}

/// A cut of the words, whose form allows no other.
fn cut_of(cut: u64) -> Option<u32>
    ensures { IfSome result (λ c. (c ≡ cut) × (1 ≤ c)) }
{
    if cut == 0 {
        return None;
    }
    match u32::try_from(cut) {
        Ok(cut) => Some(cut),
        Err(_) => None,
    }
}

/// The same by a cut of at least 1.
fn pair_by<F: Files, O: Sink>(
    alloc: Global,
    types: &str,
    plan_a: &str,
    plan_b: &str,
    seed: Option<u64>,
    cut: u32,
    files: &mut F,
    output: &mut O,
) -> Status
    requires { 1 ≤ cut }
    ensures run { PairRun F.stored F.faults O.taken O.faults types.now plan_a.now plan_b.now seed cut files.old files.new output.old output.new result }
    ensures stays { O.closed output.new ≡ O.closed output.old }
{
    match report_of_files(alloc, types, plan_a, plan_b, seed, cut, files) {
        Ok(report) => write_text(report.as_slice(), output),
        Err(status) => status,
    }
}

/// The report of two ends of the texts of these files.
fn report_of_files<F: Files>(
    alloc: Global,
    types: &str,
    plan_a: &str,
    plan_b: &str,
    seed: Option<u64>,
    cut: u32,
    files: &mut F,
) -> Result<Vec<u8>, Status>
    requires { 1 ≤ cut }
    ensures reported { IfOk result (λ report. FilesReported (F.stored files.old) types.now plan_a.now plan_b.now seed cut report.items) }
    ensures same { IfOk result (λ report. F.faults files.new ≡ F.faults files.old) }
    ensures refused { IfErr result (NotReported (F.stored files.old) types.now plan_a.now plan_b.now seed cut (F.faults files.old) (F.faults files.new)) }
{
    match world_of_files(alloc, types, plan_a, plan_b, files) {
        Ok(world) => report_of(alloc, world, seed, cut),
        Err(status) => Err(status),
    }
}
