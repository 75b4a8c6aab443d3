//! An endpoint over the input and the output, and how it ended.
ghost use Rattle.std.specs.Prelude.{◌≡◌, ◌≢◌, ◌⊎◌, ◌↔◌, ℕ, List, [], ◌∷◌, ◌++◌, suc, true, false, IfOk, OnOk, length, map};
ghost use Rattle.behaviour.specs.Roots.{run_of};
ghost use Rattle.bridge_endpoint.specs.Journals.{setting_at};
ghost use Rattle.bridge_model.specs.Orders.{first_runs};
ghost use Rattle.bridge_model.specs.declared.cause.Cause.TheVariants as why;
ghost use Rattle.plan_model.specs.Plans.{manager_name};
ghost use Rattle.plan_model.specs.Roots.{opening_run};
ghost use Rattle.plan_model.specs.Statements.{RootStatement};
ghost use Rattle.urp_model.specs.declared.reason.Reason.{Reason};
ghost use Rattle.uno_run.specs.Answer.{EndsServing, Served};
ghost use Rattle.uno_run.specs.Serving.{ServedOrNot};

use crate::Status;
use answering::{Stopped, answer};
use behaviour::RootRun;
use bridge_endpoint::Endpoint;
use bridge_model::Cause;
use std::alloc::Global;
use uno_base::NoMemory;
use uno_io::{Sink, Source};
use uno_types::Text;

/// What a root asks for where it asks for the instance.
const INSTANCE: &str = "ServiceManager";

/// Serves an endpoint at which nothing has happened, and says how it ended.
pub(crate) fn serve<I: Source, O: Sink>(
    alloc: Global,
    end: Endpoint,
    input: &mut I,
    output: &mut O,
) -> Status
    requires { end.entries ≡ [] }
    ensures served { ServedOrNot I.left I.faults O.taken O.faults (setting_at end) input.old input.new output.old output.new result }
    ensures ends { EndsServing result }
    ensures stays { O.closed output.new ≡ O.closed output.old }
{
    let mut end = end;
    let status = serve_lent(alloc, &mut end, input, output);
    end.close();
    status
}

/// The same of an endpoint that stays.
fn serve_lent<I: Source, O: Sink>(
    alloc: Global,
    end: &mut Endpoint,
    input: &mut I,
    output: &mut O,
) -> Status
    requires { end.old.entries ≡ [] }
    ensures served { ServedOrNot I.left I.faults O.taken O.faults (setting_at end.old) input.old input.new output.old output.new result }
    ensures ends { EndsServing result }
    ensures stays { O.closed output.new ≡ O.closed output.old }
{
    match runs_of(alloc, end) {
        Ok(mut runs) => serve_roots(end, &mut runs, input, output),
        Err(NoMemory) => Status::NoMemory,
    }
}

/// The same with its roots at their beginnings.
fn serve_roots<I: Source, O: Sink>(
    end: &mut Endpoint,
    runs: &mut Vec<RootRun>,
    input: &mut I,
    output: &mut O,
) -> Status
    requires beginning { end.old.entries ≡ [] }
    requires roots { map run_of runs.old.items ≡ first_runs 1 (setting_at end.old).plan.threads }
    ensures served { Served I.left I.faults O.taken O.faults (setting_at end.old) input.old input.new output.old output.new result }
    ensures ends { EndsServing result }
    ensures stays { O.closed output.new ≡ O.closed output.old }
{
    let stopped = answer(end, runs, input, output);
    status_of(stopped)
}

/// The roots of the plan at their beginnings.
fn runs_of(alloc: Global, end: &Endpoint) -> Result<Vec<RootRun>, NoMemory>
    ensures { IfOk result (λ runs. map run_of runs.items ≡ first_runs 1 (setting_at end.now).plan.threads) }
{
    openings(alloc, end.plan().threads.len())
}

/// The roots of so many threads at their beginnings.
#[tactic(auto, unfolding(bridge_model::specs::Orders::first_runs))]
pub(crate) fn openings(alloc: Global, count: usize) -> Result<Vec<RootRun>, NoMemory>
    ensures { IfOk result (λ runs. (threads : List (List RootStatement)) → length threads ≡ count → map run_of runs.items ≡ first_runs 1 threads) }
{
    let mut runs = Vec::new(alloc);
    for place in 0..count {
        push_opening(alloc, &mut runs, place)?;
    }
    Ok(runs)
}

/// Adds the root of the thread at this place, at its beginning.
fn push_opening(alloc: Global, runs: &mut Vec<RootRun>, place: usize) -> Result<(), NoMemory>
    ensures { OnOk result (map run_of runs.new.items ≡ map run_of runs.old.items ++ opening_run (suc place) manager_name ∷ []) }
{
    runs.push(opening(alloc, place)?)?;
    Ok(())
}

/// The root of the thread at this place, at its beginning. No plan has more threads than a u32 counts.
fn opening(alloc: Global, place: usize) -> Result<RootRun, NoMemory>
    ensures { IfOk result (λ run. run_of run ≡ opening_run (suc place) manager_name) }
{
    let Ok(place) = u32::try_from(place) else {
        return Err(NoMemory);
    };
    let Some(root) = place.checked_add(1) else {
        return Err(NoMemory);
    };
    let instance = Text::of(alloc, INSTANCE)?;
    Ok(RootRun::new(alloc, root, instance))
}

/// The status of an endpoint that stopped so.
fn status_of(stopped: Stopped) -> Status
    ensures done { result ≡ Status.Done → (stopped ≡ Stopped.Bridge why.Disposed) ⊎ (stopped ≡ Stopped.Input false) }
    ensures cut { result ≡ Status.Cut → stopped ≡ Stopped.Input true }
    ensures broken { (reason : Reason) (place : ℕ) → result ≡ Status.Broken reason place → stopped ≡ Stopped.Bridge (why.Broken reason place) }
    ensures full { result ≡ Status.Full → stopped ≡ Stopped.Bridge why.Full }
    ensures read_fault { result ≡ Status.ReadFault → stopped ≡ Stopped.ReadFault }
    ensures write_fault { (result ≡ Status.WriteFault) ↔ (stopped ≡ Stopped.WriteFault) }
    ensures ends { EndsServing result }
{
    match stopped {
        Stopped::Bridge(Cause::Disposed) => Status::Done,
        Stopped::Bridge(Cause::Broken(reason, place)) => Status::Broken(reason, place),
        Stopped::Bridge(Cause::Full) => Status::Full,
        Stopped::Bridge(Cause::NoMemory) => Status::NoMemory,
        // No bridge ends so before its input.
        Stopped::Bridge(Cause::Ended) => Status::NoMemory,
        Stopped::Bridge(Cause::Failed) => Status::NoMemory,
        Stopped::Input { cut: true } => Status::Cut,
        Stopped::Input { cut: false } => Status::Done,
        Stopped::ReadFault => Status::ReadFault,
        Stopped::WriteFault => Status::WriteFault,
        Stopped::NoMemory => Status::NoMemory,
    }
}
