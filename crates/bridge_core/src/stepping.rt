//! One step of a root.
ghost use Rattle.std.specs.Prelude.{◌≡◌, ◌↔◌, [], true, Some, map, option_map, slice_get};
ghost use Rattle.bridge_model.specs.Entries.{dropped};
ghost use Rattle.bridge_model.specs.RootRuns.{lets_loose, statement_at};
ghost use Rattle.bridge_model.specs.Roots.{holds_pair};
ghost use Rattle.bridge_model.specs.Sides.{idle, state_of};
ghost use Rattle.bridge_endpoint.specs.Telling.{state_told};
ghost use Rattle.plan_model.specs.Roots.{next_loose, statements_in};
ghost use Rattle.plan_types.specs.Statements.{root_statement_of};
ghost use Rattle.uno_model.specs.Values.{Ref};
ghost use Rattle.uno_values.specs.References.{ref_of};
ghost use Rattle.behaviour.specs.Roots.{run_of};
ghost use Rattle.bridge_endpoint.specs.Journals.{setting_at, side_at, with_entry};
ghost use Rattle.bridge_core.specs.Letting.{goes_with, is_held};
ghost use Rattle.bridge_core.specs.Moving.{Does, DoesAny, StepsSo, next_move, told, with_any};
ghost use Rattle.bridge_core.specs.Standing.{IsHistory, IsRunAt};

use crate::RootMoved;
use crate::beginning::begin;
use crate::taking::take_outcome;
use behaviour::RootRun;
use bridge_endpoint::{Endpoint, RootState};
use plan_types::RootStatement;
use root_runs::{open_loose, take_loose};
use uno_base::NoMemory;
use uno_types::{Name, Text};
use uno_values::Reference;

/// Does what a root does next, where it does not wait.
pub fn root_step(end: &mut Endpoint, run: &mut RootRun) -> RootMoved
    requires { IsRunAt end.old (run_of run.old) }
    ensures step { StepsSo end.old end.new (run_of run.old) (run_of run.new) result }
    ensures waits { (result ≡ RootMoved.Waiting) ↔ (state_told (state_of run.old.root (side_at end.old).tables.roots) ≡ RootState.Waits) }
    ensures stands { IsRunAt end.new (run_of run.new) }
{
    know_history(end);
    step(end, run)
}

/// What is known of each endpoint. It does nothing.
pub(crate) fn know_history(end: &Endpoint)
    ensures { IsHistory end.now }
{
    end.journal();
}

fn step(end: &mut Endpoint, run: &mut RootRun) -> RootMoved
    requires { IsRunAt end.old (run_of run.old) }
    ensures step { StepsSo end.old end.new (run_of run.old) (run_of run.new) result }
    ensures waits { (result ≡ RootMoved.Waiting) ↔ (state_told (state_of run.old.root (side_at end.old).tables.roots) ≡ RootState.Waits) }
{
    match end.root_state(run.root) {
        RootState::Waits => RootMoved::Waiting,
        RootState::Answered => told(take_outcome(end, run)),
        RootState::Idle => told(go_on(end, run)),
    }
}

fn told(moved: Result<bool, NoMemory>) -> RootMoved
    ensures { result ≡ told moved }
{
    match moved {
        Ok(true) => RootMoved::Moved,
        Ok(false) => RootMoved::Finished,
        Err(NoMemory) => RootMoved::NoMemory,
    }
}

/// The next step of a root that is idle: it lets a reference go, or begins its next statement.
fn go_on(end: &mut Endpoint, run: &mut RootRun) -> Result<bool, NoMemory>
    requires run { IsRunAt end.old (run_of run.old) }
    requires idle { state_of run.old.root (side_at end.old).tables.roots ≡ idle }
    ensures { DoesAny (next_move end.old (run_of run.old)) end.old end.new (run_of run.old) (run_of run.new) result }
{
    know_history(end);
    open_loose(end.registry().allocator(), run)?;
    if run.letting.is_empty() {
        return begin(end, run);
    }
    let_go(end, run);
    Ok(true)
}

/// Lets the first reference go.
fn let_go(end: &mut Endpoint, run: &mut RootRun)
    requires some { run.old.letting.items ≡ [] → ⊥ }
    requires held { (r : Ref) → next_loose (run_of run.old).loose ≡ Some r → is_held run.old.root (side_at end.old).tables r ≡ true }
    ensures { (r : Ref) → next_loose (run_of run.old).loose ≡ Some r → Does (lets_loose (run_of run.old) r) end.old end.new (run_of run.new) }
{
    let Some(reference) = take_loose(run) else {
        unreachable!()
    };
    drop_held(end, run.root, reference);
}

/// Lets a reference go that the root holds.
fn drop_held(end: &mut Endpoint, root: u32, reference: Reference)
    requires { is_held root (side_at end.old).tables (ref_of reference) ≡ true }
    ensures { end.new ≡ with_any (goes_with root (ref_of reference)) end.old }
{
    match reference {
        Reference::Null => {}
        Reference::Local { oid, face } => drop_pair(end, root, oid, face),
        Reference::Remote { oid, face } => drop_pair(end, root, oid, face),
    }
}

fn drop_pair(end: &mut Endpoint, root: u32, oid: Text, face: Name)
    requires { holds_pair root oid face (side_at end.old).tables ≡ true }
    ensures { end.new ≡ with_entry (dropped root oid face) end.old }
{
    match end.drop_ref(root, oid, face) {
        Ok(()) => {}
        Err(_) => unreachable!(),
    }
}

/// The statement at the place of a root.
#[tactic(auto, unfolding(plan_model::specs::Roots::statements_of))]
pub(crate) fn statement_at<'a>(end: &'a Endpoint, run: &RootRun) -> Option<&'a RootStatement>
    ensures { option_map (λ s. root_statement_of s.now) result ≡ statement_at (setting_at end.entry.now) (run_of run.now) }
{
    if run.root == 0 {
        return None;
    }
    let statements = thread_at(&end.plan().threads, run.root - 1);
    statements.get(run.place as usize)
}

/// The statements of the thread at a place; one that is not there has none.
fn thread_at(threads: &[Vec<RootStatement>], place: u32) -> &[RootStatement]
    ensures { map root_statement_of result.now ≡ statements_in (slice_get (map (λ t. map root_statement_of t.items) threads.entry.now) place) }
{
    match threads.get(place as usize) {
        Some(thread) => thread.as_slice(),
        None => &[],
    }
}
