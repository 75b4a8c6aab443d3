//! Which roots move.
ghost use Rattle.std.specs.Prelude.{◌≡◌, ◌||◌, is_some, length, map, option_map, slice_get};
ghost use Rattle.behaviour.specs.Roots.{run_of};
ghost use Rattle.bridge_endpoint.specs.Journals.{setting_at, side_at};
ghost use Rattle.bridge_model.specs.RootRuns.{root_moves, statement_at};
ghost use Rattle.world_model.specs.Moves.{does_move, steps, stepping};
ghost use Rattle.plan_model.specs.Roots.{next_loose, statements_in};
ghost use Rattle.plan_types.specs.Statements.{root_statement_of};
ghost use Rattle.move_choice.specs.Choosing.{counted};

use crate::references::some_has_reference;
use behaviour::RootRun;
use bridge_endpoint::{Endpoint, RootState};
use plan_types::RootStatement;

/// How many roots move, as far as a u32 counts.
pub(crate) fn moving(end: &Endpoint, runs: &[RootRun]) -> u32
    ensures { result ≡ counted (length (stepping (setting_at end.now) (side_at end.now) 0 (map run_of runs.now))) }
{
    let mut count: u32 = 0;
    for run in runs {
        if !moves(end, run) {
            continue;
        }
        count = count.saturating_add(1);
    }
    count
}

/// The place of a root among all, by its place among those that move.
pub(crate) fn moving_at(end: &Endpoint, runs: &[RootRun], nth: u32) -> Option<usize>
    ensures { option_map (λ place. steps place) result ≡ slice_get (stepping (setting_at end.now) (side_at end.now) 0 (map run_of runs.now)) nth }
{
    let mut left = nth;
    for place in 0..runs.len() {
        if !moves(end, &runs[place]) {
            continue;
        }
        if left == 0 {
            return Some(place);
        }
        left -= 1;
    }
    None
}

/// Whether a root moves: it does not wait, and it has something to do.
fn moves(end: &Endpoint, run: &RootRun) -> bool
    ensures { result ≡ does_move (root_moves (setting_at end.now) (side_at end.now) (run_of run.now)) }
{
    match end.root_state(run.root) {
        RootState::Waits => false,
        RootState::Answered => has_statement(end, run),
        RootState::Idle => has_more(end, run),
    }
}

/// Whether a statement of a root is left, or a reference to let go.
fn has_more(end: &Endpoint, run: &RootRun) -> bool
    ensures { result ≡ (is_some (statement_at (setting_at end.now) (run_of run.now)) || is_some (next_loose (run_of run.now).loose)) }
{
    if has_statement(end, run) {
        return true;
    }
    is_loose(run)
}

/// Whether a statement of a root is left.
fn has_statement(end: &Endpoint, run: &RootRun) -> bool
    ensures { result ≡ is_some (statement_at (setting_at end.now) (run_of run.now)) }
{
    statement_at(end, run).is_some()
}

/// The statement at the place of a root.
#[tactic(auto, unfolding(plan_model::specs::Roots::statements_of))]
fn statement_at<'a>(end: &'a Endpoint, run: &RootRun) -> Option<&'a RootStatement>
    ensures { option_map (λ s. root_statement_of s.now) result ≡ statement_at (setting_at end.entry.now) (run_of run.now) }
{
    if run.root == 0 {
        return None;
    }
    let statements = thread_at(&end.plan().threads, run.root - 1);
    statements.get(run.place as usize)
}

/// The statements of the thread at a place; one that is not there has none.
fn thread_at(threads: &[Vec<RootStatement>], place: u32) -> &[RootStatement]
    ensures { map root_statement_of result.now ≡ statements_in (slice_get (map (λ t. map root_statement_of t.items) threads.entry.now) place) }
{
    match threads.get(place as usize) {
        Some(thread) => thread.as_slice(),
        None => &[],
    }
}

/// Whether a root is to let a reference go.
fn is_loose(run: &RootRun) -> bool
    ensures { result ≡ is_some (next_loose (run_of run.now).loose) }
{
    if !run.letting.is_empty() {
        return true;
    }
    some_has_reference(run.loose.as_slice())
}
