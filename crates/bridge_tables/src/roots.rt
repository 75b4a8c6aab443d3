//! What roots wait for, and what they get.
ghost use Rattle.std.specs.Prelude.{◌≡◌, ◌<◌, ◌-◌, ◌^◌, false, Some, length, map, option_map, slice_get, slice_set};
ghost use Rattle.std.specs.Option.{unwrap_or};
ghost use Rattle.bridge_model.specs.Calls.{counts_frame};
ghost use Rattle.bridge_model.specs.Ends.{outcome_at_end, state_at_end};
ghost use Rattle.bridge_model.specs.References.{loses_all};
ghost use Rattle.bridge_model.specs.Sides.{idle, state_of, with_root};
ghost use Rattle.bridge_tables.specs.EndTables.{on_tables, ended, forgotten, with_frames_made};
ghost use Rattle.bridge_tables.specs.Roots.{outcome_of, outcome_refs, root_of, state_refs};
ghost use Rattle.table_model.specs.declared.holder.Holder.TheVariants as holder;

use crate::Tables;
use bridge_model::Cause;
use proxy_table::ProxyTable;
use std::mem;
use table_model::Holder;
use uno_types::Name;
use uno_values::{AnyValue, Value};

/// What a root gets for its call or query.
#[derive(Drop)]
pub enum Outcome {
    /// The result, and the values of the `[out]` and `[inout]` parameters in order.
    Returned { value: Value, outs: Vec<Value> },
    Raised(AnyValue),
    /// The bridge ended first.
    Disposed(Cause),
    NoMemory,
}

/// What a root does: nothing; it waits for the answer to a call, or to a query for an interface; or it has an outcome that it did not take.
#[derive(Drop)]
pub enum Root {
    Idle,
    Calls,
    Queries(Name),
    Answered(Outcome),
}

impl Tables {
    /// What a root does; roots are numbered from 1.
    #[tactic(auto, unfolding(bridge_model::specs::Sides::state_of))]
    pub fn root(&self, root: u32) -> Option<&Root>
        ensures { unwrap_or (option_map (λ r. root_of r.now) result) idle ≡ state_of root self.now.tables.roots }
    {
        if root == 0 {
            return None;
        }
        root_at(&self.roots, root as usize - 1)
    }

    /// Gives a root another state, and gives back the old one; where there is no such root nothing changes, and it was idle.
    #[tactic(auto, unfolding(bridge_model::specs::Sides::state_of, bridge_model::specs::Sides::states_with))]
    pub fn set_root(&mut self, root: u32, state: Root) -> Root
        ensures was { root_of result ≡ state_of root self.old.tables.roots }
        ensures set { self.new ≡ on_tables (with_root root (root_of state)) self.old }
    {
        if root == 0 || root as usize > self.roots.len() {
            drop(state);
            return Root::Idle;
        }
        put_root(&mut self.roots, root as usize - 1, state)
    }

    /// An occurrence less of each reference in an outcome, and no message.
    pub fn lose_outcome(&mut self, holder: Holder, outcome: &Outcome)
        ensures { self.new ≡ on_tables (loses_all holder (outcome_refs (outcome_of outcome.now))) self.old }
    {
        match outcome {
            Outcome::Returned { value, outs } => {
                self.lose_value(holder, value);
                self.lose_values(holder, outs);
            }
            Outcome::Raised(exception) => self.lose_value(holder, &exception.value),
            Outcome::Disposed(_) => {}
            Outcome::NoMemory => {}
        }
    }

    /// Takes back that a root was answered: it does again what it did before, and what its outcome holds is lost.
    pub fn take_back_root(&mut self, root: u32, before: Root)
        ensures { self.new ≡ on_tables (λ t. loses_all (holder.Root root) (state_refs (state_of root t.roots)) (with_root root (root_of before) t)) self.old }
    {
        let state = self.set_root(root, before);
        self.lose_state(Holder::Root(root), &state);
        drop(state);
    }

    /// An occurrence less of each reference in what a root got and did not take.
    fn lose_state(&mut self, holder: Holder, state: &Root)
        ensures { self.new ≡ on_tables (loses_all holder (state_refs (root_of state.now))) self.old }
    {
        match state {
            Root::Answered(outcome) => self.lose_outcome(holder, outcome),
            Root::Idle => {}
            Root::Calls => {}
            Root::Queries(_) => {}
        }
    }

    /// A frame more began.
    pub fn count_frame(&mut self)
        requires { self.old.tables.frames_made < 2 ^ 64 - 1 }
        ensures { self.new ≡ on_tables counts_frame self.old }
    {
        self.frames_made += 1;
    }

    /// Takes back that frames began.
    pub fn set_frames_made(&mut self, frames_made: u64)
        ensures { self.new ≡ on_tables (with_frames_made frames_made) self.old }
    {
        self.frames_made = frames_made;
    }

    /// The end of the bridge: what frames hold goes without a release, stubs and proxies are gone, and a root that waits gets the cause.
    pub fn end(&mut self, cause: Cause)
        ensures { self.new ≡ ended cause self.old }
    {
        self.stands = false;
        self.objects.end();
        self.proxies = ProxyTable::new(self.alloc);
        end_roots(&mut self.roots, cause);
    }

    /// Forgets what is said, where the bridge has ended.
    pub fn forget(&mut self)
        requires { self.old.stands ≡ false }
        ensures { self.new ≡ on_tables forgotten self.old }
    {
        self.unsaid.clear();
    }
}

/// The root at a place.
fn root_at(roots: &[Root], place: usize) -> Option<&Root>
    ensures { option_map (λ r. root_of r.now) result ≡ slice_get (map root_of roots.now) place }
{
    roots.get(place)
}

/// Gives the root at a place another state, and gives back the old one.
fn put_root(roots: &mut Vec<Root>, place: usize, state: Root) -> Root
    requires { place < length roots.old.items }
    ensures was { Some (root_of result) ≡ slice_get (map root_of roots.old.items) place }
    ensures put { map root_of roots.new.items ≡ slice_set (map root_of roots.old.items) place (root_of state) }
{
    mem::replace(&mut roots[place], state)
}

/// Each root that waits is answered.
fn end_roots(roots: &mut Vec<Root>, cause: Cause)
    ensures { map root_of roots.new.items ≡ map (state_at_end cause) (map root_of roots.old.items) }
{
    for place in 0..roots.len() {
        end_root(&mut roots[place], cause);
    }
}

/// A root that waits is answered.
fn end_root(root: &mut Root, cause: Cause)
    ensures { root_of root.new ≡ state_at_end cause (root_of root.old) }
{
    match root {
        Root::Idle | Root::Answered(_) => {}
        Root::Calls | Root::Queries(_) => {
            let answered = Root::Answered(outcome_at_end(cause));
            drop(mem::replace(root, answered));
        }
    }
}

fn outcome_at_end(cause: Cause) -> Outcome
    ensures { outcome_of result ≡ outcome_at_end cause }
{
    match cause {
        Cause::NoMemory => Outcome::NoMemory,
        Cause::Disposed | Cause::Ended | Cause::Failed | Cause::Broken(_, _) | Cause::Full => {
            Outcome::Disposed(cause)
        }
    }
}
