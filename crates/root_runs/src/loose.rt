//! References that a root lets go: those of values that it holds and no longer names.
ghost use Rattle.std.specs.Bool.{OnFalse, OnTrue};
ghost use Rattle.std.specs.Prelude.{◌≡◌, ◌+◌, ◌<◌, [], IfOk, OnOk, map, option_map};
ghost use Rattle.std.specs.Vec.{vec_capacity, vec_len};
ghost use Rattle.bridge_model.specs.RootRuns.{drops};
ghost use Rattle.plan_model.specs.Roots.{less_loose, next_loose};
ghost use Rattle.uno_model.specs.Values.{refs};
ghost use Rattle.uno_values.specs.References.{ref_of};
ghost use Rattle.uno_values.specs.Values.{plain_of};
ghost use Rattle.behaviour.specs.Roots.{run_of};
ghost use Rattle.root_runs.specs.Keeping.{KeepsLines};

use behaviour::RootRun;
use std::alloc::Global;
use std::collections::VecDeque;
use uno_base::NoMemory;
use uno_types::Name;
use uno_values::{Reference, Value, refs_of};

/// Puts the references of the first loose values in front, until there is one or no value is left. The root stays as it is.
pub fn open_loose(alloc: Global, run: &mut RootRun) -> Result<(), NoMemory>
    ensures same { run_of run.new ≡ run_of run.old }
    ensures root { run.new.root ≡ run.old.root }
    ensures opened { OnOk result (run.new.letting.items ≡ [] → (run_of run.new).loose ≡ []) }
{
    while waits_behind(run) {
        open_first(alloc, run)?;
    }
    Ok(())
}

/// Whether a loose value has no reference in front of it.
fn waits_behind(run: &RootRun) -> bool
    ensures some { OnTrue result ((run.now.letting.items ≡ []) × (0 < vec_len run.now.loose)) }
    ensures none { OnFalse result (run.now.letting.items ≡ [] → (run_of run.now).loose ≡ []) }
{
    if !run.letting.is_empty() {
        return false;
    }
    !run.loose.is_empty()
}

/// Puts the references of the first loose value in front.
fn open_first(alloc: Global, run: &mut RootRun) -> Result<(), NoMemory>
    requires none { run.old.letting.items ≡ [] }
    requires some { 0 < vec_len run.old.loose }
    ensures same { run_of run.new ≡ run_of run.old }
    ensures root { run.new.root ≡ run.old.root }
    ensures less { OnOk result (vec_len run.new.loose + 1 ≡ vec_len run.old.loose) }
{
    run.letting = references_in(alloc, &run.loose[0])?;
    drop(run.loose.remove(0));
    Ok(())
}

/// The references in a value, in order.
fn references_in(alloc: Global, value: &Value) -> Result<VecDeque<Reference>, NoMemory>
    ensures { IfOk result (λ rs. map ref_of rs.items ≡ refs (plain_of value.now)) }
{
    let references = refs_of(alloc, value)?;
    Ok(VecDeque::from(references))
}

/// Takes the next reference to let go out of those in front.
pub fn take_loose(run: &mut RootRun) -> Option<Reference>
    requires opened { run.old.letting.items ≡ [] → (run_of run.old).loose ≡ [] }
    ensures next { option_map ref_of result ≡ next_loose (run_of run.old).loose }
    ensures rest { run_of run.new ≡ (record (run_of run.old) { loose = less_loose (run_of run.old).loose }) }
    ensures root { run.new.root ≡ run.old.root }
{
    run.letting.pop_front()
}

/// A variable goes, and its references are loose. There is room for its value among those that are loose.
pub fn drop_variable(run: &mut RootRun, name: &Name)
    requires room { vec_len run.old.loose < vec_capacity run.old.loose }
    ensures dropped { run_of run.new ≡ drops name.now (run_of run.old) }
    ensures lines { KeepsLines run.old run.new }
{
    let value = run.variables.take_out(name);
    run.loose.push_reserved(value);
}
