//! What the outcome of a statement becomes. All room is taken before: these take no memory.
ghost use Rattle.std.specs.Prelude.{◌≡◌, ◌∷◌, ◌+◌, ◌<◌, ◌≤◌, List, drop, length, map};
ghost use Rattle.std.specs.Vec.{vec_capacity, vec_len};
ghost use Rattle.bridge_model.specs.RootRuns.{adds, adds_result, puts_outs, with_loose};
ghost use Rattle.named_variables.specs.Threads.{HasRoom};
ghost use Rattle.plan_model.specs.Expressions as plain;
ghost use Rattle.plan_types.specs.Expressions.{argument_of};
ghost use Rattle.uno_values.specs.Values.{plain_of};
ghost use Rattle.behaviour.specs.Roots.{run_of};
ghost use Rattle.frame_variables.specs.Given.{left};
ghost use Rattle.root_runs.specs.Keeping.{KeepsLines};
ghost use Rattle.root_runs.specs.Outs.{puts_first};

use behaviour::RootRun;
use frame_variables::Given;
use plan_types::Argument;
use uno_types::Name;
use uno_values::Value;

/// A new variable.
pub fn add_variable(run: &mut RootRun, name: Name, value: Value)
    requires room { HasRoom run.old.variables }
    ensures added { run_of run.new ≡ adds name (plain_of value) (run_of run.old) }
    ensures loose { run.new.loose ≡ run.old.loose }
    ensures lines { KeepsLines run.old run.new }
{
    run.variables.add(name, value);
}

/// The references of a value that has no name are loose.
pub fn loosen(run: &mut RootRun, value: Value)
    requires room { vec_len run.old.loose < vec_capacity run.old.loose }
    ensures loose { run_of run.new ≡ with_loose (plain_of value) (run_of run.old) }
    ensures one { vec_len run.new.loose ≡ vec_len run.old.loose + 1 }
    ensures capacity { vec_capacity run.new.loose ≡ vec_capacity run.old.loose }
    ensures lines { KeepsLines run.old run.new }
{
    run.loose.push_reserved(value);
}

/// A result becomes a variable, where it has a name, and else its references are loose.
pub fn take_result(run: &mut RootRun, name: Option<Name>, value: Value)
    requires room { vec_len run.old.loose < vec_capacity run.old.loose }
    requires variables { HasRoom run.old.variables }
    ensures taken { run_of run.new ≡ adds_result name (plain_of value) (run_of run.old) }
    ensures most { vec_len run.new.loose ≤ vec_len run.old.loose + 1 }
    ensures capacity { vec_capacity run.new.loose ≡ vec_capacity run.old.loose }
    ensures lines { KeepsLines run.old run.new }
{
    match name {
        Some(name) => add_variable(run, name, value),
        None => loosen(run, value),
    }
}

/// The values of the parameters that come out become those of the variables that stand for them.
pub fn take_outs(run: &mut RootRun, arguments: &[Argument], outs: Vec<Value>)
    requires room { vec_len run.old.loose + length arguments.now ≤ vec_capacity run.old.loose }
    ensures taken { run_of run.new ≡ puts_outs (map argument_of arguments.now) (map plain_of outs.items) (run_of run.old) }
    ensures lines { KeepsLines run.old run.new }
{
    let mut given = Given::new(outs);
    for argument in arguments {
        take_out_value(run, argument, &mut given);
    }
}

/// The same for one argument.
#[tactic(auto, unfolding(bridge_model::specs::RootRuns::puts_outs))]
fn take_out_value(run: &mut RootRun, argument: &Argument, given: &mut Given)
    requires room { vec_len run.old.loose < vec_capacity run.old.loose }
    ensures taken { (args : List plain.Argument) → puts_outs args (left given.new) (run_of run.new) ≡ puts_outs (argument_of argument.now ∷ args) (left given.old) (run_of run.old) }
    ensures most { vec_len run.new.loose ≤ vec_len run.old.loose + 1 }
    ensures capacity { vec_capacity run.new.loose ≡ vec_capacity run.old.loose }
    ensures lines { KeepsLines run.old run.new }
{
    match argument {
        Argument::Into(_) => {}
        Argument::Out(name) | Argument::Both(name) => put_next(run, name, given),
    }
}

/// A variable gets the next value, and the references of its own are loose.
fn put_next(run: &mut RootRun, name: &Name, given: &mut Given)
    requires room { vec_len run.old.loose < vec_capacity run.old.loose }
    ensures put { run_of run.new ≡ puts_first name.now (left given.old) (run_of run.old) }
    ensures rest { left given.new ≡ drop 1 (left given.old) }
    ensures most { vec_len run.new.loose ≤ vec_len run.old.loose + 1 }
    ensures capacity { vec_capacity run.new.loose ≡ vec_capacity run.old.loose }
    ensures lines { KeepsLines run.old run.new }
{
    let Some(value) = given.next() else {
        return;
    };
    let old = run.variables.put(name, value);
    run.loose.push_reserved(old);
}
