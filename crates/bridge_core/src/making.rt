//! A new object of a root.
ghost use Rattle.std.specs.Prelude.{◌≡◌, ◌++◌, ◌-◌, ◌<◌, ◌^◌, List, suc, true, IfOk, OnOk, codes, is_ok};
ghost use Rattle.std.specs.String.{string_bytes};
ghost use Rattle.std.specs.Vec.{vec_capacity, vec_len};
ghost use Rattle.bridge_model.specs.Entries as entry;
ghost use Rattle.bridge_model.specs.RootRuns.{adds, line_of, makes_new, over_with};
ghost use Rattle.bridge_model.specs.Settings.{own_oid};
ghost use Rattle.bridge_model.specs.Steps.{is_root};
ghost use Rattle.bridge_laws.specs.Giving.{MayGive};
ghost use Rattle.literal_model.specs.Literals.{print};
ghost use Rattle.named_variables.specs.Threads.{HasRoom};
ghost use Rattle.uno_model.specs.Entities.{Entity};
ghost use Rattle.uno_model.specs.Values.{Ref, own, ref};
ghost use Rattle.uno_values.specs.Values.{plain_of};
ghost use Rattle.behaviour.specs.Roots.{run_of};
ghost use Rattle.bridge_endpoint.specs.Journals.{setting_at, side_at};
ghost use Rattle.bridge_core.specs.Making.{IsMade, IsReady, has_made, made_run};
ghost use Rattle.bridge_core.specs.Moving.{DoesOr};

use crate::saying::{line_for, says};
use behaviour::RootRun;
use bridge_endpoint::{Endpoint, Made};
use root_runs::{add_variable, over_with};
use std::alloc::Global;
use uno_base::NoMemory;
use uno_types::{Name, Registry, Text};
use uno_values::{Reference, Value};
use value_text::push_value;

/// What is made beforehand: the value of the new variable, the line that tells it, and the line for a bridge that is full.
#[derive(Drop)]
pub(crate) struct Ready {
    pub new: Value,
    pub made: Text,
    pub full: Text,
}

/// Makes an object of a behaviour, which becomes a variable.
pub(crate) fn make(
    end: &mut Endpoint,
    run: &mut RootRun,
    behaviour: u32,
    wanted: Name,
    to: Name,
) -> Result<(), NoMemory>
    requires root { is_root (setting_at end.old) run.old.root ≡ true }
    requires gives { MayGive (setting_at end.old) (entry.made run.old.root behaviour wanted) }
    ensures { DoesOr (makes_new (setting_at end.old) (side_at end.old) (run_of run.old) (record { behaviour = behaviour; face = wanted; to = to })) end.old end.new (run_of run.old) (run_of run.new) result }
{
    if end.end().is_some() {
        drop(wanted);
        drop(to);
        return says(end.registry().allocator(), run, "gone");
    }
    match prepare(end, run, &wanted) {
        Ok(ready) => {
            let answer = end.make(run.root, behaviour, &wanted);
            made(run, to, ready, answer)
        }
        Err(NoMemory) => {
            drop(to);
            Err(NoMemory)
        }
    }
}

/// All that the new object needs, with room for it.
fn prepare(end: &Endpoint, run: &mut RootRun, wanted: &Name) -> Result<Ready, NoMemory>
    ensures ready { IfOk result (λ r. IsReady (setting_at end.now).registry (run_of run.old) (own (own_oid (setting_at end.now) (suc (side_at end.now).tables.objects_made)) wanted.now) r) }
    ensures same { run_of run.new ≡ run_of run.old }
    ensures place { OnOk result (run.new.place < 2 ^ 32 - 1) }
    ensures lines { OnOk result (vec_len run.new.lines < vec_capacity run.new.lines) }
    ensures variables { OnOk result (HasRoom run.new.variables) }
{
    let alloc = end.registry().allocator();
    run.variables.reserve()?;
    let oid = end.next_oid()?;
    let face = wanted.copy()?;
    let new = Value::Ref(Reference::Local { oid, face });
    let text = text_of(alloc, end.registry(), &new)?;
    let made = line_for(alloc, run, text.as_str())?;
    match line_for(alloc, run, "full") {
        Ok(full) => Ok(Ready { new, made, full }),
        Err(NoMemory) => {
            drop(new);
            drop(made);
            Err(NoMemory)
        }
    }
}

fn text_of(alloc: Global, registry: &Registry, new: &Value) -> Result<String, NoMemory>
    ensures { IfOk result (λ text. string_bytes text ≡ codes "returned " ++ print registry.now (plain_of new.now)) }
{
    let mut text = String::from_str(alloc, "returned ")?;
    push_value(alloc, &mut text, registry, new)?;
    Ok(text)
}

/// What becomes of the run, by what was answered; there is room for it.
fn made(run: &mut RootRun, to: Name, ready: Ready, made: Made) -> Result<(), NoMemory>
    requires place { run.old.place < 2 ^ 32 - 1 }
    requires lines { vec_len run.old.lines < vec_capacity run.old.lines }
    requires variables { HasRoom run.old.variables }
    requires made { IsMade made }
    ensures run { (reg : List Entity) (r : Ref) → IsReady reg (run_of run.old) r ready → run_of run.new ≡ made_run reg made to r (run_of run.old) }
    ensures moved { is_ok result ≡ has_made made }
{
    match made {
        Made::Made(oid) => {
            drop(oid);
            tells(run, to, ready)
        }
        Made::Full => fills(run, to, ready),
        Made::Gone => unreachable!(),
        Made::NoMemory => {
            drop(to);
            drop(ready);
            Err(NoMemory)
        }
    }
}

/// The new variable is there, and the statement is over with its line.
fn tells(run: &mut RootRun, to: Name, ready: Ready) -> Result<(), NoMemory>
    requires place { run.old.place < 2 ^ 32 - 1 }
    requires lines { vec_len run.old.lines < vec_capacity run.old.lines }
    requires variables { HasRoom run.old.variables }
    ensures run { (reg : List Entity) (r : Ref) → IsReady reg (run_of run.old) r ready → run_of run.new ≡ over_with (codes "returned " ++ print reg (ref r)) (adds to (ref r) (run_of run.old)) }
    ensures moved { is_ok result ≡ true }
{
    let Ready { new, made, full } = ready;
    drop(full);
    add_variable(run, to, new);
    over_with(run, made);
    Ok(())
}

/// The statement is over with the line for a bridge that is full.
fn fills(run: &mut RootRun, to: Name, ready: Ready) -> Result<(), NoMemory>
    requires place { run.old.place < 2 ^ 32 - 1 }
    requires lines { vec_len run.old.lines < vec_capacity run.old.lines }
    ensures run { (reg : List Entity) (r : Ref) → IsReady reg (run_of run.old) r ready → run_of run.new ≡ over_with (codes "full") (run_of run.old) }
    ensures moved { is_ok result ≡ true }
{
    let Ready { new, made, full } = ready;
    drop(new);
    drop(made);
    drop(to);
    over_with(run, full);
    Ok(())
}
