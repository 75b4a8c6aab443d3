//! Turns until nothing can be done but feeding.
ghost use Rattle.std.specs.Prelude.{◌≡◌, map};
ghost use Rattle.behaviour.specs.Roots.{run_of};
ghost use Rattle.bridge_endpoint.specs.Journals.{setting_at};
ghost use Rattle.answering.specs.Ends.{SettlesSo, TurnsSo, WorksSo};
ghost use Rattle.answering.specs.Running.{AreRoots};
ghost use Rattle.answering.specs.Serving.{Writes};

use crate::doing::{do_first, know, lacks_memory};
use crate::stopped::Halted;
use behaviour::RootRun;
use bridge_endpoint::Endpoint;
use bridge_model::Cause;
use uno_io::Sink;

/// Does all that can be done but feeding, and says why the bridge has ended then, where it has.
pub(crate) fn work<O: Sink>(
    end: &mut Endpoint,
    runs: &mut Vec<RootRun>,
    output: &mut O,
) -> Result<Option<Cause>, Halted>
    requires { AreRoots end.old (map run_of runs.old.items) }
    ensures works { WorksSo end.old end.new (map run_of runs.old.items) (map run_of runs.new.items) (O.taken output.old) (O.taken output.new) result }
    ensures writes { Writes (O.faults output.old) (O.faults output.new) result }
    ensures stays { O.closed output.new ≡ O.closed output.old }
{
    settle(end, runs, output)?;
    Ok(end.end())
}

/// Does all that can be done but feeding. No run makes as many turns as there are numbers.
pub(crate) fn settle<O: Sink>(
    end: &mut Endpoint,
    runs: &mut Vec<RootRun>,
    output: &mut O,
) -> Result<(), Halted>
    requires { AreRoots end.old (map run_of runs.old.items) }
    ensures settles { SettlesSo end.old end.new (map run_of runs.old.items) (map run_of runs.new.items) (O.taken output.old) (O.taken output.new) result }
    ensures writes { Writes (O.faults output.old) (O.faults output.new) result }
    ensures stays { O.closed output.new ≡ O.closed output.old }
{
    'turns: for _ in 0..u64::MAX {
        if !turn(end, runs, output)? {
            return Ok(());
        }
    }
    Err(lacks_memory(end))
}

/// Does the first thing that can be done, and says whether there was one.
fn turn<O: Sink>(
    end: &mut Endpoint,
    runs: &mut Vec<RootRun>,
    output: &mut O,
) -> Result<bool, Halted>
    requires { AreRoots end.old (map run_of runs.old.items) }
    ensures turns { TurnsSo end.old end.new (map run_of runs.old.items) (map run_of runs.new.items) (O.taken output.old) (O.taken output.new) result }
    ensures writes { Writes (O.faults output.old) (O.faults output.new) result }
    ensures stays { O.closed output.new ≡ O.closed output.old }
{
    know(end);
    let done = do_first(end, runs, output);
    know(end);
    done
}
