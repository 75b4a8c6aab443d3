//! Statements that are over with a line and no entry.
ghost use Rattle.std.specs.Prelude.{◌≡◌, ◌-◌, ◌<◌, ◌^◌, IfOk, OnOk, OnErr};
ghost use Rattle.std.specs.Vec.{vec_capacity, vec_len};
ghost use Rattle.bridge_model.specs.RootRuns.{goes_over, line_of, over_with};
ghost use Rattle.behaviour.specs.Roots.{run_of};

use behaviour::RootRun;
use root_runs::{line_with, over, over_with};
use std::alloc::Global;
use uno_base::NoMemory;
use uno_types::Text;

/// The statement is over with this text.
pub(crate) fn says(alloc: Global, run: &mut RootRun, text: &str) -> Result<(), NoMemory>
    ensures said { OnOk result (run_of run.new ≡ over_with text.now (run_of run.old)) }
    ensures kept { OnErr result (run_of run.new ≡ run_of run.old) }
{
    let line = line_for(alloc, run, text)?;
    over_with(run, line);
    Ok(())
}

/// The line of this text, with room for it.
pub(crate) fn line_for(alloc: Global, run: &mut RootRun, text: &str) -> Result<Text, NoMemory>
    ensures line { IfOk result (λ line. line ≡ line_of (run_of run.old) text.now) }
    ensures room { OnOk result (vec_len run.new.lines < vec_capacity run.new.lines) }
    ensures place { OnOk result (run.new.place < 2 ^ 32 - 1) }
    ensures same { run_of run.new ≡ run_of run.old }
    ensures variables { run.new.variables ≡ run.old.variables }
    ensures loose { run.new.loose ≡ run.old.loose }
{
    if run.place == u32::MAX {
        return Err(NoMemory);
    }
    run.lines.reserve(1)?;
    line_with(alloc, run, text)
}

/// The statement is over without a line.
pub(crate) fn says_nothing(run: &mut RootRun) -> Result<(), NoMemory>
    ensures said { OnOk result (run_of run.new ≡ goes_over (run_of run.old)) }
    ensures kept { OnErr result (run_of run.new ≡ run_of run.old) }
{
    if run.place == u32::MAX {
        return Err(NoMemory);
    }
    over(run);
    Ok(())
}
