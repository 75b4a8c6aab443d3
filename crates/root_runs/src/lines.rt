//! The lines that statements give, and the end of a statement.
ghost use Rattle.std.specs.Prelude.{◌≡◌, ◌-◌, ◌<◌, ◌^◌, ℕ, IfOk, List};
ghost use Rattle.std.specs.Vec.{vec_capacity, vec_len};
ghost use Rattle.bridge_model.specs.RootRuns.{goes_over, line_of, over_with};
ghost use Rattle.behaviour.specs.Roots.{run_of};

use behaviour::RootRun;
use std::alloc::Global;
use uno_base::NoMemory;
use uno_types::Text;

/// The line that the next statement gives with a text: its root, its number from 1, and the text.
#[tactic(auto, unfolding(bridge_model::specs::RootRuns::line_of))]
pub fn line_with(alloc: Global, run: &RootRun, text: &str) -> Result<Text, NoMemory>
    ensures { IfOk result (λ line. line ≡ line_of (run_of run.now) text.now) }
{
    let root = run.root;
    let statement = u64::from(run.place) + 1;
    Text::from_string(format!(in alloc; "{root}.{statement} {text}")?)
}

/// The statement is over, without a line.
pub fn over(run: &mut RootRun)
    requires { run.old.place < 2 ^ 32 - 1 }
    ensures { run_of run.new ≡ goes_over (run_of run.old) }
{
    run.place += 1;
}

/// The statement is over with a line that was made for it. There is room for it.
pub fn over_with(run: &mut RootRun, line: Text)
    requires place { run.old.place < 2 ^ 32 - 1 }
    requires room { vec_len run.old.lines < vec_capacity run.old.lines }
    ensures { (text : List ℕ) → line ≡ line_of (run_of run.old) text → run_of run.new ≡ over_with text (run_of run.old) }
{
    run.lines.push_reserved(line);
    run.place += 1;
}
