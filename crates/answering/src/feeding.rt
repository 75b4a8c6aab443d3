//! Pieces that were read.
ghost use Rattle.std.specs.Prelude.{◌≡◌, ◌<◌, List, true, IfOk, IfErr, OnOk, length, map};
ghost use Rattle.behaviour.specs.Roots.{run_of};
ghost use Rattle.bridge_endpoint.specs.Journals.{setting_at, told_at};
ghost use Rattle.bridge_model.specs.Sides.{stands};
ghost use Rattle.plan_model.specs.Roots.{Run};
ghost use Rattle.answering.specs.Ends.{AnswersSo, IsFed, IsSettled};
ghost use Rattle.answering.specs.Running.{AreRoots};
ghost use Rattle.answering.specs.Serving.{Writes};
ghost use Rattle.answering.specs.declared.stopped.Halted.TheVariants as halted;

use crate::doing::{know, lacks_memory};
use crate::stopped::Halted;
use crate::working::work;
use behaviour::RootRun;
use bridge_endpoint::{Endpoint, Fed};
use bridge_model::Cause;
use uno_io::Sink;

/// Answers a piece, until nothing can be done but reading, and says why the bridge has ended then, where it has.
pub(crate) fn answer_piece<O: Sink>(
    end: &mut Endpoint,
    runs: &mut Vec<RootRun>,
    output: &mut O,
    piece: &[u8],
) -> Result<Option<Cause>, Halted>
    requires roots { AreRoots end.old (map run_of runs.old.items) }
    requires settled { IsSettled end.old (map run_of runs.old.items) }
    requires up { stands (told_at end.old).side ≡ true }
    ensures answers { AnswersSo end.old end.new (map run_of runs.old.items) (map run_of runs.new.items) piece.now (O.taken output.old) (O.taken output.new) result }
    ensures writes { Writes (O.faults output.old) (O.faults output.new) result }
    ensures stays { O.closed output.new ≡ O.closed output.old }
{
    let mut rest = piece;
    'fronts: while !rest.is_empty() {
        rest = feed(end, rest)?;
        if let Some(cause) = work(end, runs, output)? {
            return Ok(Some(cause));
        }
    }
    Ok(None)
}

/// Feeds a front of a piece, and gives what is left of it: nothing where the bridge ends with it.
fn feed<'a>(end: &mut Endpoint, piece: &'a [u8]) -> Result<&'a [u8], Halted>
    requires up { stands (told_at end.old).side ≡ true }
    requires some { 0 < length piece.now }
    ensures fed { IfOk result (λ rest. IsFed end.old end.new piece.entry.now rest.now) }
    ensures roots { OnOk result ((runs : List Run) → AreRoots end.old runs → AreRoots end.new runs) }
    ensures memory { IfErr result (λ why. why ≡ halted.NoMemory) }
{
    know(end);
    let fed = end.feed(piece);
    know(end);
    match fed {
        Fed::Taken(count) => Ok(piece.split_at(count).1),
        Fed::Broken(_, _) => Ok(&[]),
        Fed::Full => Ok(&[]),
        Fed::Gone => Ok(&[]),
        Fed::NoMemory => Err(Halted::NoMemory),
    }
}
