//! One endpoint over an input and an output.
ghost use Rattle.std.specs.Prelude.{◌≡◌, ◌≢◌, ℕ, [], true, false, IfOk, Bool, List, map};
ghost use Rattle.std.specs.Io.KnownBytes.{IsAtEnd};
ghost use Rattle.uno_base.specs.Causes.{Rose};
ghost use Rattle.behaviour.specs.Roots.{run_of};
ghost use Rattle.bridge_endpoint.specs.Journals.{setting_at, told_at};
ghost use Rattle.bridge_model.specs.Orders.{first_runs};
ghost use Rattle.bridge_model.specs.Sides.{stands};
ghost use Rattle.bridge_model.specs.declared.cause.Cause.{Cause as Why};
ghost use Rattle.bridge_model.specs.declared.cause.Cause.TheVariants as cause;
ghost use Rattle.answering.specs.Answering.{AnsweredPart, AnsweredWhole, GoesOnTelling, InputEnded, WasRead};
ghost use Rattle.answering.specs.Ends.{ClosesSo, IsSettled};
ghost use Rattle.answering.specs.Running.{AreRoots};
ghost use Rattle.answering.specs.Serving.{Reads, Serves, Writes};

use crate::Stopped;
use crate::doing::{know, lacks_memory};
use crate::feeding::answer_piece;
use crate::stopped::Halted;
use crate::working::{settle, work};
use behaviour::RootRun;
use bridge_endpoint::Endpoint;
use bridge_model::InputEnd;
use uno_io::{Failed, Sink, Source};

/// The most bytes that are read at once.
const PIECE: usize = 4_096;

/// Does again and again the first thing that can be done: the statement of the oldest method that is ready; the step of the lowest root that moves; reaping; draining, at most
/// 65,536 bytes, and writing all; feeding what is left of the last piece; reading a piece of at most 4,096 bytes. It stops where the bridge has ended and nothing can be done.
///
/// Where the input fails, what came before is answered as if it had ended there.
pub fn answer<I: Source, O: Sink>(
    end: &mut Endpoint,
    runs: &mut Vec<RootRun>,
    input: &mut I,
    output: &mut O,
) -> Stopped
    requires beginning { end.old.entries ≡ [] }
    requires roots { map run_of runs.old.items ≡ first_runs 1 (setting_at end.old).plan.threads }
    ensures bridge { (why : Why) → result ≡ Stopped.Bridge why → (s : List ℕ) → WasRead (I.left input.old) (I.left input.new) s → AnsweredWhole (setting_at end.old) s false (O.taken output.old) (O.taken output.new) why }
    ensures input { (cut : Bool) → result ≡ Stopped.Input cut → (s : List ℕ) → WasRead (I.left input.old) (I.left input.new) s → AnsweredWhole (setting_at end.old) s true (O.taken output.old) (O.taken output.new) cause.Ended }
    ensures cut { (cut : Bool) → result ≡ Stopped.Input cut → (s : List ℕ) → WasRead (I.left input.old) (I.left input.new) s → InputEnded (setting_at end.old) s cut }
    ensures at_end { (cut : Bool) → result ≡ Stopped.Input cut → IsAtEnd (I.left input.new) }
    ensures fault { result ≡ Stopped.ReadFault → (s : List ℕ) → WasRead (I.left input.old) (I.left input.new) s → AnsweredWhole (setting_at end.old) s true (O.taken output.old) (O.taken output.new) cause.Ended }
    ensures read_fault { result ≡ Stopped.ReadFault → Rose (I.faults input.old) (I.faults input.new) }
    ensures no_read_fault { (why : Why) → result ≡ Stopped.Bridge why → I.faults input.new ≡ I.faults input.old }
    ensures input_without_fault { (cut : Bool) → result ≡ Stopped.Input cut → I.faults input.new ≡ I.faults input.old }
    ensures write_fault { result ≡ Stopped.WriteFault → Rose (O.faults output.old) (O.faults output.new) }
    ensures no_write_fault { result ≢ Stopped.WriteFault → O.faults output.new ≡ O.faults output.old }
    ensures part { (s : List ℕ) → WasRead (I.left input.old) (I.left input.new) s → AnsweredPart (setting_at end.old) s (O.taken output.old) (O.taken output.new) }
    ensures goes_on { GoesOnTelling (I.left input.old) (I.left input.new) }
    ensures stays { O.closed output.new ≡ O.closed output.old }
{
    match serve(end, runs, input, output) {
        Ok(stopped) => stopped,
        Err(Halted::WriteFault) => Stopped::WriteFault,
        Err(Halted::NoMemory) => Stopped::NoMemory,
    }
}

/// The same, where no more can be done.
fn serve<I: Source, O: Sink>(
    end: &mut Endpoint,
    runs: &mut Vec<RootRun>,
    input: &mut I,
    output: &mut O,
) -> Result<Stopped, Halted>
    requires beginning { end.old.entries ≡ [] }
    requires roots { map run_of runs.old.items ≡ first_runs 1 (setting_at end.old).plan.threads }
    ensures serves { Serves (setting_at end.old) (I.left input.old) (I.left input.new) (O.taken output.old) (O.taken output.new) result }
    ensures reads { IfOk result (λ stopped. Reads (I.faults input.old) (I.faults input.new) (I.left input.new) stopped) }
    ensures writes { Writes (O.faults output.old) (O.faults output.new) result }
    ensures stays { O.closed output.new ≡ O.closed output.old }
{
    if let Some(cause) = work(end, runs, output)? {
        return Ok(Stopped::Bridge(cause));
    }
    let mut buffer = [0; PIECE];
    'pieces: for _ in 0..u64::MAX {
        match input.read(&mut buffer) {
            Ok(0) => {
                let cut = end.awaits_input();
                close(end, runs, output)?;
                return Ok(Stopped::Input { cut });
            }
            Ok(count) => {
                if let Some(cause) = answer_piece(end, runs, output, &buffer[..count])? {
                    return Ok(Stopped::Bridge(cause));
                }
            }
            Err(Failed) => {
                close(end, runs, output)?;
                return Ok(Stopped::ReadFault);
            }
        }
    }
    Err(lacks_memory(end))
}

/// The input has ended: does all that can be done then.
fn close<O: Sink>(end: &mut Endpoint, runs: &mut Vec<RootRun>, output: &mut O) -> Result<(), Halted>
    requires roots { AreRoots end.old (map run_of runs.old.items) }
    requires settled { IsSettled end.old (map run_of runs.old.items) }
    requires up { stands (told_at end.old).side ≡ true }
    ensures closes { ClosesSo end.old end.new (map run_of runs.old.items) (map run_of runs.new.items) (O.taken output.old) (O.taken output.new) result }
    ensures writes { Writes (O.faults output.old) (O.faults output.new) result }
    ensures stays { O.closed output.new ≡ O.closed output.old }
{
    know(end);
    end.end_input(InputEnd::Ended);
    know(end);
    settle(end, runs, output)
}
