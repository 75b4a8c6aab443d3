//! An end and a pipe: bytes go from the one into the other.
ghost use Rattle.std.specs.Prelude.{◌≡◌, ◌≢◌, [], ◌++◌, IfOk, OnErr, OnOk, drop, false, take};
ghost use Rattle.bridge_endpoint.specs.Answering.{fed_told};
ghost use Rattle.bridge_endpoint.specs.Entering.{draining, fed_by, out_of_memory};
ghost use Rattle.bridge_endpoint.specs.Journals.{setting_at, side_at};
ghost use Rattle.bridge_model.specs.Answers.{drained_next, feed_answer, next_cut, no_room};
ghost use Rattle.bridge_model.specs.Steps.{is_no_memory};
ghost use Rattle.bridge_world.specs.Joined.{taken_with};

use bridge_endpoint::{Endpoint, Fed};
use byte_pipe::Pipe;
use std::alloc::Global;
use uno_base::NoMemory;

/// Two pipes with nothing in them.
pub(crate) fn pipes(alloc: Global) -> Result<(Pipe, Pipe), NoMemory>
    ensures { IfOk result (λ r. (r.0.items ≡ []) × (r.1.items ≡ [])) }
{
    let to_a = Pipe::new(alloc)?;
    let to_b = Pipe::new(alloc)?;
    Ok((to_a, to_b))
}

/// Feeds an end a front of a pipe. What it takes is taken away.
pub(crate) fn feed(end: &mut Endpoint, pipe: &mut Pipe, piece: &[u8]) -> Fed
    ensures answer { fed_told result ≢ no_room → fed_told result ≡ feed_answer (setting_at end.old) (side_at end.old) piece.now }
    ensures entered { end.new ≡ fed_by result (next_cut (side_at end.old) piece.now) end.old }
    ensures taken { pipe.new.items ≡ drop (taken_with result) pipe.old.items }
{
    let fed = end.feed(piece);
    pipe.skip(taken(fed));
    fed
}

/// Feeds an end the first bytes of a pipe, at most so many. What it takes is taken away.
pub(crate) fn carry(end: &mut Endpoint, pipe: &mut Pipe, count: u32) -> Fed
    ensures answer { fed_told result ≢ no_room → fed_told result ≡ feed_answer (setting_at end.old) (side_at end.old) (take count pipe.old.items) }
    ensures entered { end.new ≡ fed_by result (next_cut (side_at end.old) (take count pipe.old.items)) end.old }
    ensures taken { pipe.new.items ≡ drop (taken_with result) pipe.old.items }
{
    let fed = feed_first(end, pipe, count);
    pipe.skip(taken(fed));
    fed
}

/// Feeds an end the first bytes of a pipe, which stay in it.
fn feed_first(end: &mut Endpoint, pipe: &mut Pipe, count: u32) -> Fed
    ensures answer { fed_told result ≢ no_room → fed_told result ≡ feed_answer (setting_at end.old) (side_at end.old) (take count pipe.old.items) }
    ensures entered { end.new ≡ fed_by result (next_cut (side_at end.old) (take count pipe.old.items)) end.old }
    ensures same { pipe.new.items ≡ pipe.old.items }
{
    let bytes = pipe.in_one_piece();
    let most = (count as usize).min(bytes.len());
    let (piece, _) = bytes.split_at(most);
    end.feed(piece)
}

/// Drains an end into a pipe, with room that is taken before.
#[tactic(auto, using(crate::proofs::PipingLemmas::at_most))]
pub(crate) fn drain(end: &mut Endpoint, pipe: &mut Pipe, max: u32) -> Result<Vec<u8>, NoMemory>
    ensures bytes { IfOk result (λ bytes. bytes.items ≡ drained_next (setting_at end.old) max (side_at end.old)) }
    ensures memory { OnOk result (is_no_memory (side_at end.old).cause ≡ false) }
    ensures entered { IfOk result (λ bytes. end.new ≡ draining bytes.items end.old) }
    ensures put { IfOk result (λ bytes. pipe.new.items ≡ pipe.old.items ++ bytes.items) }
    ensures lost { OnErr result (end.new ≡ out_of_memory end.old) }
    ensures kept { OnErr result (pipe.new.items ≡ pipe.old.items) }
{
    if let Err(NoMemory) = pipe.reserve(max as usize) {
        end.run_out();
        return Err(NoMemory);
    }
    let bytes = end.drain(max)?;
    pipe.put(bytes.as_slice());
    Ok(bytes)
}

/// How many bytes were taken of a piece with which no bridge broke.
fn taken(fed: Fed) -> usize
    ensures { result ≡ taken_with fed }
{
    match fed {
        Fed::Taken(count) => count,
        Fed::Broken(_, _) | Fed::Full | Fed::Gone | Fed::NoMemory => 0,
    }
}
