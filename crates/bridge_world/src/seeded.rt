//! All moves, one after the other, in an order that a number draws.
ghost use Rattle.std.specs.Prelude.{◌≡◌, ◌≤◌, ◌<◌, [], true, false, Err, OnOk};
ghost use Rattle.world_model.specs.Pairs.{behind, generator_of, has_full, place_of};
ghost use Rattle.bridge_world.specs.Joined.{world_of};
ghost use Rattle.bridge_world.specs.Playing.{PlaysSo, StandForHistory, moves_of, progress_of};

use crate::{Pair, RunError, Runs, World};
use rand_core::SeedableRng;
use rand_core::utils::NextWord;
use rand_pcg::Lcg64Xsh32;

impl World {
    /// Does moves until none is left: the first of all, or, with a seed, the one at the place that the generator draws. At most so many bytes come in at once.
    pub fn run_seeded(
        &mut self,
        seed: Option<u64>,
        cut: u32,
        runs: &mut Runs,
    ) -> Result<(), RunError>
        requires stands { StandForHistory self.old (progress_of runs.old) }
        requires cut { 1 ≤ cut }
        ensures plays { OnOk result (PlaysSo seed cut self.old self.new (progress_of runs.old) (progress_of runs.new)) }
        ensures within { OnOk result (has_full (world_of self.new) ≡ false) }
        ensures none_left { OnOk result (moves_of self.new (progress_of runs.new) ≡ []) }
        ensures full { result ≡ Err RunError.Full → PlaysSo seed cut self.old self.new (progress_of runs.old) (progress_of runs.new) × (has_full (world_of self.new) ≡ true) }
        ensures stands { StandForHistory self.new (progress_of runs.new) }
    {
        let mut generator = generator_of(seed);
        'turns: for _ in 0..u64::MAX {
            if self.has_full() {
                return Err(RunError::Full);
            }
            let count = self.moves(runs);
            if count == 0 {
                return Ok(());
            }
            // There are never so many.
            if count == u32::MAX {
                return Err(RunError::NoMemory);
            }
            let nth = place_in(&mut generator, count);
            self.move_at(nth, cut, runs)?;
        }
        Err(RunError::NoMemory)
    }
}

fn generator_of(seed: Option<u64>) -> Option<Lcg64Xsh32>
    ensures { result ≡ generator_of seed }
{
    match seed {
        Some(seed) => Some(Lcg64Xsh32::seed_from_u64(seed)),
        None => None,
    }
}

/// The place of the next move among so many.
fn place_in(generator: &mut Option<Lcg64Xsh32>, count: u32) -> u32
    requires { 0 < count }
    ensures place { result ≡ place_of generator.old count }
    ensures drawn { generator.new ≡ behind generator.old }
{
    match generator {
        Some(generator) => generator.next_word() % count,
        None => 0,
    }
}
