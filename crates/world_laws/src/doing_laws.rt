//! Which moves of a pair can be done.
ghost use Rattle.std.specs.List.{AllByRecursion};
ghost use Rattle.std.specs.Prelude.{ℕ, ◌≤◌, Option};
ghost use Rattle.world_laws.specs.Doing.{IsReached, CanBeDone};
ghost use Rattle.world_laws.specs.Runs.{BothOfThreads};
ghost use Rattle.world_model.specs.Moves.{moves};
ghost use Rattle.world_model.specs.Pairs.{Pairing};
ghost use Rattle.world_laws.specs.Kept.{BothKeep};
ghost use Rattle.world_laws.specs.Ready.{AreReady, BothGiveWell};
ghost use Rattle.world_model.specs.Worlds.{Settings};

/// Wherever the moves of a pair lead, whichever are chosen, each move that there is can be done, with a cut of at least 1.
pub fn each_move_of_a_pair_can_be_done()
    ensures { (g : Settings) (seed : Option ℕ) (cut : ℕ) → 1 ≤ cut → AreReady g → (p : Pairing) → IsReached g seed cut p
        → AllByRecursion (CanBeDone g cut p) (moves g p.world p.runs) }
{}

/// Wherever they lead, the runs are those with which the pair began: one of each thread of the plans, of the root of its number.
pub fn the_runs_of_a_pair_are_those_of_its_plans()
    ensures { (g : Settings) → AreReady g → (seed : Option ℕ) (cut : ℕ) (p : Pairing) → IsReached g seed cut p → BothOfThreads g p }
{}

/// And what the roots of both ends gave to get there is what they may give, and can be carried by bytes: of a pair that is no premise.
pub fn the_roots_of_a_pair_give_what_they_may()
    ensures { (g : Settings) (seed : Option ℕ) (cut : ℕ) → AreReady g → (p : Pairing) → IsReached g seed cut p → BothGiveWell g p.events }
{}

/// So all that two joined ends keep holds wherever the moves of a pair lead: of its settings alone.
pub fn what_a_pair_keeps()
    ensures { (g : Settings) → AreReady g → (seed : Option ℕ) (cut : ℕ) (p : Pairing) → IsReached g seed cut p → BothKeep g p.events p.world }
{}
