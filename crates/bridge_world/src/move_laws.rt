//! The law of the moves of two joined ends: the function has an empty body, and its clause is the law.
ghost use Rattle.std.specs.List.{AllByRecursion};
ghost use Rattle.std.specs.Prelude.{◌≤◌, ℕ};
ghost use Rattle.world_laws.specs.Standing.{AllStandAt};
ghost use Rattle.world_laws.specs.Doing.{CanBeDone};
ghost use Rattle.world_model.specs.Moves.{moves};
ghost use Rattle.world_model.specs.Pairs.{Pairing};
ghost use Rattle.world_laws.specs.Ready.{AreReady, BothGiveWell};
ghost use Rattle.world_model.specs.Worlds.{Runs, Settings, entries_of, of_a, of_b};
ghost use Rattle.world_model.specs.declared.side.Side.TheVariants.{A, B};

/// Each move that is listed can be done, with a cut of at least 1, behind any history of two joined ends for which the runs stand, whoever made its entries.
pub fn each_listed_move_can_be_done()
    ensures { (g : Settings) (cut : ℕ) → 1 ≤ cut → AreReady g → (p : Pairing) → Runs g p.events p.world → BothGiveWell g p.events
        → AllStandAt (of_a g) (entries_of A p.events) p.runs.a → AllStandAt (of_b g) (entries_of B p.events) p.runs.b → AllByRecursion (CanBeDone g cut p) (moves g p.world p.runs) }
{}
