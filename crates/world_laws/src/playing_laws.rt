//! Laws of the history of a pair, where it comes to its end (`IsPaired`): each function has an empty body, and its clauses are the law.
ghost use Rattle.std.specs.Prelude.{◌≡◌, ℕ, false, Option};
ghost use Rattle.std.specs.List.{AllByRecursion};
ghost use Rattle.plan_model.specs.Roots.{Run};
ghost use Rattle.bridge_model.specs.RootRuns.{finished, root_moves, StandsFor};
ghost use Rattle.bridge_laws.specs.Lines.{Lines};
ghost use Rattle.world_laws.specs.Doing.{IsReached};
ghost use Rattle.world_laws.specs.Outcomes.{TellsItsOutcomes};
ghost use Rattle.world_model.specs.Pairs.{Pairing, has_full, IsPaired};
ghost use Rattle.world_laws.specs.Ready.{AreReady};
ghost use Rattle.world_model.specs.Worlds.{Settings, of_a, of_b, Runs, entries_of};
ghost use Rattle.world_model.specs.declared.side.Side.TheVariants.{A, B};

/// What a pair does is a history of its world.
pub fn a_pair_is_a_history_of_its_world()
    ensures { (g : Settings) (seed : Option ℕ) (cut : ℕ) (last : Pairing) → IsPaired g seed cut last → Runs g last.events last.world }
{}

/// It depends on nothing but the settings, the seed and the cut.
pub fn a_pair_depends_on_its_settings_seed_and_cut()
    ensures { (g : Settings) (seed : Option ℕ) (cut : ℕ) (one two : Pairing) → IsPaired g seed cut one → IsPaired g seed cut two → one ≡ two }
{}

/// Each of its runs stands for the entries of its end, so that their own entries are those that their statements made.
pub fn the_runs_of_a_pair_stand_for_its_history()
    ensures a { (g : Settings) (seed : Option ℕ) (cut : ℕ) (last : Pairing) → IsPaired g seed cut last → AllByRecursion (StandsFor (of_a g) (entries_of A last.events)) last.runs.a }
    ensures b { (g : Settings) (seed : Option ℕ) (cut : ℕ) (last : Pairing) → IsPaired g seed cut last → AllByRecursion (StandsFor (of_b g) (entries_of B last.events)) last.runs.b }
{}

/// And has the lines of its statements, each as the history has it.
pub fn the_runs_of_a_pair_have_the_lines_of_its_history()
    ensures a { (g : Settings) (seed : Option ℕ) (cut : ℕ) (last : Pairing) → IsPaired g seed cut last
        → AllByRecursion (λ (r : Run). Lines (of_a g) (entries_of A last.events) r.root r.place r.lines) last.runs.a }
    ensures b { (g : Settings) (seed : Option ℕ) (cut : ℕ) (last : Pairing) → IsPaired g seed cut last
        → AllByRecursion (λ (r : Run). Lines (of_b g) (entries_of B last.events) r.root r.place r.lines) last.runs.b }
{}

/// Wherever its moves lead, each outcome that a line of a root tells is that of the very call that its statement made: the call's entry is the last of the root's own before it; the other
/// end ended that call so, or this end did; or the bridge ended behind it.
pub fn each_outcome_in_a_pair_is_that_of_the_call_of_its_statement()
    ensures a { (g : Settings) → AreReady g → (seed : Option ℕ) (cut : ℕ) (p : Pairing) → IsReached g seed cut p → AllByRecursion (TellsItsOutcomes g A p.events) p.runs.a }
    ensures b { (g : Settings) → AreReady g → (seed : Option ℕ) (cut : ℕ) (p : Pairing) → IsReached g seed cut p → AllByRecursion (TellsItsOutcomes g B p.events) p.runs.b }
{}

/// Where no end reached its limit, every run is finished at the end: of two ends that are set up.
pub fn a_pair_ends_with_its_runs_finished()
    ensures a { (g : Settings) → AreReady g
        → (seed : Option ℕ) (cut : ℕ) (last : Pairing) → IsPaired g seed cut last → has_full last.world ≡ false
        → AllByRecursion (λ (r : Run). root_moves (of_a g) last.world.a.now.side r ≡ finished) last.runs.a }
    ensures b { (g : Settings) → AreReady g
        → (seed : Option ℕ) (cut : ℕ) (last : Pairing) → IsPaired g seed cut last → has_full last.world ≡ false
        → AllByRecursion (λ (r : Run). root_moves (of_b g) last.world.b.now.side r ≡ finished) last.runs.b }
{}
