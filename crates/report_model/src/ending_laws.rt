//! Laws of what a pair comes to: each function has an empty body, and its clause is the law.
ghost use Rattle.std.specs.Prelude.{◌≡◌, ℕ, true, false, List, Option};
ghost use Rattle.world_model.specs.Pairs.{Pairing, has_full, IsPaired};
ghost use Rattle.report_model.specs.Pairs.{EndsWell, IsPairReport, IsSummary, ReachesLimit};
ghost use Rattle.world_laws.specs.Ready.{AreReady};
ghost use Rattle.world_model.specs.Worlds.{Settings};

/// Where two ends are ready and no end reaches a limit, a pair that comes to its end ends well: of its settings alone.
pub fn a_pair_within_its_limits_ends_well()
    ensures { (g : Settings) → AreReady g → (seed : Option ℕ) (cut : ℕ) (last : Pairing) → IsPaired g seed cut last → has_full last.world ≡ false → EndsWell g seed cut last }
{}

/// And where one reaches a limit, both keep what they should at each moment until then.
pub fn a_pair_at_a_limit_kept_its_promises()
    ensures { (g : Settings) → AreReady g → (seed : Option ℕ) (cut : ℕ) (last : Pairing) → IsPaired g seed cut last → has_full last.world ≡ true → ReachesLimit g seed cut }
{}

/// So of a pair that comes to its end one of the two holds, and not both.
pub fn a_pair_ends_well_or_at_a_limit()
    ensures { (g : Settings) (seed : Option ℕ) (cut : ℕ) (last : Pairing) → EndsWell g seed cut last → ¬ (ReachesLimit g seed cut) }
{}

/// What is written of a pair depends on nothing but the settings, the seed and the cut.
pub fn a_pair_has_one_report()
    ensures { (g : Settings) (seed : Option ℕ) (cut : ℕ) (one two : List ℕ) → IsPairReport g seed cut one → IsPairReport g seed cut two → one ≡ two }
{}

/// And the summary of a drill on nothing but the settings and the two numbers.
pub fn a_drill_has_one_summary()
    ensures { (g : Settings) (rounds seed : ℕ) (one two : List ℕ) → IsSummary rounds seed g one → IsSummary rounds seed g two → one ≡ two }
{}
