//! The law that no world gets stuck.
ghost use Rattle.std.specs.Prelude.{◌≡◌, List, []};
ghost use Rattle.std.specs.List.{AllByRecursion};
ghost use Rattle.plan_model.specs.Roots.{Run};
ghost use Rattle.bridge_laws.specs.OfPlan.{IsRoot};
ghost use Rattle.bridge_model.specs.RootRuns.{finished, root_moves};
ghost use Rattle.world_model.specs.Moves.{Progress, moves};
ghost use Rattle.world_laws.specs.Ready.{AreReady, BothGiveWell};
ghost use Rattle.world_model.specs.Worlds.{Settings, of_a, of_b, World, Event, Runs};

/// Where no move of a pair is left, every run is finished, whether the ends stand or have ended: of two ends that are set up, whose
/// roots give what they may.
pub fn no_world_is_stuck()
    ensures a { (g : Settings) → AreReady g
        → (es : List Event) (w : World) (p : Progress) → BothGiveWell g es → Runs g es w
        → AllByRecursion (λ (r : Run). IsRoot (of_a g) r.root) p.a → moves g w p ≡ [] → AllByRecursion (λ (r : Run). root_moves (of_a g) w.a.now.side r ≡ finished) p.a }
    ensures b { (g : Settings) → AreReady g
        → (es : List Event) (w : World) (p : Progress) → BothGiveWell g es → Runs g es w
        → AllByRecursion (λ (r : Run). IsRoot (of_b g) r.root) p.b → moves g w p ≡ [] → AllByRecursion (λ (r : Run). root_moves (of_b g) w.b.now.side r ≡ finished) p.b }
{}
