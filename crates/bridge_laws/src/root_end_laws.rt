//! The law of roots behind the end of a bridge.
ghost use Rattle.std.specs.List.{list_all};
ghost use Rattle.std.specs.Prelude.{◌≡◌, ◌≤◌, ◌<◌, ℕ, true, false, not, List, ◌++◌, Some, length, slice_get};
ghost use Rattle.bridge_laws.specs.OfPlan.{IsRoot};
ghost use Rattle.bridge_model.specs.Entries.{Entry};
ghost use Rattle.bridge_model.specs.Histories.{Told, Leads};
ghost use Rattle.bridge_model.specs.RootRuns.{StandsFor};
ghost use Rattle.bridge_model.specs.Settings.{Setting};
ghost use Rattle.bridge_model.specs.Sides.{stands};
ghost use Rattle.bridge_laws.specs.Giving.{RootsGive};
ghost use Rattle.plan_model.specs.Keeps.{KeepsTheRules};
ghost use Rattle.plan_model.specs.Roots.{Run, statements_of};
ghost use Rattle.plan_model.specs.Statements.{root_dispose};
ghost use Rattle.plan_typing.specs.Effects.{NamesDiffer};
ghost use Rattle.bridge_laws.specs.RootCalls.{begins_some};
ghost use Rattle.uno_model.specs.BuiltIn.{HasBuiltIn};
ghost use Rattle.uno_model.specs.Sound.{IsSound};

/// Where a bridge has ended, no root asks, calls, queries or makes an object any more; and it has ended where a run is past a `dispose`.
pub fn behind_the_end_a_root_begins_nothing()
    ensures nothing { (g : Setting) (es later : List Entry) (x y : Told) → Leads g es x → stands x.side ≡ false → Leads g (es ++ later) y
        → list_all (λ e. not (begins_some e)) later ≡ true }
    ensures past { (g : Setting) → IsSound g.registry → HasBuiltIn g.registry → NamesDiffer g.registry → KeepsTheRules g.registry g.plan → length g.tag ≤ 32
        → (es : List Entry) (x : Told) (r : Run) (place : ℕ) → RootsGive g es → Leads g es x → StandsFor g es r → IsRoot g r.root → place < r.place
        → slice_get (statements_of g.plan r.root) place ≡ Some root_dispose → stands x.side ≡ false }
{}
