//! Laws of the roots of an end whose runs stand for its entries: each function has an empty body, and its clauses are the law.
ghost use Rattle.std.specs.Prelude.{◌≡◌, ◌≤◌, ℕ, [], ◌∷◌, ◌++◌, List, None, Some, false, length, slice_get, slice_set};
ghost use Rattle.bridge_model.specs.Entries.{Entry};
ghost use Rattle.bridge_model.specs.Histories.{Leads, Told};
ghost use Rattle.bridge_model.specs.Orders.{first_runs};
ghost use Rattle.bridge_model.specs.RootRuns.{is_of_root, moved, root_moves};
ghost use Rattle.bridge_model.specs.Settings.{Setting};
ghost use Rattle.plan_model.specs.Keeps.{KeepsTheRules};
ghost use Rattle.plan_model.specs.Roots.{Run};
ghost use Rattle.plan_typing.specs.Effects.{NamesDiffer};
ghost use Rattle.uno_model.specs.BuiltIn.{HasBuiltIn};
ghost use Rattle.uno_model.specs.Sound.{IsSound};
ghost use Rattle.world_laws.specs.Standing.{AllStandAt};

/// The runs with which the roots of a plan begin stand for no entries.
pub fn the_runs_of_a_plan_stand_at_the_beginning()
    ensures { (g : Setting) → AllStandAt g [] (first_runs 1 g.plan.threads) }
{}

/// Runs stand behind an entry that is no root's own, and where one of them makes its next move, with an entry or without: so those of one end stand whatever is done there.
pub fn runs_stand_behind_each_entry()
    ensures none { (g : Setting) (es : List Entry) (x : Entry) → ((n : ℕ) → is_of_root n x ≡ false) → (rs : List Run) → AllStandAt g es rs → AllStandAt g (es ++ x ∷ []) rs }
    ensures own { (g : Setting) → IsSound g.registry → HasBuiltIn g.registry → NamesDiffer g.registry → KeepsTheRules g.registry g.plan → length g.tag ≤ 32
        → (es : List Entry) (told : Told) → Leads g es told → (rs : List Run) (n : ℕ) (r next : Run) → AllStandAt g es rs → slice_get rs n ≡ Some r
        → (x : Entry) → root_moves g told.side r ≡ moved next (Some x) → AllStandAt g (es ++ x ∷ []) (slice_set rs n next) }
    ensures silent { (g : Setting) → IsSound g.registry → HasBuiltIn g.registry → NamesDiffer g.registry → KeepsTheRules g.registry g.plan → length g.tag ≤ 32
        → (es : List Entry) (told : Told) → Leads g es told → (rs : List Run) (n : ℕ) (r next : Run) → AllStandAt g es rs → slice_get rs n ≡ Some r
        → root_moves g told.side r ≡ moved next None → AllStandAt g es (slice_set rs n next) }
{}
