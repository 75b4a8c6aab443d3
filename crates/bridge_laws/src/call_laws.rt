//! The law of the calls that statements of roots begin.
ghost use Rattle.std.specs.Prelude.{◌≡◌, ◌≤◌, List, length};
ghost use Rattle.bridge_laws.specs.OfPlan.{IsRoot};
ghost use Rattle.bridge_model.specs.Entries.{Entry};
ghost use Rattle.bridge_model.specs.Histories.{Told, Leads};
ghost use Rattle.bridge_model.specs.RootRuns.{StandsFor};
ghost use Rattle.bridge_model.specs.Settings.{Setting};
ghost use Rattle.bridge_model.specs.Sides.{Outcome, answered, state_of};
ghost use Rattle.bridge_laws.specs.Giving.{RootsGive};
ghost use Rattle.plan_model.specs.Keeps.{KeepsTheRules};
ghost use Rattle.plan_model.specs.Roots.{Run};
ghost use Rattle.plan_typing.specs.Effects.{NamesDiffer};
ghost use Rattle.bridge_laws.specs.RootCalls.{IsOfItsCall};
ghost use Rattle.uno_model.specs.BuiltIn.{HasBuiltIn};
ghost use Rattle.uno_model.specs.Sound.{IsSound};

/// The outcome that a root has is that of the call which the statement of its run began: the entry of that call is the last of the root's own, and the answer was given with it or behind
/// it, or the bridge ended behind it.
pub fn an_outcome_is_that_of_the_call_of_its_statement()
    ensures { (g : Setting) → IsSound g.registry → HasBuiltIn g.registry → NamesDiffer g.registry → KeepsTheRules g.registry g.plan → length g.tag ≤ 32
        → (es : List Entry) (x : Told) (r : Run) (o : Outcome) → RootsGive g es → Leads g es x → StandsFor g es r → IsRoot g r.root → state_of r.root x.side.tables.roots ≡ answered o
        → IsOfItsCall g es r o }
{}
