//! Laws of what roots have.
ghost use Rattle.std.specs.Prelude.{◌≡◌, true, List, [], Some};
ghost use Rattle.uno_model.specs.Entities.{Entity};
ghost use Rattle.plan_model.specs.Keeps.{KeepsTheRules};
ghost use Rattle.plan_model.specs.Plans.{Plan};
ghost use Rattle.plan_model.specs.Roots.{Run};
ghost use Rattle.bridge_model.specs.Entries.{Entry};
ghost use Rattle.bridge_model.specs.Histories.{Told, Leads};
ghost use Rattle.bridge_model.specs.RootRuns.{moved, root_moves, StandsFor};
ghost use Rattle.bridge_model.specs.Settings.{Setting};
ghost use Rattle.bridge_model.specs.Steps.{may};
ghost use Rattle.bridge_laws.specs.Living.{plan_constants};
ghost use Rattle.bridge_laws.specs.OfPlan.{IsRoot};
ghost use Rattle.bridge_laws.specs.RootConstants.{root_constants};
ghost use Rattle.bridge_laws.specs.RootReferences.{HoldsItsOwn, TellsItsOwn};

/// Each reference in the variables, in the loose references and in the outcome of a root is held by it, at least as often, whoever the peer is.
pub fn what_a_root_has_is_held()
    ensures { (g : Setting) (es : List Entry) (r : Run) (x : Told) → Leads g es x → StandsFor g es r → HoldsItsOwn x.side r }
{}

/// Each of these is told as own or foreign by its identity, where the constants of the plan refer to nothing.
pub fn what_a_root_has_is_told_by_its_identity()
    ensures { (g : Setting) (es : List Entry) (r : Run) (x : Told) → plan_constants g.plan ≡ [] → Leads g es x → StandsFor g es r → TellsItsOwn g x.side r }
{}

/// The entry that a move of a root makes may stand: it holds what it calls, gives and lets go, and tells it by its identity.
pub fn each_entry_of_a_roots_move_may_stand()
    ensures { (g : Setting) (es : List Entry) (r next : Run) (e : Entry) (x : Told) → plan_constants g.plan ≡ [] → root_constants g.plan ≡ [] → IsRoot g r.root
        → Leads g es x → StandsFor g es r → root_moves g x.side r ≡ moved next (Some e) → may g x.side e ≡ true }
{}

/// The constants in the statements of roots refer to nothing, in a plan that keeps the rules.
pub fn constants_of_roots_refer_to_nothing()
    ensures { (reg : List Entity) (plan : Plan) → KeepsTheRules reg plan → root_constants plan ≡ [] }
{}
