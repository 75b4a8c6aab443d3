//! The law of what the roots of plans give.
ghost use Rattle.std.specs.Prelude.{◌≡◌, ◌≤◌, true, List, Some, length};
ghost use Rattle.bridge_laws.specs.OfPlan.{IsRoot};
ghost use Rattle.bridge_model.specs.Entries.{Entry};
ghost use Rattle.bridge_model.specs.Histories.{Told, Leads};
ghost use Rattle.bridge_model.specs.RootRuns.{moved, root_moves, StandsFor};
ghost use Rattle.bridge_model.specs.Settings.{Setting};
ghost use Rattle.bridge_laws.specs.Giving.{MayGive, RootsGive};
ghost use Rattle.plan_model.specs.Forms.{is_export_name};
ghost use Rattle.plan_model.specs.Keeps.{KeepsTheRules};
ghost use Rattle.plan_model.specs.Roots.{Run};
ghost use Rattle.plan_typing.specs.Effects.{NamesDiffer};
ghost use Rattle.uno_model.specs.BuiltIn.{HasBuiltIn};
ghost use Rattle.uno_model.specs.Sound.{IsSound};

/// What a root that follows its plan enters next may be given, where its roots gave so far what they may, and the name of the instance has the form of an export's name: so the premise
/// `RootsGive` is one that such roots keep.
pub fn what_a_root_that_follows_its_plan_gives_may_be_given()
    ensures { (g : Setting) → IsSound g.registry → HasBuiltIn g.registry → NamesDiffer g.registry → KeepsTheRules g.registry g.plan → length g.tag ≤ 32
        → (es : List Entry) (x : Told) (r next : Run) (e : Entry) → RootsGive g es → Leads g es x → StandsFor g es r → IsRoot g r.root → is_export_name r.instance ≡ true
        → root_moves g x.side r ≡ moved next (Some e) → MayGive g e }
{}
