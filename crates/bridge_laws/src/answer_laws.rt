//! The law of the answers that roots have.
ghost use Rattle.std.specs.Prelude.{◌≡◌, ◌≤◌, ℕ, List, length};
ghost use Rattle.bridge_laws.specs.OfPlan.{IsRoot};
ghost use Rattle.bridge_model.specs.Entries.{Entry};
ghost use Rattle.bridge_model.specs.Histories.{Told, Leads};
ghost use Rattle.bridge_model.specs.Settings.{Setting};
ghost use Rattle.bridge_model.specs.Sides.{answer, answered, state_of};
ghost use Rattle.bridge_laws.specs.Giving.{RootsGive};
ghost use Rattle.message_model.specs.Messages.{Answer};
ghost use Rattle.plan_model.specs.Keeps.{KeepsTheRules};
ghost use Rattle.plan_typing.specs.Effects.{NamesDiffer};
ghost use Rattle.bridge_laws.specs.RootAnswers.{still_asked, IsAnswerTo};
ghost use Rattle.uno_model.specs.BuiltIn.{HasBuiltIn};
ghost use Rattle.uno_model.specs.Sound.{IsSound};

/// Each answer that a root has is one to what it asked for: a result and values of its function's types, or a reference under the interface that it wanted; or it is an exception.
pub fn each_answer_of_a_root_fits_what_it_asked_for()
    ensures { (g : Setting) → IsSound g.registry → HasBuiltIn g.registry → NamesDiffer g.registry → KeepsTheRules g.registry g.plan → length g.tag ≤ 32
        → (es : List Entry) (x : Told) → RootsGive g es → Leads g es x → (root : ℕ) (a : Answer) → IsRoot g root → state_of root x.side.tables.roots ≡ answered (answer a)
        → IsAnswerTo g.registry (still_asked root es) a }
{}
