//! Laws of what roots give, where they follow the plan: each function has an empty body, and its clause is the law.
ghost use Rattle.std.specs.List.{AllByRecursion};
ghost use Rattle.std.specs.Prelude.{◌≡◌, List, Some};
ghost use Rattle.std.specs.Str.{IsUtf8};
ghost use Rattle.bridge_model.specs.Entries.{Entry};
ghost use Rattle.bridge_model.specs.Histories.{Told, Leads};
ghost use Rattle.bridge_model.specs.RootRuns.{moved, root_moves, StandsFor};
ghost use Rattle.bridge_model.specs.Settings.{Setting};
ghost use Rattle.bridge_laws.specs.SpellableGiving.{IsGivenByRoot, AreGivenByRoots, IsGivenSpellable, AreGivenSpellable};
ghost use Rattle.bridge_laws.specs.Holding.{MessageGoes};
ghost use Rattle.bridge_laws.specs.Texts.{AreSmallItems};
ghost use Rattle.plan_model.specs.Frames.{Variable};
ghost use Rattle.plan_model.specs.Keeps.{KeepsTheRules};
ghost use Rattle.plan_model.specs.Roots.{Run};
ghost use Rattle.uno_model.specs.Sound.{IsSound};
ghost use Rattle.uno_model.specs.Spellable.{IsSpellable};

/// The values of the variables of a run that stands for a history can be carried by bytes.
pub fn what_a_run_has_is_spellable()
    ensures { (g : Setting) → IsSound g.registry → AreSmallItems g.registry → IsUtf8 g.tag → KeepsTheRules g.registry g.plan
        → (es : List Entry) (r : Run) → AreGivenSpellable es → StandsFor g es r → AllByRecursion (λ (x : Variable). IsSpellable x.value) r.variables }
{}

/// And so can what its next move gives, where the name of the instance is UTF-8: what roots that follow the plan give needs no other premise.
pub fn what_a_root_gives_is_spellable()
    ensures { (g : Setting) → IsSound g.registry → AreSmallItems g.registry → IsUtf8 g.tag → KeepsTheRules g.registry g.plan
        → (es : List Entry) (x : Told) (r next : Run) (e : Entry) → AreGivenSpellable es → Leads g es x → StandsFor g es r → IsUtf8 r.instance
        → root_moves g x.side r ≡ moved next (Some e) → IsGivenSpellable e }
{}

/// So it can where what the end got can be, whatever bytes brought it.
pub fn what_a_root_gives_is_spellable_where_what_was_got_is()
    ensures { (g : Setting) → IsSound g.registry → AreSmallItems g.registry → IsUtf8 g.tag → KeepsTheRules g.registry g.plan
        → (es : List Entry) (x : Told) (r next : Run) (e : Entry) → AreGivenByRoots es → Leads g es x → AllByRecursion MessageGoes x.got → StandsFor g es r → IsUtf8 r.instance
        → root_moves g x.side r ≡ moved next (Some e) → IsGivenByRoot e }
{}
