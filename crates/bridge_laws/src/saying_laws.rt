//! Laws of what is said, in a sound registry and for a plan that keeps the rules: each function has an empty body, and its clause is the law.
ghost use Rattle.std.specs.Prelude.{◌≡◌, ◌≤◌, true, List, length};
ghost use Rattle.bridge_model.specs.Entries.{Entry};
ghost use Rattle.bridge_model.specs.Histories.{Told, Leads};
ghost use Rattle.bridge_model.specs.Saying.{AreSayable};
ghost use Rattle.bridge_model.specs.Settings.{Setting};
ghost use Rattle.bridge_model.specs.Steps.{may, does};
ghost use Rattle.bridge_laws.specs.Giving.{MayGive, RootsGive};
ghost use Rattle.bridge_laws.specs.Telling.{AreRightlySaid};
ghost use Rattle.plan_model.specs.Keeps.{KeepsTheRules};
ghost use Rattle.plan_typing.specs.Effects.{NamesDiffer};
ghost use Rattle.uno_model.specs.BuiltIn.{HasBuiltIn};
ghost use Rattle.uno_model.specs.Sound.{IsSound};

/// Each message that was said may be said, and weighs at most 16,777,216.
pub fn what_was_said_may_be_said()
    ensures { (g : Setting) → IsSound g.registry → HasBuiltIn g.registry → NamesDiffer g.registry → KeepsTheRules g.registry g.plan → length g.tag ≤ 32
        → (es : List Entry) (x : Told) → RootsGive g es → Leads g es x → AreSayable g.registry x.said }
{}

/// So may each that was said and is not spelled.
pub fn what_waits_may_be_said()
    ensures { (g : Setting) → IsSound g.registry → HasBuiltIn g.registry → NamesDiffer g.registry → KeepsTheRules g.registry g.plan → length g.tag ≤ 32
        → (es : List Entry) (x : Told) → RootsGive g es → Leads g es x → AreSayable g.registry x.side.tables.unsaid }
{}

/// And so may what the next entry says.
pub fn what_an_entry_says_may_be_said()
    ensures { (g : Setting) → IsSound g.registry → HasBuiltIn g.registry → NamesDiffer g.registry → KeepsTheRules g.registry g.plan → length g.tag ≤ 32
        → (es : List Entry) (x : Told) → RootsGive g es → Leads g es x → (e : Entry) → MayGive g e → may g x.side e ≡ true
        → AreSayable g.registry (does g e x.side).side.tables.unsaid }
{}

/// Each message that was said tells what it refers to by the identities, and releases nothing of this end.
pub fn what_was_said_is_rightly_said()
    ensures { (g : Setting) → IsSound g.registry → HasBuiltIn g.registry → NamesDiffer g.registry → KeepsTheRules g.registry g.plan → length g.tag ≤ 32
        → (es : List Entry) (x : Told) → RootsGive g es → Leads g es x → AreRightlySaid g x.said }
{}
