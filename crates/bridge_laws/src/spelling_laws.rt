//! Laws of what is said, for a plan that keeps the rules: each function has an empty body, and its clause is the law.
ghost use Rattle.std.specs.Prelude.{◌≡◌, true, List};
ghost use Rattle.std.specs.List.{AllByRecursion};
ghost use Rattle.std.specs.Str.{IsUtf8};
ghost use Rattle.bridge_model.specs.Entries.{Entry};
ghost use Rattle.bridge_model.specs.Histories.{Told, Leads};
ghost use Rattle.bridge_model.specs.Settings.{Setting};
ghost use Rattle.bridge_model.specs.Steps.{may, does};
ghost use Rattle.bridge_laws.specs.SpellableGiving.{IsGivenSpellable, AreGivenSpellable, AreGivenByRoots};
ghost use Rattle.bridge_laws.specs.Holding.{MessageGoes};
ghost use Rattle.bridge_laws.specs.Texts.{AreSmallItems};
ghost use Rattle.message_model.specs.Messages.{Message};
ghost use Rattle.message_model.specs.Sayable.{arrived, MessageSpellable};
ghost use Rattle.plan_model.specs.Keeps.{KeepsTheRules};
ghost use Rattle.uno_model.specs.Entities.{Entity};
ghost use Rattle.uno_model.specs.Sound.{IsSound};

/// Each message that was said can be carried by bytes.
pub fn what_was_said_is_spellable()
    ensures { (g : Setting) → IsSound g.registry → AreSmallItems g.registry → IsUtf8 g.tag → KeepsTheRules g.registry g.plan
        → (es : List Entry) (x : Told) → AreGivenSpellable es → Leads g es x → AllByRecursion MessageSpellable x.said }
{}

/// So can each that was said and is not spelled.
pub fn what_waits_is_spellable()
    ensures { (g : Setting) → IsSound g.registry → AreSmallItems g.registry → IsUtf8 g.tag → KeepsTheRules g.registry g.plan
        → (es : List Entry) (x : Told) → AreGivenSpellable es → Leads g es x → AllByRecursion MessageSpellable x.side.tables.unsaid }
{}

/// And so can what the next entry says.
pub fn what_an_entry_says_is_spellable()
    ensures { (g : Setting) → IsSound g.registry → AreSmallItems g.registry → IsUtf8 g.tag → KeepsTheRules g.registry g.plan
        → (es : List Entry) (x : Told) → AreGivenSpellable es → Leads g es x → (e : Entry) → IsGivenSpellable e → may g x.side e ≡ true
        → AllByRecursion MessageSpellable (does g e x.side).side.tables.unsaid }
{}

/// An end that got only what can be carried says only what can be, whatever bytes brought it.
pub fn what_is_said_is_spellable_where_what_was_got_is()
    ensures { (g : Setting) → IsSound g.registry → AreSmallItems g.registry → IsUtf8 g.tag → KeepsTheRules g.registry g.plan
        → (es : List Entry) (x : Told) → AreGivenByRoots es → Leads g es x → AllByRecursion MessageGoes x.got → AllByRecursion MessageGoes x.said }
{}

/// A message that can be carried can be so as it arrives.
pub fn what_arrives_is_spellable()
    ensures goes { (reg : List Entity) (m : Message) → MessageGoes m → MessageGoes (arrived reg m) }
    ensures carried { (m : Message) → MessageGoes m → MessageSpellable m }
{}
