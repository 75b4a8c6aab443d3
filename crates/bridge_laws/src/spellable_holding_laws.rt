//! Laws of what objects and roots have and what is held, for a plan that keeps the rules: each function has an empty body, and its clause is the law.
ghost use Rattle.std.specs.List.{AllByRecursion};
ghost use Rattle.std.specs.Prelude.{List};
ghost use Rattle.std.specs.Str.{IsUtf8};
ghost use Rattle.bridge_model.specs.Entries.{Entry};
ghost use Rattle.bridge_model.specs.Histories.{Told, Leads};
ghost use Rattle.bridge_model.specs.Settings.{Setting};
ghost use Rattle.bridge_model.specs.Sides.{Object};
ghost use Rattle.bridge_laws.specs.SpellableGiving.{AreGivenSpellable};
ghost use Rattle.bridge_laws.specs.Holding.{StateSpellable};
ghost use Rattle.bridge_laws.specs.Texts.{AreSmallItems};
ghost use Rattle.plan_model.specs.Keeps.{KeepsTheRules};
ghost use Rattle.table_model.specs.Holdings.{Hold};
ghost use Rattle.uno_model.specs.Sound.{IsSound};
ghost use Rattle.uno_model.specs.Spellable.{IsSpellable};

/// The fields of each living object can be carried by bytes.
pub fn what_objects_have_is_spellable()
    ensures { (g : Setting) → IsSound g.registry → AreSmallItems g.registry → IsUtf8 g.tag → KeepsTheRules g.registry g.plan
        → (es : List Entry) (x : Told) → AreGivenSpellable es → Leads g es x → AllByRecursion (λ (o : Object). AllByRecursion IsSpellable o.fields) x.side.tables.objects }
{}

/// The identity of each pair that is held is UTF-8.
pub fn what_is_held_is_utf8()
    ensures { (g : Setting) → IsSound g.registry → AreSmallItems g.registry → IsUtf8 g.tag → KeepsTheRules g.registry g.plan
        → (es : List Entry) (x : Told) → AreGivenSpellable es → Leads g es x → AllByRecursion (λ (h : Hold). IsUtf8 h.pair.oid) x.side.tables.holdings }
{}

/// And the outcome of each root that is answered can be carried by bytes, and names an exception by UTF-8.
pub fn what_roots_get_is_spellable()
    ensures { (g : Setting) → IsSound g.registry → AreSmallItems g.registry → IsUtf8 g.tag → KeepsTheRules g.registry g.plan
        → (es : List Entry) (x : Told) → AreGivenSpellable es → Leads g es x → AllByRecursion StateSpellable x.side.tables.roots }
{}
