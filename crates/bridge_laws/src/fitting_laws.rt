//! Laws of what objects have and what is held, in a sound registry and for a plan that keeps the rules: each function has an empty body, and its clause is the law.
ghost use Rattle.std.specs.Prelude.{◌≡◌, ◌≤◌, true, List, length};
ghost use Rattle.std.specs.List.{AllByRecursion};
ghost use Rattle.bridge_model.specs.Entries.{Entry};
ghost use Rattle.bridge_model.specs.Histories.{Told, Leads};
ghost use Rattle.bridge_model.specs.Objects.{object_supports};
ghost use Rattle.bridge_model.specs.Settings.{Setting};
ghost use Rattle.bridge_laws.specs.Fitting.{HasFields, IsPairOf};
ghost use Rattle.bridge_laws.specs.Giving.{RootsGive};
ghost use Rattle.plan_model.specs.Keeps.{KeepsTheRules};
ghost use Rattle.plan_typing.specs.Effects.{NamesDiffer};
ghost use Rattle.table_model.specs.Holdings.{Hold};
ghost use Rattle.uno_model.specs.BuiltIn.{HasBuiltIn};
ghost use Rattle.uno_model.specs.Sound.{IsSound};

/// The fields of each living object fit those of its behaviour.
pub fn what_objects_have_fits()
    ensures { (g : Setting) → IsSound g.registry → HasBuiltIn g.registry → NamesDiffer g.registry → KeepsTheRules g.registry g.plan → length g.tag ≤ 32
        → (es : List Entry) (x : Told) → RootsGive g es → Leads g es x → AllByRecursion (HasFields g) x.side.tables.objects }
{}

/// Each pair that is held has an identity and an interface of the registry, and an object of this end lives and supports it.
pub fn what_is_held_is_supported()
    ensures { (g : Setting) → IsSound g.registry → HasBuiltIn g.registry → NamesDiffer g.registry → KeepsTheRules g.registry g.plan → length g.tag ≤ 32
        → (es : List Entry) (x : Told) → RootsGive g es → Leads g es x → AllByRecursion (λ (h : Hold). IsPairOf g x.side.tables.objects h.pair) x.side.tables.holdings }
{}

/// The object of each pair that was sent out and is not all released lives and supports it.
pub fn what_was_sent_out_is_supported()
    ensures { (g : Setting) → IsSound g.registry → HasBuiltIn g.registry → NamesDiffer g.registry → KeepsTheRules g.registry g.plan → length g.tag ≤ 32
        → (es : List Entry) (x : Told) → RootsGive g es → Leads g es x → AllByRecursion (λ row. object_supports g row.0.oid row.0.face x.side.tables.objects ≡ true) x.side.tables.stubs }
{}
