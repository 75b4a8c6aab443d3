//! Laws of the rules: each function has an empty body, and its clause is the law.
ghost use Rattle.std.specs.List.{list_all};
ghost use Rattle.std.specs.Prelude.{◌≡◌, ◌≢◌, ◌↔◌, ℕ, true, List, [], map, Contains, IsTrue, Result, Ok};
ghost use Rattle.uno_model.specs.BuiltIn.{HasBuiltIn};
ghost use Rattle.uno_model.specs.Circles.{Leads};
ghost use Rattle.uno_model.specs.Entities.{Entity};
ghost use Rattle.uno_model.specs.Registry.{IsRising};
ghost use Rattle.registry_text_model.specs.Rules.{Rule, circles, types, AllKeep, KeepsTheRules};
ghost use Rattle.idl_model.specs.Places.{Place};
ghost use Rattle.idl_model.specs.Trees.{Tree};
ghost use Rattle.idl_meaning_model.specs.ConstantsMeant.{leads_to_valued};
ghost use Rattle.idl_meaning_model.specs.Declarations.{declarations, Valued};
ghost use Rattle.idl_meaning_model.specs.FromFiles.{are_apart, AreOfFiles};
ghost use Rattle.idl_meaning_model.specs.Meaning.{meant};
ghost use Rattle.idl_meaning_model.specs.NameFaults.{IsResolved};
ghost use Rattle.idl_rules_model.specs.CheckVerdicts.{broken, IsChecked};
ghost use Rattle.idl_rules_model.specs.Circles.{value_comes_back};
ghost use Rattle.idl_rules_model.specs.Unshown.{members_have_names, all_keep_unshown};

/// Files whose names stand for something and that break no rule mean a registry that keeps the rules, with the built-in entities, in rising order.
pub fn what_breaks_no_rule_keeps_the_rules()
    ensures { (trees : List Tree) (names : List (Place × List ℕ)) (reg : List Entity) → AreOfFiles trees → IsResolved trees (Ok names) → IsChecked trees (Ok reg)
        → KeepsTheRules reg × HasBuiltIn reg × IsRising reg }
{}

/// Where all names stand for something, each rule but that of types is broken nowhere exactly where all entities meant keep it, and all
/// declarations what their entities do not show of it.
pub fn a_rule_is_broken_nowhere_exactly_where_all_keep_it()
    ensures { (trees : List Tree) (names : List (Place × List ℕ)) (r : Rule) → AreOfFiles trees → IsResolved trees (Ok names) → r ≢ types
        → (broken r trees ≡ []) ↔ (AllKeep (meant trees) r × IsTrue (all_keep_unshown r trees)) }
{}

/// The same of the rule of types: from there on where none is on a circle, since a typedef on a circle is no type of an entity; and back
/// where each type of members has a name, as in every file, since without one no entity shows it.
pub fn types_are_broken_nowhere_exactly_where_all_keep_them()
    ensures kept { (trees : List Tree) (names : List (Place × List ℕ)) → AreOfFiles trees → IsResolved trees (Ok names) → broken circles trees ≡ []
        → broken types trees ≡ [] → AllKeep (meant trees) types × IsTrue (all_keep_unshown types trees) }
    ensures nowhere { (trees : List Tree) (names : List (Place × List ℕ)) → AreOfFiles trees → IsResolved trees (Ok names)
        → IsTrue (list_all (λ d. members_have_names d.body) (declarations trees)) → AllKeep (meant trees) types → IsTrue (all_keep_unshown types trees)
        → broken types trees ≡ [] }
{}

/// A constant or item comes back in the bounded search exactly where it leads to itself, over any number of steps.
pub fn a_constant_comes_back_exactly_where_it_leads_to_itself()
    ensures { (vs : List Valued) (v : Valued) → IsTrue (are_apart (map (λ w. w.name.place) vs)) → Contains vs v
        → (value_comes_back vs v ≡ true) ↔ Leads (leads_to_valued vs) v v }
{}

/// Files mean one registry, or break one rule first, at one place.
pub fn the_rules_have_one_verdict()
    ensures { (trees : List Tree) (r s : Result (List Entity) (Rule × Place)) → IsChecked trees r → IsChecked trees s → r ≡ s }
{}

/// And they do one of the two, whatever the files are.
pub fn the_rules_have_a_verdict()
    ensures { (trees : List Tree) → (r : Result (List Entity) (Rule × Place)) × IsChecked trees r }
{}
