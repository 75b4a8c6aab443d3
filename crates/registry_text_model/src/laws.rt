//! Laws of registries and their texts: each function has an empty body, and its clause is the law.
ghost use Rattle.std.specs.Prelude.{◌≡◌, List, true};
ghost use Rattle.uno_model.specs.Entities.{Entity};
ghost use Rattle.uno_model.specs.Sound.{IsSound};
ghost use Rattle.registry_text_model.specs.Grammar.{first, is_in_order, registry_forms};
ghost use Rattle.registry_text_model.specs.Rules.{KeepsTheRules};

/// A registry that keeps the rules is sound.
pub fn a_registry_that_keeps_the_rules_is_sound()
    ensures { (reg : List Entity) → KeepsTheRules reg → IsSound reg }
{}

/// Behind the first line of a registry's text, each line may follow the one before it.
pub fn the_lines_of_a_registry_are_in_order()
    ensures { (reg : List Entity) → is_in_order first (registry_forms reg) ≡ true }
{}
