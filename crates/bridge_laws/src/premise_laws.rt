//! Laws of what the others ask of a registry and of a plan: each function has an empty body, and its clause is the law.
ghost use Rattle.std.specs.Prelude.{List};
ghost use Rattle.bridge_laws.specs.Texts.{AreSmallItems, IsWritablePlan};
ghost use Rattle.plan_model.specs.Keeps.{KeepsTheRules};
ghost use Rattle.plan_model.specs.Plans.{Plan};
ghost use Rattle.plan_typing.specs.Effects.{NamesDiffer};
ghost use Rattle.registry_text_model.specs.Rules as rule;
ghost use Rattle.uno_model.specs.Entities.{Entity};
ghost use Rattle.uno_model.specs.Sound.{IsSound};

/// In a registry that keeps the rules, the number of each item has 32 bits.
pub fn a_registry_that_keeps_the_rules_has_small_items()
    ensures { (reg : List Entity) → rule.KeepsTheRules reg → AreSmallItems reg }
{}

/// In a registry that keeps the rules, functions that an interface declares have different names, and so have the parameters of each of them.
pub fn a_registry_that_keeps_the_rules_tells_names_apart()
    ensures { (reg : List Entity) → rule.KeepsTheRules reg → NamesDiffer reg }
{}

/// In a plan that keeps the rules, each constant can be carried by bytes, and the names of exceptions that are raised and of what is asked for are UTF-8.
pub fn a_plan_that_keeps_the_rules_is_writable()
    ensures { (reg : List Entity) (p : Plan) → IsSound reg → AreSmallItems reg → KeepsTheRules reg p → IsWritablePlan p }
{}
