//! The law of the roots of plans.
ghost use Rattle.std.specs.Prelude.{List};
ghost use Rattle.plan_model.specs.Keeps.{KeepsTheRules};
ghost use Rattle.plan_model.specs.Plans.{Plan};
ghost use Rattle.bridge_laws.specs.RootStatements.{AreTypedThreads};
ghost use Rattle.uno_model.specs.Entities.{Entity};
ghost use Rattle.uno_model.specs.Sound.{IsSound};

/// In every plan that keeps the rules each statement of each root is typed: its calls, queries and new objects as those of methods are, the names that it asks for have the form of an
/// export's name, and each variable that begins is new.
pub fn roots_of_a_plan_that_keeps_the_rules_are_typed()
    ensures { (reg : List Entity) → IsSound reg → (p : Plan) → KeepsTheRules reg p → AreTypedThreads reg p }
{}
