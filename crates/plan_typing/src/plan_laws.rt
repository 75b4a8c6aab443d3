//! A law of plans, in a sound registry: the function has an empty body, and its clause is the law.
ghost use Rattle.std.specs.Prelude.{List};
ghost use Rattle.plan_model.specs.Keeps.{KeepsTheRules};
ghost use Rattle.plan_model.specs.Plans.{Plan};
ghost use Rattle.plan_typing.specs.Statements.{IsTypedPlan};
ghost use Rattle.uno_model.specs.Entities.{Entity};
ghost use Rattle.uno_model.specs.Sound.{IsSound};

/// In every plan that keeps the rules, each statement of each method is typed, and no method goes past its last one without the result that it owes.
pub fn a_plan_that_keeps_the_rules_is_typed()
    ensures { (reg : List Entity) → IsSound reg → (p : Plan) → KeepsTheRules reg p → IsTypedPlan reg p }
{}
