//! Laws of the texts of plans: each function has an empty body, and its clause is the law.
ghost use Rattle.std.specs.Prelude.{◌≡◌, ℕ, List, Result};
ghost use Rattle.plan_model.specs.Keeps.{IsTextOf, IsVerdict, KeepsTheRules, SaysOne, Wrong};
ghost use Rattle.plan_model.specs.Plans.{Plan};
ghost use Rattle.uno_model.specs.Entities.{Entity};

/// The plan of a text is made by lines of which none is wrong.
pub fn the_plan_of_a_text_keeps_the_rules()
    ensures { (reg : List Entity) (text : List ℕ) (plan : Plan) → IsTextOf reg text plan → KeepsTheRules reg plan }
{}

/// Where no text says two lines, a text has at most one verdict.
pub fn a_text_has_one_verdict()
    ensures { (reg : List Entity) (text : List ℕ) (out other : Result Plan Wrong) → SaysOne reg → IsVerdict reg text out → IsVerdict reg text other
        → out ≡ other }
{}
