//! Laws of the texts of registries: each function has an empty body, and its clause is the law.
ghost use Rattle.std.specs.Prelude.{◌≡◌, ℕ, List};
ghost use Rattle.uno_model.specs.BuiltIn.{HasBuiltIn};
ghost use Rattle.uno_model.specs.Entities.{Entity};
ghost use Rattle.uno_model.specs.Registry.{IsRising};
ghost use Rattle.registry_text_model.specs.Lines.{registry_text};
ghost use Rattle.registry_text_model.specs.Reading.{IsBadLine, IsOutOfOrder, BreaksRule};
ghost use Rattle.registry_text_model.specs.Rules.{Rule, KeepsTheRules};

/// Registries that keep the rules, with the built-in entities, have different texts.
pub fn a_text_says_one_registry()
    ensures { (reg other : List Entity) → KeepsTheRules reg → KeepsTheRules other → HasBuiltIn reg → HasBuiltIn other → IsRising reg → IsRising other
        → registry_text reg ≡ registry_text other → reg ≡ other }
{}

/// The text of a registry that keeps the rules has no wrong line.
pub fn a_bad_line_is_none_of_a_registry()
    ensures { (bytes : List ℕ) (line : ℕ) (reg : List Entity) → IsBadLine bytes line → KeepsTheRules reg → HasBuiltIn reg → IsRising reg
        → registry_text reg ≡ bytes → ⊥ }
{}

/// Nor has it a line that is out of order.
pub fn a_line_out_of_order_is_none_of_a_registry()
    ensures { (bytes : List ℕ) (line : ℕ) (reg : List Entity) → IsOutOfOrder bytes line → KeepsTheRules reg → HasBuiltIn reg → IsRising reg
        → registry_text reg ≡ bytes → ⊥ }
{}

/// Nor does it say a registry that breaks a rule.
pub fn a_registry_that_keeps_the_rules_breaks_none()
    ensures { (bytes : List ℕ) (rule : Rule) (line : ℕ) (reg : List Entity) → BreaksRule bytes rule line → KeepsTheRules reg → HasBuiltIn reg
        → IsRising reg → registry_text reg ≡ bytes → ⊥ }
{}
