//! The law of the refusals of a text.
ghost use Rattle.std.specs.Prelude.{◌≡◌, ℕ, List};
ghost use Rattle.registry_text_model.specs.Reading.{IsBadLine, IsOutOfOrder, BreaksRule};
ghost use Rattle.registry_text_model.specs.Rules.{Rule};

/// A text is refused in one way: for one line that is wrong, or one that is out of order, or for one rule that its registry breaks, at one line.
pub fn a_text_has_one_refusal()
    ensures bad { (bytes : List ℕ) (line other : ℕ) → IsBadLine bytes line → IsBadLine bytes other → line ≡ other }
    ensures order { (bytes : List ℕ) (line other : ℕ) → IsOutOfOrder bytes line → IsOutOfOrder bytes other → line ≡ other }
    ensures broken { (bytes : List ℕ) (rule another : Rule) (line other : ℕ) → BreaksRule bytes rule line → BreaksRule bytes another other → (rule ≡ another) × (line ≡ other) }
    ensures bad_in_order { (bytes : List ℕ) (line other : ℕ) → IsBadLine bytes line → IsOutOfOrder bytes other → ⊥ }
    ensures bad_unbroken { (bytes : List ℕ) (rule : Rule) (line other : ℕ) → IsBadLine bytes line → BreaksRule bytes rule other → ⊥ }
    ensures order_unbroken { (bytes : List ℕ) (rule : Rule) (line other : ℕ) → IsOutOfOrder bytes line → BreaksRule bytes rule other → ⊥ }
{}
