//! A law of literals: the function has an empty body, and its clause is the law.
ghost use Rattle.std.specs.Prelude.{◌≡◌, ◌⊎◌, List, [], Ok, Err};
ghost use Rattle.literal_model.specs.Literals.{print};
ghost use Rattle.literal_model.specs.Verdicts.{verdict, too_deep};
ghost use Rattle.uno_model.specs.Entities.{Entity};
ghost use Rattle.uno_model.specs.Fits.{Fits};
ghost use Rattle.uno_model.specs.Kinds.{Kind};
ghost use Rattle.uno_model.specs.Sound.{IsSound};
ghost use Rattle.uno_model.specs.Spellable.{IsSpellable};
ghost use Rattle.uno_model.specs.Values.{Plain, refs};

/// What is printed of a value that fits a type, and has no reference but null, is read back at that type as that value, unless it
/// is nested deeper than is read.
pub fn printed_is_read_back()
    ensures { (reg : List Entity) (k : Kind) (v : Plain) → IsSound reg → Fits reg v k → refs v ≡ [] → IsSpellable v
        → (verdict reg k (print reg v) ≡ Ok v) ⊎ (verdict reg k (print reg v) ≡ Err too_deep) }
{}
