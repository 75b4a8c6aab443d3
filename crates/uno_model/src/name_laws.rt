//! A law of the names of types: the function has an empty body, and its clause is the law.
ghost use Rattle.std.specs.Prelude.{◌≡◌, List, IsTrue};
ghost use Rattle.uno_model.specs.Entities.{Entity};
ghost use Rattle.uno_model.specs.Kinds.{Kind, name_of};
ghost use Rattle.uno_model.specs.Sound.{IsSound};
ghost use Rattle.uno_model.specs.Types.{is_formed};

/// In a sound registry, two types of one name are one type.
pub fn types_of_one_name_are_one()
    ensures { (reg : List Entity) → IsSound reg → (k j : Kind) → IsTrue (is_formed reg k) → IsTrue (is_formed reg j) → name_of k ≡ name_of j → k ≡ j }
{}
