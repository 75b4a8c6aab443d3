//! A law of literals, over the values that code holds.
ghost use Rattle.std.specs.Prelude.{◌≡◌, ◌⊎◌, [], Ok, Err};
ghost use Rattle.literal_model.specs.Literals.{print};
ghost use Rattle.literal_model.specs.Verdicts.{verdict, too_deep};
ghost use Rattle.uno_entities.specs.TypeNames.{kind_of};
ghost use Rattle.uno_model.specs.Fits.{Fits};
ghost use Rattle.uno_model.specs.Sound.{IsSound};
ghost use Rattle.uno_model.specs.Values.{refs};
ghost use Rattle.uno_values.specs.Values.{plain_of};

use uno_types::{Registry, TypeName};
use uno_values::{Value, every_value_is_spellable};

/// A law: what is printed of a value that fits a type, and has no object in it, is read back at that type as that value, unless it
/// is nested deeper than is read.
pub fn a_printed_value_is_read_back(registry: &Registry, kind: &TypeName, value: &Value)
    requires { IsSound registry.now }
    ensures { Fits registry.now (plain_of value.now) (kind_of kind.now) → refs (plain_of value.now) ≡ []
        → (verdict registry.now (kind_of kind.now) (print registry.now (plain_of value.now)) ≡ Ok (plain_of value.now))
        ⊎ (verdict registry.now (kind_of kind.now) (print registry.now (plain_of value.now)) ≡ Err too_deep) }
{
    every_value_is_spellable(value)
}
