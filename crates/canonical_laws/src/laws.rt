//! The law on the printer: a function with an empty body, whose clause is the law.
ghost use Rattle.std.specs.Prelude.{◌≤◌, List, [], ◌∷◌, length, Ok};
ghost use Rattle.uno_model.specs.BuiltIn.{HasBuiltIn};
ghost use Rattle.uno_model.specs.Entities.{Entity};
ghost use Rattle.uno_model.specs.Registry.{IsRising};
ghost use Rattle.registry_text_model.specs.Canonical.{canonical_unoidl};
ghost use Rattle.registry_text_model.specs.Rules.{KeepsTheRules};
ghost use Rattle.idl_text_model.specs.LexVerdicts.{most_bytes};
ghost use Rattle.idl_compiled_model.specs.Compiling.{IsCompiled};

/// Where the text fits, compiling what is printed of a registry that keeps the rules gives that registry.
pub fn canonical_unoidl_compiles_to_its_registry()
    ensures { (reg : List Entity) → KeepsTheRules reg → HasBuiltIn reg → IsRising reg → length (canonical_unoidl reg) ≤ most_bytes
        → IsCompiled (canonical_unoidl reg ∷ []) (Ok reg) }
{}
