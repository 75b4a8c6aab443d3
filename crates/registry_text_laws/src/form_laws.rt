//! The law of the forms of lines.
ghost use Rattle.std.specs.Prelude.{List, ◌∷◌};
ghost use Rattle.registry_text_laws.specs.Forms.{AreOfForms};
ghost use Rattle.registry_text_model.specs.Grammar.{first, registry_forms};
ghost use Rattle.registry_text_model.specs.Lines.{registry_lines};
ghost use Rattle.uno_model.specs.Entities.{Entity};

/// Each line of a registry's text has the form that stands at its place.
pub fn the_lines_of_a_registry_are_of_their_forms()
    ensures { (reg : List Entity) → AreOfForms (first ∷ registry_forms reg) (registry_lines reg) }
{}
