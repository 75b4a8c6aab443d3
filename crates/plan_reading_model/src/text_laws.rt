//! Laws of the texts of plans: each function has an empty body, and its clause is the law.
ghost use Rattle.std.specs.Prelude.{◌≡◌, ◌↔◌, ℕ, List, Some, Result, IsTrue};
ghost use Rattle.std.specs.List.{list_all};
ghost use Rattle.plan_model.specs.Keeps.{IsVerdict, Says, SaysOne, Wrong};
ghost use Rattle.plan_model.specs.Lines.{Line};
ghost use Rattle.plan_model.specs.Plans.{Plan};
ghost use Rattle.plan_reading_model.specs.LineReading.{line_at};
ghost use Rattle.plan_reading_model.specs.TextReading.{verdict};
ghost use Rattle.uno_model.specs.Entities.{Entity};
ghost use Rattle.uno_model.specs.Sound.{is_named};

/// A text says one line at most.
pub fn a_text_says_one_line()
    ensures { (reg : List Entity) → SaysOne reg }
{}

/// Where the names of a registry are identifiers, the line that is read of a text is the one that it says.
pub fn the_line_is_read()
    ensures { (reg : List Entity) (text : List ℕ) (l : Line) → IsTrue (list_all is_named reg) → (line_at reg text ≡ Some l) ↔ Says reg text l }
{}

/// The verdict that is read of a text is then the one that the rules give it.
pub fn the_verdict_is_read()
    ensures { (reg : List Entity) (text : List ℕ) (out : Result Plan Wrong) → IsTrue (list_all is_named reg)
        → (verdict reg text ≡ out) ↔ IsVerdict reg text out }
{}

/// A text has one verdict at most.
pub fn a_text_has_one_verdict()
    ensures { (reg : List Entity) (text : List ℕ) (out other : Result Plan Wrong) → IsVerdict reg text out → IsVerdict reg text other → out ≡ other }
{}
