//! Laws of the end of a bridge and of the outcomes that it gives: each function has an empty body, and its clauses are the law.
ghost use Rattle.std.specs.Prelude.{◌≡◌, ◌⊎◌, ℕ, List, Some};
ghost use Rattle.bridge_model.specs.Entries.{Entry, took, no_memory};
ghost use Rattle.bridge_model.specs.Histories.{Told, Leads};
ghost use Rattle.bridge_model.specs.Roots.{outcome_in};
ghost use Rattle.bridge_model.specs.Settings.{Setting};
ghost use Rattle.bridge_model.specs.Sides.{answered, state_of};
ghost use Rattle.bridge_model.specs.Sides as side;
ghost use Rattle.bridge_model.specs.Steps.{Turn, step};
ghost use Rattle.bridge_model.specs.declared.cause.Cause.{Cause};
ghost use Rattle.bridge_model.specs.declared.cause.Cause.TheVariants as cause;
ghost use Rattle.bridge_laws.specs.Ending.{HasEnd, IsCause};

/// An outcome that says that the bridge was disposed has its end with that cause in the journal, whether the root has it still or took it; want of memory is no such
/// cause. An outcome that says that there was no memory has that end.
pub fn a_disposed_outcome_has_its_end()
    ensures held { (g : Setting) (es : List Entry) (x : Told) (root : ℕ) (why : Cause) → Leads g es x → state_of root x.side.tables.roots ≡ answered (side.disposed why)
        → HasEnd g es why × (why ≡ cause.NoMemory → ⊥) }
    ensures taken { (g : Setting) (es : List Entry) (x : Told) (root : ℕ) (u : Turn) (why : Cause) → Leads g es x → step g x.side (took root) ≡ Some u
        → outcome_in (state_of root x.side.tables.roots) ≡ Some (side.disposed why) → HasEnd g es why × (why ≡ cause.NoMemory → ⊥) }
    ensures forgotten { (g : Setting) (es : List Entry) (x : Told) (root : ℕ) → Leads g es x → state_of root x.side.tables.roots ≡ answered side.no_memory → HasEnd g es cause.NoMemory }
{}

/// A bridge that has ended was ended by its journal with that cause; or it was ended, and want of memory took the place of the cause.
pub fn a_bridge_has_ended_with_its_first_cause()
    ensures { (g : Setting) (es : List Entry) (x : Told) (why : Cause) → Leads g es x → x.side.cause ≡ Some why → IsCause g es why }
{}

/// Each entry behind the end keeps the cause, but for want of memory.
pub fn the_first_cause_stays_but_for_want_of_memory()
    ensures { (g : Setting) (es : List Entry) (x : Told) (e : Entry) (u : Turn) (why : Cause) → Leads g es x → x.side.cause ≡ Some why → step g x.side e ≡ Some u
        → (u.side.cause ≡ Some why) ⊎ ((e ≡ no_memory) × (u.side.cause ≡ Some cause.NoMemory)) }
{}
