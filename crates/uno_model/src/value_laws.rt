//! Laws of what fits a type, and of defaults: each function has an empty body, and its clause is the law.
ghost use Rattle.std.specs.Prelude.{◌≡◌, ◌↔◌, ℕ, List, [], map, IsTrue};
ghost use Rattle.uno_model.specs.Circles.{HasNoCircle};
ghost use Rattle.uno_model.specs.Defaults.{default_of_kind};
ghost use Rattle.uno_model.specs.Entities.{Entity};
ghost use Rattle.uno_model.specs.Fits.{Fits, does_fit, member_kinds};
ghost use Rattle.uno_model.specs.Kinds as kd;
ghost use Rattle.uno_model.specs.Kinds.{Kind};
ghost use Rattle.uno_model.specs.Registry.{leads_to};
ghost use Rattle.uno_model.specs.Sound.{IsSound};
ghost use Rattle.uno_model.specs.Types.{is_type};
ghost use Rattle.uno_model.specs.Values.{Plain, plains, refs, tuple};

/// Where nothing leads back to itself, the test says which values fit a type.
pub fn what_fits_passes_the_test()
    ensures { (reg : List Entity) (v : Plain) (k : Kind) → HasNoCircle (leads_to reg) → IsTrue (does_fit reg v k) ↔ Fits reg v k }
{}

/// The default of a struct is that of all its members, however deep they are nested.
pub fn the_default_of_a_struct_is_that_of_its_members()
    ensures { (reg : List Entity) → IsSound reg → (name : List ℕ)
        → default_of_kind reg (kd.struct name) ≡ tuple name (plains (map (default_of_kind reg) (member_kinds reg name))) }
{}

/// And so is that of an exception.
pub fn the_default_of_an_exception_is_that_of_its_members()
    ensures { (reg : List Entity) → IsSound reg → (name : List ℕ)
        → default_of_kind reg (kd.exception name) ≡ tuple name (plains (map (default_of_kind reg) (member_kinds reg name))) }
{}

/// The default of a type fits it.
pub fn a_default_fits_its_type()
    ensures { (reg : List Entity) → IsSound reg → (k : Kind) → IsTrue (is_type reg k) → Fits reg (default_of_kind reg k) k }
{}

/// A default holds no object.
pub fn a_default_holds_no_object()
    ensures { (reg : List Entity) (k : Kind) → refs (default_of_kind reg k) ≡ [] }
{}
