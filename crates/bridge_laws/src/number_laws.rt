//! Laws of the numbers and identities of objects: each function has an empty body, and its clause is the law.
ghost use Rattle.std.specs.Prelude.{◌≡◌, ℕ, ◌<◌, ◌^◌, List, ◌++◌, Some};
ghost use Rattle.bridge_model.specs.Entries.{Entry};
ghost use Rattle.bridge_model.specs.Histories.{Told, Leads};
ghost use Rattle.bridge_model.specs.Settings.{Setting};
ghost use Rattle.bridge_laws.specs.Numbers.{AreNumbered, behaviour_named, KeepsObjects};

/// No two objects that live have the same number, and each has one that was given.
pub fn numbers_tell_objects_apart()
    ensures { (g : Setting) (es : List Entry) (x : Told) → Leads g es x → AreNumbered x.side.tables }
{}

/// A number that was given is given to no other object: whatever follows, an object that lives under it lived under it before, and keeps its behaviour. It holds of ended
/// bridges too.
pub fn an_object_number_is_never_given_twice()
    ensures { (g : Setting) (es later : List Entry) (x y : Told) → Leads g es x → Leads g (es ++ later) y → KeepsObjects x.side.tables y.side.tables }
{}

/// An identity under which an object lives at two times names one object at both, which has one behaviour; it holds of fewer than 2^64 objects, since identities have a number in
/// decimal digits.
pub fn an_identity_names_one_object()
    ensures { (g : Setting) (es later : List Entry) (x y : Told) (oid : List ℕ) (first second : ℕ) → Leads g es x → Leads g (es ++ later) y → y.side.tables.objects_made < 2 ^ 64
        → behaviour_named g oid x.side.tables.objects ≡ Some first → behaviour_named g oid y.side.tables.objects ≡ Some second → first ≡ second }
{}
