//! Laws of the objects that a value names: each function has an empty body, and its clauses are the law.
ghost use Rattle.std.specs.Prelude.{◌≡◌, List, map};
ghost use Rattle.uno_model.specs.Entities.{Entity};
ghost use Rattle.uno_model.specs.Fits.{Fits};
ghost use Rattle.uno_model.specs.Kinds.{Kind};
ghost use Rattle.uno_model.specs.Values.{Plain, refs};
ghost use Rattle.urp_model.specs.Carried.{carried};
ghost use Rattle.urp_model.specs.Namings.{namings, held_ref, arrived_ref, arrived_naming};

/// What a value names at its type are its references from left to right; where it arrives they are the same objects, under the interfaces
/// that were written, and these are then held and written.
pub fn a_value_names_what_arrives()
    ensures held { (reg : List Entity) (v : Plain) (k : Kind) → Fits reg v k → map held_ref (namings reg v k) ≡ refs v }
    ensures arrives { (reg : List Entity) (v : Plain) (k : Kind) → Fits reg v k → map arrived_ref (namings reg v k) ≡ refs (carried reg v k) }
    ensures named { (reg : List Entity) (v : Plain) (k : Kind) → map arrived_naming (namings reg v k) ≡ namings reg (carried reg v k) k }
{}
