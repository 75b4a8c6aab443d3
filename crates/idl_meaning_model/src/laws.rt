//! Laws of names: each function has an empty body, and its clause is the law.
ghost use Rattle.std.specs.Prelude.{◌≡◌, ℕ, List, Contains, Result};
ghost use Rattle.idl_model.specs.Places.{Place};
ghost use Rattle.idl_model.specs.Trees.{Tree};
ghost use Rattle.idl_meaning_model.specs.FromFiles.{AreOfFiles};
ghost use Rattle.idl_meaning_model.specs.NameFaults.{NameFault, faults, IsResolved};

/// Two faults of names never share a place, so the one that comes first is one.
pub fn a_place_has_one_fault()
    ensures { (trees : List Tree) (place : Place) (f g : NameFault) → AreOfFiles trees → Contains (faults trees) (place, f) → Contains (faults trees) (place, g) → f ≡ g }
{}

/// The names of files are told in one way, or refused for one fault.
pub fn the_names_of_files_have_one_verdict()
    ensures { (trees : List Tree) (r s : Result (List (Place × List ℕ)) (Place × NameFault)) → AreOfFiles trees → IsResolved trees r → IsResolved trees s → r ≡ s }
{}
