//! Laws of the functions of interfaces: each function has an empty body, and its clause is the law.
ghost use Rattle.std.specs.Prelude.{◌≡◌, ◌<◌, ◌++◌, ◌∷◌, [], ℕ, List, Some, length, true, false, if◌then◌else◌, Contains};
ghost use Rattle.uno_model.specs.BuiltIn.{x_interface, x_interface_name};
ghost use Rattle.uno_model.specs.Circles.{HasNoCircle};
ghost use Rattle.uno_model.specs.Entities.{Entity};
ghost use Rattle.uno_model.specs.Functions.{Function, is_met, visit_all, met_within, visit, functions_of, root_functions};
ghost use Rattle.uno_model.specs.Registry.{find_entity, stands_on, leads_to, IsBaseOf};
ghost use Rattle.uno_model.specs.Sound.{IsSound, is_there, is_interface};

/// Where there is no circle, a visit of an interface that was not met visits its bases that are not optional, one after the other,
/// and then the interface itself.
pub fn a_visit_is_that_of_the_bases_and_the_interface_itself()
    ensures { (reg : List Entity) (met : List (List ℕ)) (name : List ℕ) → HasNoCircle (leads_to reg)
        → visit reg met name ≡ (if is_met name met then met else visit_all (visit reg) met (stands_on reg name) ++ name ∷ []) }
{}

/// Where there is no circle, more levels than there are entities change nothing.
pub fn more_levels_meet_the_same_interfaces()
    ensures { (reg : List Entity) (levels : ℕ) (met : List (List ℕ)) (name : List ℕ) → HasNoCircle (leads_to reg) → length reg < levels
        → met_within levels reg met name ≡ visit reg met name }
{}

/// Where there is no circle, an interface has each function of each of its bases, over any number of bases.
pub fn an_interface_has_the_functions_of_its_bases()
    ensures { (reg : List Entity) (name base : List ℕ) (f : Function) → HasNoCircle (leads_to reg) → IsBaseOf reg base name
        → Contains (functions_of reg base) f → Contains (functions_of reg name) f }
{}

/// Where there is no circle, the functions of an interface's first base come first, with the same numbers.
pub fn the_functions_of_the_first_base_come_first()
    ensures { (reg : List Entity) (name first : List ℕ) (others : List (List ℕ)) → HasNoCircle (leads_to reg) → stands_on reg name ≡ first ∷ others
        → (more : List Function) × (functions_of reg name ≡ functions_of reg first ++ more) }
{}

/// In a sound registry with the built-in root, the first three functions of every interface are those of the root.
pub fn the_first_functions_are_those_of_the_root()
    ensures { (reg : List Entity) (name : List ℕ) → IsSound reg → find_entity x_interface_name reg ≡ Some x_interface → is_there reg is_interface name ≡ true
        → (more : List Function) × (functions_of reg name ≡ root_functions ++ more) }
{}

/// In a sound registry with the built-in root, every interface has the root as a base, or is the root.
pub fn every_interface_stands_on_the_root()
    ensures { (reg : List Entity) (name : List ℕ) → IsSound reg → find_entity x_interface_name reg ≡ Some x_interface → is_there reg is_interface name ≡ true
        → IsBaseOf reg x_interface_name name }
{}

/// In a sound registry, what is no interface has no functions.
pub fn what_is_no_interface_has_no_functions()
    ensures { (reg : List Entity) (name : List ℕ) → IsSound reg → is_there reg is_interface name ≡ false → functions_of reg name ≡ [] }
{}
