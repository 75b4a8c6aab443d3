//! Laws of what is assignable: each function has an empty body, and its clause is the law.
ghost use Rattle.std.specs.Prelude.{List, IsTrue, ◌↔◌};
ghost use Rattle.uno_model.specs.Circles.{HasNoCircle};
ghost use Rattle.uno_model.specs.Entities.{Entity};
ghost use Rattle.uno_model.specs.Kinds.{Kind};
ghost use Rattle.uno_model.specs.Reaches.{is_assignable};
ghost use Rattle.uno_model.specs.Registry.{Assignable, leads_to};

/// Where nothing leads back to itself, the test says what is assignable.
pub fn what_is_assignable_passes_the_test()
    ensures { (reg : List Entity) (to from : Kind) → HasNoCircle (leads_to reg) → IsTrue (is_assignable reg to from) ↔ Assignable reg to from }
{}

/// Each type is assignable to itself.
pub fn a_type_is_assignable_to_itself()
    ensures { (reg : List Entity) (k : Kind) → Assignable reg k k }
{}

/// What is assignable to a type is assignable to all to which that type is.
pub fn what_is_assignable_is_so_over_two_steps()
    ensures { (reg : List Entity) (a b c : Kind) → Assignable reg a b → Assignable reg b c → Assignable reg a c }
{}
