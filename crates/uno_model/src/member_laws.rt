//! A law of the members of structs and exceptions: the function has an empty body, and its clause is the law.
ghost use Rattle.std.specs.Prelude.{◌≡◌, ℕ, List, ◌++◌};
ghost use Rattle.std.specs.List.{flat_map};
ghost use Rattle.uno_model.specs.Circles.{HasNoCircle};
ghost use Rattle.uno_model.specs.Entities.{Entity};
ghost use Rattle.uno_model.specs.Registry.{find_entity, leads_to, member_bases, own_members, all_members};

/// Where there is no circle, all members of a name are those of its base, and then its own.
pub fn all_members_are_the_bases_and_its_own()
    ensures { (reg : List Entity) (name : List ℕ) → HasNoCircle (leads_to reg)
        → all_members reg name ≡ flat_map (all_members reg) (member_bases (find_entity name reg)) ++ own_members (find_entity name reg) }
{}
