//! Laws of the spelling of values: each function has an empty body, and its clause is the law.
ghost use Rattle.std.specs.Prelude.{◌≡◌, ◌≢◌, ℕ, ◌≤◌, List, [], ◌++◌, Some, Err, IsTrue, ◌↔◌};
ghost use Rattle.uno_model.specs.Entities.{Entity};
ghost use Rattle.uno_model.specs.Fits.{Fits};
ghost use Rattle.uno_model.specs.Kinds.{Kind, name_of};
ghost use Rattle.uno_model.specs.Sound.{IsSound};
ghost use Rattle.uno_model.specs.TypeClasses.{class_of};
ghost use Rattle.uno_model.specs.Types.{is_type};
ghost use Rattle.uno_model.specs.Values.{Plain, depth};
ghost use Rattle.uno_model.specs.declared.type_class.TypeClass.{TypeClass};
ghost use Rattle.urp_model.specs.Agreement.{Agrees, triple};
ghost use Rattle.uno_model.specs.Spellable.{IsSpellable};
ghost use Rattle.urp_model.specs.Blocks.{AreBytes};
ghost use Rattle.urp_model.specs.Carried.{MeansIdentities, MeansTexts};
ghost use Rattle.urp_model.specs.NamedKinds.{kind_named};
ghost use Rattle.urp_model.specs.Reading.{value_at};
ghost use Rattle.urp_model.specs.ReadingNames.{kind_at, oid_at, tid_at};
ghost use Rattle.urp_model.specs.Spelling.{Spells, SpellsKind, SpellsOid, SpellsTid};
ghost use Rattle.urp_model.specs.Tables.{Table, Tables, no_tables};

use crate::{Fault, Reason};

/// A class and a name are those of one type of the registry at most, and that type is found.
pub fn a_class_and_a_name_are_one_type()
    ensures { (reg : List Entity) (c : TypeClass) (name : List ℕ) (k : Kind) → IsSound reg
        → (kind_named reg c name ≡ Some k) ↔ (IsTrue (is_type reg k) × (class_of k ≡ c) × (name_of k ≡ name)) }
{}

/// Types are read as they are spelled.
pub fn types_are_read_as_they_are_spelled()
    ensures { (reg : List Entity) (s : Table) → IsSound reg → Agrees triple (kind_at reg s) (λ x used. SpellsKind reg s x.0 used x.1) }
{}

/// The identities of objects are read as they are spelled.
pub fn objects_are_read_as_they_are_spelled()
    ensures { (s : Table) → Agrees triple (oid_at s) (λ x used. SpellsOid s x.0 used x.1) }
{}

/// The identities of threads are read as they are spelled.
pub fn threads_are_read_as_they_are_spelled()
    ensures { (s : Table) → Agrees triple (tid_at s) (λ x used. SpellsTid s x.0 used x.1) }
{}

/// Values are read as they are spelled.
pub fn values_are_read_as_they_are_spelled()
    ensures { (levels : ℕ) (reg : List Entity) (k : Kind) (s : Tables) → IsSound reg
        → Agrees triple (value_at levels reg k s) (λ x used. Spells levels reg k s x.0 used x.1) }
{}

/// Bytes begin with the spelling of at most one value of a type: the value, its length and what the slots mean after it are determined.
pub fn one_value_stands_at_the_front()
    ensures { (levels : ℕ) (reg : List Entity) (k : Kind) (s t u : Tables) (x y : Plain) (b c d e : List ℕ) → IsSound reg
        → Spells levels reg k s x b t → Spells levels reg k s y c u → b ++ d ≡ c ++ e → (x ≡ y) × (b ≡ c) × (t ≡ u) × (d ≡ e) }
{}

/// A front of a spelling that is not all of it is short.
pub fn a_front_of_a_spelling_is_short()
    ensures { (levels : ℕ) (reg : List Entity) (k : Kind) (s t : Tables) (x : Plain) (front back : List ℕ) → IsSound reg
        → Spells levels reg k s x (front ++ back) t → back ≢ [] → value_at levels reg k s front ≡ Err Fault.Short }
{}

/// Bytes that break the protocol begin no spelling, however they go on.
pub fn no_spelling_begins_with_what_is_broken()
    ensures { (levels : ℕ) (reg : List Entity) (k : Kind) (s t : Tables) (x : Plain) (bytes more used rest : List ℕ) (reason : Reason) → IsSound reg
        → value_at levels reg k s bytes ≡ Err (Fault.Bad reason) → Spells levels reg k s x used t → bytes ++ more ≡ used ++ rest → ⊥ }
{}

/// What is spelled at a type of the registry fits it and is nested no deeper than allowed, and the slots go on to mean identities.
pub fn what_is_spelled_fits()
    ensures first { MeansIdentities no_tables.oids }
    ensures fits { (levels : ℕ) (reg : List Entity) (k : Kind) (s t : Tables) (x : Plain) (b : List ℕ) → IsSound reg → IsTrue (is_type reg k)
        → MeansIdentities s.oids → Spells levels reg k s x b t → Fits reg x k × (depth x ≤ levels) × MeansIdentities t.oids }
{}

/// What bytes spell can be written again: each number is in the range of its type, and each text and identity is UTF-8; and the slots go on
/// to mean texts.
pub fn what_is_spelled_is_spellable()
    ensures first { MeansTexts no_tables.oids }
    ensures spellable { (levels : ℕ) (reg : List Entity) (k : Kind) (s t : Tables) (x : Plain) (b : List ℕ) → AreBytes b → MeansTexts s.oids
        → Spells levels reg k s x b t → IsSpellable x × MeansTexts t.oids }
{}
