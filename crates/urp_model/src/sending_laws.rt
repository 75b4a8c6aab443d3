//! Laws of what a sender writes: each function has an empty body, and its clauses are the law.
ghost use Rattle.std.specs.Prelude.{◌≡◌, ℕ, ◌≤◌, List, ◌++◌, length, Some, Ok, IsTrue};
ghost use Rattle.std.specs.Str.{IsUtf8};
ghost use Rattle.uno_model.specs.Entities.{Entity};
ghost use Rattle.uno_model.specs.Fits.{Fits};
ghost use Rattle.uno_model.specs.Kinds.{Kind};
ghost use Rattle.uno_model.specs.Sound.{IsSound};
ghost use Rattle.uno_model.specs.Types.{is_type};
ghost use Rattle.uno_model.specs.Values.{Plain, depth};
ghost use Rattle.uno_model.specs.Weights.{weight};
ghost use Rattle.uno_model.specs.Spellable.{IsSpellable};
ghost use Rattle.urp_model.specs.Carried.{carried, Corresponds, AllCorrespond, IsNew};
ghost use Rattle.urp_model.specs.Held.{used};
ghost use Rattle.urp_model.specs.Reading.{value_at};
ghost use Rattle.urp_model.specs.Spelling.{Spells, SpellsKind, SpellsOid, SpellsTid};
ghost use Rattle.urp_model.specs.Tables.{Table, Tables, no_tables};
ghost use Rattle.urp_model.specs.Writing.{Names, HeldNames, no_names, kind_spelling, kind_after, name_spelling, after, spelling};

/// Before any name was written, the reader's tables answer to what the sender holds.
pub fn tables_answer_at_first()
    ensures { AllCorrespond no_tables no_names }
{}

/// What a sender writes of a type spells it, and the reader's table goes on to answer.
pub fn a_type_is_spelled()
    ensures { (reg : List Entity) (k : Kind) (s : Table) (h : Names) → IsSound reg → IsTrue (is_type reg k) → Corresponds s h
        → (t : Table) × SpellsKind reg s k (kind_spelling k h) t × Corresponds t (kind_after k h) }
{}

/// What a sender writes of an object spells it, and the reader's table goes on to answer.
pub fn an_object_is_spelled()
    ensures { (oid : List ℕ) (s : Table) (h : Names) → 1 ≤ length oid → length oid ≤ 4096 → IsUtf8 oid → Corresponds s h
        → (t : Table) × SpellsOid s (Some oid) (name_spelling oid h) t × Corresponds t (used oid h) }
{}

/// What a sender writes of a thread spells it, and the reader's table goes on to answer.
pub fn a_thread_is_spelled()
    ensures { (tid : List ℕ) (s : Table) (h : Names) → 1 ≤ length tid → length tid ≤ 1024 → Corresponds s h
        → (t : Table) × SpellsTid s tid (name_spelling tid h) t × Corresponds t (used tid h) }
{}

/// What a sender writes of a value spells it as it arrives, and the reader's tables go on to answer.
pub fn a_value_is_spelled()
    ensures { (reg : List Entity) (k : Kind) (v : Plain) (s : Tables) (h : HeldNames) → IsSound reg → Fits reg v k → depth v ≤ 64 → weight v ≤ 16777216
        → IsSpellable v → AllCorrespond s h
        → (t : Tables) × Spells 64 reg k s (carried reg v k) (spelling v h) t × AllCorrespond t (after v h) }
{}

/// So it is read as the value that arrives, whatever stands behind it.
pub fn a_value_is_read_again()
    ensures { (reg : List Entity) (k : Kind) (v : Plain) (s : Tables) (h : HeldNames) (rest : List ℕ) → IsSound reg → Fits reg v k → depth v ≤ 64
        → weight v ≤ 16777216 → IsSpellable v → AllCorrespond s h
        → (t : Tables) × (value_at 64 reg k s (spelling v h ++ rest) ≡ Ok (carried reg v k, t, rest)) × AllCorrespond t (after v h) }
{}

/// A value is written in no more bytes than it weighs, and in just as many where each name in it is new.
pub fn a_spelling_is_no_longer_than_the_weight()
    ensures bound { (v : Plain) (h : HeldNames) → length (spelling v h) ≤ weight v }
    ensures exact { (v : Plain) (h : HeldNames) → IsNew v h → length (spelling v h) ≡ weight v }
{}
