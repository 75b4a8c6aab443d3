//! Laws of slots: each function has an empty body, and its clauses are the law.
ghost use Rattle.std.specs.Prelude.{◌≡◌, ℕ, ◌<◌, List, [], ◌∷◌, ◌++◌, Option};
ghost use Rattle.uno_model.specs.Entities.{Entity};
ghost use Rattle.uno_model.specs.Kinds.{Kind};
ghost use Rattle.uno_model.specs.Sound.{IsSound};
ghost use Rattle.uno_model.specs.Values.{Plain};
ghost use Rattle.urp_model.specs.Announcing.{Announcements, no_announcements, before_them, AllMean, value_announces};
ghost use Rattle.urp_model.specs.Held.{holds, slot_for, held_after};
ghost use Rattle.urp_model.specs.Slots.{Announcement, Means, announced, no_meanings, slot_taken, is_held};
ghost use Rattle.urp_model.specs.Spelling.{Spells};
ghost use Rattle.urp_model.specs.Tables.{Tables, no_tables};

/// What a sender keeps of its uses gives each name the slot that it takes by the list of all uses, one of the 256.
pub fn a_name_takes_the_slot_of_all_uses()
    ensures same { (uses : List (List ℕ)) (name : List ℕ) → slot_for name (held_after uses) ≡ slot_taken uses name }
    ensures below { (uses : List (List ℕ)) (name : List ℕ) → slot_taken uses name < 256 }
{}

/// What a sender keeps of its uses has just the names that are held by the list of all uses.
pub fn the_names_kept_are_those_held()
    ensures { (uses : List (List ℕ)) (name : List ℕ) → holds name (held_after uses) ≡ is_held uses name }
{}

/// A reader's table says what all announcements mean: before the first one, and after one more.
pub fn a_table_means_what_was_announced()
    ensures first { Means no_meanings [] }
    ensures next { (table : List (Option (List ℕ))) (announcements : List Announcement) (slot : ℕ) (name : List ℕ)
        → Means table announcements → Means (announced slot name table) (record { slot = slot; name = name } ∷ announcements) }
{}

/// What the three tables mean after a value is what all announcements mean: those that its bytes make, and behind them those that came before.
pub fn tables_mean_what_a_value_announces()
    ensures first { AllMean no_tables no_announcements }
    ensures next { (levels : ℕ) (reg : List Entity) (k : Kind) (s t : Tables) (x : Plain) (b : List ℕ) (spelled : Spells levels reg k s x b t) (old : Announcements)
        → AllMean s old → AllMean t (before_them (value_announces levels reg k s t x b spelled) old) }
{}

/// The announcements are those of the bytes: however it is shown that a value of a type stands at the front of them, they are the same.
pub fn the_bytes_of_a_value_make_one_list_of_announcements()
    ensures { (levels : ℕ) (reg : List Entity) (k : Kind) (s t u : Tables) (x y : Plain) (b c d e : List ℕ) → IsSound reg → (first : Spells levels reg k s x b t)
        (second : Spells levels reg k s y c u) → b ++ d ≡ c ++ e → value_announces levels reg k s t x b first ≡ value_announces levels reg k s u y c second }
{}
