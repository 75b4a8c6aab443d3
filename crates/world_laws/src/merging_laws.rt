//! Laws of two journals with their marks: each function has an empty body, and its clauses are the law.
ghost use Rattle.std.specs.Prelude.{◌≡◌, ◌+◌, ◌<◌, ℕ, [], ◌∷◌, ◌++◌, List, Some, length, option_map, slice_get};
ghost use Rattle.bridge_model.specs.Entries.{Entry};
ghost use Rattle.world_model.specs.Worlds.{Event, entries_of};
ghost use Rattle.world_model.specs.declared.side.Side.{Side};
ghost use Rattle.world_model.specs.declared.side.Side.TheVariants.{A, B};
ghost use Rattle.world_laws.specs.Merging.{AreMerged, event_at, events_at, places_of, put_in};

/// The entries of both, put together by the places of those of one, are the events that they were taken from.
pub fn entries_are_put_together_by_their_places()
    ensures { (es : List Event) → put_in (places_of B 0 es) (entries_of B es) (events_at A (entries_of A es)) ≡ es }
{}

/// So two journals whose marks are places in a history tell it, and have no other.
pub fn marks_tell_the_history()
    ensures { (es : List Event) (a b : List Entry) (at_a at_b : List ℕ) → AreMerged es a b at_a at_b → put_in at_b b (events_at A a) ≡ es }
{}

/// It is as long as both are.
pub fn there_are_as_many_as_both_have()
    ensures { (es : List Event) (a b : List Entry) (at_a at_b : List ℕ) → AreMerged es a b at_a at_b → length es ≡ length a + length b }
{}

/// Where the marks are places in it, and one of them makes an entry more, which is marked with how many there were, that entry stands behind all others. At the beginning there are none.
pub fn an_entry_with_the_next_mark_stands_behind_all()
    ensures none { AreMerged [] [] [] [] [] }
    ensures a { (es : List Event) (a b : List Entry) (at_a at_b : List ℕ) → AreMerged es a b at_a at_b → (e : Entry) → AreMerged (es ++ event_at A e ∷ []) (a ++ e ∷ []) b (at_a ++ length es ∷ []) at_b }
    ensures b { (es : List Event) (a b : List Entry) (at_a at_b : List ℕ) → AreMerged es a b at_a at_b → (e : Entry) → AreMerged (es ++ event_at B e ∷ []) a (b ++ e ∷ []) at_a (at_b ++ length es ∷ []) }
{}

/// The entry of a side with a mark is the one at that place of the history; each that stands there has its mark; and the marks of a side rise, so that they may be searched.
pub fn a_mark_finds_its_entry()
    ensures found { (s : Side) (es : List Event) (k n : ℕ) → slice_get (places_of s 0 es) k ≡ Some n → slice_get es n ≡ option_map (event_at s) (slice_get (entries_of s es) k) }
    ensures each { (es : List Event) (n : ℕ) (e : Event) → slice_get es n ≡ Some e → (k : ℕ) × (slice_get (places_of e.side 0 es) k ≡ Some n) }
    ensures rising { (s : Side) (es : List Event) (k l m n : ℕ) → k < l → slice_get (places_of s 0 es) k ≡ Some m → slice_get (places_of s 0 es) l ≡ Some n → m < n }
{}
