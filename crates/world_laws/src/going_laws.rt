//! Laws of what an entry more does to two joined ends and to the bytes between them: each function has an empty body, and its clauses are the law.
ghost use Rattle.std.specs.Prelude.{◌≡◌, ℕ, [], ◌∷◌, ◌++◌, List, Some, drop, length, take};
ghost use Rattle.std.specs.Str.{IsUtf8};
ghost use Rattle.bridge_model.specs.Answers.{feed_answer, next_cut, taken};
ghost use Rattle.bridge_model.specs.Entries.{Entry};
ghost use Rattle.bridge_model.specs.Histories.{Told, bytes_drained, bytes_fed};
ghost use Rattle.bridge_model.specs.RootRuns.{StandsFor, moved, root_moves};
ghost use Rattle.bridge_model.specs.Settings.{Setting};
ghost use Rattle.bridge_model.specs.Sides.{Side};
ghost use Rattle.bridge_laws.specs.SpellableGiving.{IsGivenByRoot};
ghost use Rattle.plan_model.specs.Roots.{Run};
ghost use Rattle.world_laws.specs.Ready.{AreReady};
ghost use Rattle.world_model.specs.Worlds.{Event, Settings, entries_of, of_a, of_b};
ghost use Rattle.world_model.specs.declared.side.Side.TheVariants.{A, B};
ghost use Rattle.world_laws.specs.Linking.{ArePiped, AreTwoEnds};
ghost use Rattle.world_laws.specs.Merging.{event_at};

/// Two ends that are ready begin with nothing between them.
pub fn nothing_is_on_its_way_at_the_beginning()
    ensures { (g : Settings) → AreReady g → ArePiped g [] [] [] }
{}

/// An entry more at an end: what it fed leaves the bytes on their way to that end, where it was next of them, and what it drained goes behind those that are on their way to the other.
pub fn an_entry_of_an_end_goes_on()
    ensures a { (g : Settings) (es : List Event) (to_a to_b : List ℕ) → ArePiped g es to_a to_b → (e : Entry) → IsGivenByRoot e → bytes_fed e ≡ take (length (bytes_fed e)) to_a
        → ArePiped g (es ++ event_at A e ∷ []) (drop (length (bytes_fed e)) to_a) (to_b ++ bytes_drained e) }
    ensures b { (g : Settings) (es : List Event) (to_a to_b : List ℕ) → ArePiped g es to_a to_b → (e : Entry) → IsGivenByRoot e → bytes_fed e ≡ take (length (bytes_fed e)) to_b
        → ArePiped g (es ++ event_at B e ∷ []) (to_a ++ bytes_drained e) (drop (length (bytes_fed e)) to_b) }
{}

/// What an end takes of the first so many bytes on their way to it is next of them; and it answers how much that is.
pub fn what_is_cut_off_a_piece_is_next()
    ensures answered { (g : Setting) (s : Side) (piece : List ℕ) (n : ℕ) → feed_answer g s piece ≡ taken n → n ≡ length (next_cut s piece) }
    ensures next { (s : Side) (n : ℕ) (way : List ℕ) → next_cut s (take n way) ≡ take (length (next_cut s (take n way))) way }
{}

/// What a root enters next whose run stands for the entries of its end can be carried by bytes: so a step of a root is an entry that goes on.
pub fn what_a_root_enters_can_be_carried()
    ensures a { (g : Settings) (es : List Event) (x y : Told) (to_a to_b : List ℕ) → AreTwoEnds g es x y to_a to_b
        → (r next : Run) (e : Entry) → StandsFor (of_a g) (entries_of A es) r → IsUtf8 r.instance → root_moves (of_a g) x.side r ≡ moved next (Some e) → IsGivenByRoot e }
    ensures b { (g : Settings) (es : List Event) (x y : Told) (to_a to_b : List ℕ) → AreTwoEnds g es x y to_a to_b
        → (r next : Run) (e : Entry) → StandsFor (of_b g) (entries_of B es) r → IsUtf8 r.instance → root_moves (of_b g) y.side r ≡ moved next (Some e) → IsGivenByRoot e }
{}
