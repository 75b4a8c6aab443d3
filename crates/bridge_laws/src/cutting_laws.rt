//! Laws of how bytes that come in are cut into pieces: each function has an empty body, and its clauses are the law.
ghost use Rattle.std.specs.Prelude.{◌≡◌, ℕ, true, List, ◌∷◌, ◌++◌, map};
ghost use Rattle.std.specs.List.{flat_map, AllByRecursion};
ghost use Rattle.bridge_model.specs.Entries.{Entry, fed};
ghost use Rattle.bridge_model.specs.Histories.{Told, Leads};
ghost use Rattle.bridge_model.specs.Settings.{Setting};
ghost use Rattle.bridge_model.specs.Sides.{Side};
ghost use Rattle.bridge_model.specs.Steps.{is_some_bytes, may, does};
ghost use Rattle.bridge_laws.specs.Cutting.{IsCut, HaveSameBytes};

/// A piece that may be fed may be fed in two parts, and these do what it does: the side and the messages that it got are the same.
pub fn a_piece_may_be_fed_in_two_parts()
    ensures first { (g : Setting) (s : Side) (a b : List ℕ) → is_some_bytes a ≡ true → is_some_bytes b ≡ true → may g s (fed (a ++ b)) ≡ true → may g s (fed a) ≡ true }
    ensures second { (g : Setting) (s : Side) (a b : List ℕ) → is_some_bytes a ≡ true → is_some_bytes b ≡ true → may g s (fed (a ++ b)) ≡ true
        → may g (does g (fed a) s).side (fed b) ≡ true }
    ensures same { (g : Setting) (s : Side) (a b : List ℕ) → is_some_bytes a ≡ true → is_some_bytes b ≡ true → may g s (fed (a ++ b)) ≡ true
        → does g (fed b) (does g (fed a) s).side ≡ does g (fed (a ++ b)) s }
{}

/// Journals with the same entries and the same bytes lead to the same: the side, all messages and all bytes. A journal whose pieces are cut leads there too, and so
/// does one in which a list of pieces stands in the place of the whole.
pub fn how_bytes_are_cut_does_not_matter()
    ensures same { (g : Setting) (es fs : List Entry) (x y : Told) → HaveSameBytes es fs → Leads g es x → Leads g fs y → x ≡ y }
    ensures cut { (g : Setting) (es fs : List Entry) (x : Told) → IsCut es fs → Leads g es x → Leads g fs x }
    ensures pieces { (g : Setting) (front back : List Entry) (p : List ℕ) (ps : List (List ℕ)) (x : Told) → AllByRecursion (λ q. is_some_bytes q ≡ true) (p ∷ ps)
        → Leads g (front ++ fed (flat_map (λ q. q) (p ∷ ps)) ∷ back) x → Leads g (front ++ (map fed (p ∷ ps) ++ back)) x }
{}
