//! Laws of circles among names: each function has an empty body, and its clause is the law.
ghost use Rattle.std.specs.Prelude.{◌≡◌, ◌+◌, ℕ, true, List, length};
ghost use Rattle.uno_model.specs.Circles.{Leads, HasNoCircle, HasAll, ends_within};

/// A name all of whose ways end stands on no circle.
pub fn what_ends_has_no_circle()
    ensures { (next : List ℕ → List (List ℕ)) (d : ℕ) (a : List ℕ) → ends_within next d a ≡ true → Leads next a a → ⊥ }
{}

/// Where there is no circle, each way from a name ends within as many steps as there are names that lead anywhere.
pub fn without_circles_all_ways_end()
    ensures { (next : List ℕ → List (List ℕ)) (left : List (List ℕ)) (a : List ℕ) → HasNoCircle next → HasAll next left a
        → ends_within next (length left + 1) a ≡ true }
{}
