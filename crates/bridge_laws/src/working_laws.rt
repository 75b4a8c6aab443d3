//! What keeps an end in the order of `answer`: each function has an empty body, and its clauses are the law.
ghost use Rattle.std.specs.Prelude.{◌≡◌, ◌||◌, ℕ, true, false, List, [], ◌∷◌, ◌++◌, length, drop, None, Some};
ghost use Rattle.plan_model.specs.Roots.{Run};
ghost use Rattle.bridge_model.specs.Answers.{ready_at, may_reap, drained_next, next_cut};
ghost use Rattle.bridge_model.specs.Entries.{Entry, fed, ended, applied, reaped, drained, full};
ghost use Rattle.bridge_model.specs.Histories.{Told, nothing_told, tells};
ghost use Rattle.bridge_model.specs.Orders.{first_runs, root_move, or_full, most_drained, IsAnswered};
ghost use Rattle.bridge_model.specs.Settings.{Setting};
ghost use Rattle.bridge_model.specs.Sides.{stands};
ghost use Rattle.bridge_model.specs.Steps.{has_entries, has_fed};
ghost use Rattle.bridge_laws.specs.Working.{AllIsDone, IsDone, IsInOrder};

/// An end to which nothing was told, with roots at their beginning, is in order.
pub fn an_end_begins_in_order()
    ensures { (g : Setting) (bytes : List ℕ) → IsInOrder g bytes (nothing_told g) (first_runs 1 g.plan.threads) bytes }
{}

/// It stays so where it does the first thing that can be done: a statement of the oldest method that is ready; else a move of the lowest root that moves, with an entry or
/// without one; else it reaps the lowest object that may go; else it drains the next bytes, so many at most.
pub fn what_is_done_first_keeps_the_order()
    ensures methods { (g : Setting) (bytes : List ℕ) (t u : Told) (runs : List Run) (rest : List ℕ) → IsInOrder g bytes t runs rest → (tid : List ℕ)
        → ready_at t.side 0 ≡ Some tid → tells g t (or_full t.side (applied tid)) ≡ Some u → IsInOrder g bytes u runs rest }
    ensures roots { (g : Setting) (bytes : List ℕ) (t u : Told) (runs next : List Run) (rest : List ℕ) → IsInOrder g bytes t runs rest → ready_at t.side 0 ≡ None
        → (e : Entry) → root_move g t.side runs ≡ Some (record { runs = next; entry = Some e }) → tells g t e ≡ Some u → IsInOrder g bytes u next rest }
    ensures quiet_roots { (g : Setting) (bytes : List ℕ) (t : Told) (runs next : List Run) (rest : List ℕ) → IsInOrder g bytes t runs rest → ready_at t.side 0 ≡ None
        → root_move g t.side runs ≡ Some (record { runs = next; entry = None }) → IsInOrder g bytes t next rest }
    ensures objects { (g : Setting) (bytes : List ℕ) (t u : Told) (runs : List Run) (rest : List ℕ) → IsInOrder g bytes t runs rest → ready_at t.side 0 ≡ None
        → root_move g t.side runs ≡ None → (n : ℕ) → may_reap g t.side ≡ Some n → tells g t (reaped n) ≡ Some u → IsInOrder g bytes u runs rest }
    ensures bytes { (g : Setting) (bytes : List ℕ) (t u : Told) (runs : List Run) (rest : List ℕ) → IsInOrder g bytes t runs rest → ready_at t.side 0 ≡ None
        → root_move g t.side runs ≡ None → may_reap g t.side ≡ None → (b : ℕ) (more : List ℕ) → drained_next g most_drained t.side ≡ b ∷ more
        → tells g t (drained (b ∷ more)) ≡ Some u → IsInOrder g bytes u runs rest }
{}

/// Where all of that is done and the bridge stands, it stays in order where it feeds a piece, which may be any front of the rest, up to where it may be cut; where it is full; and
/// where the input ends behind the last byte.
pub fn what_is_fed_keeps_the_order()
    ensures feeds { (g : Setting) (bytes : List ℕ) (t u : Told) (runs : List Run) (b : ℕ) (piece more : List ℕ) → IsInOrder g bytes t runs (b ∷ piece ++ more)
        → AllIsDone g t.side runs → stands t.side ≡ true → has_entries t.side ≡ false → has_fed t.side ≡ false → tells g t (fed (next_cut t.side (b ∷ piece))) ≡ Some u
        → IsInOrder g bytes u runs (drop (length (next_cut t.side (b ∷ piece))) (b ∷ piece) ++ more) }
    ensures fills { (g : Setting) (bytes : List ℕ) (t u : Told) (runs : List Run) (b : ℕ) (rest : List ℕ) → IsInOrder g bytes t runs (b ∷ rest)
        → AllIsDone g t.side runs → stands t.side ≡ true → (has_entries t.side || has_fed t.side) ≡ true → tells g t full ≡ Some u → IsInOrder g bytes u runs (b ∷ rest) }
    ensures ends { (g : Setting) (bytes : List ℕ) (t u : Told) (runs : List Run) → IsInOrder g bytes t runs [] → AllIsDone g t.side runs → stands t.side ≡ true
        → tells g t ended ≡ Some u → IsInOrder g bytes u runs [] }
{}

/// Where nothing can be done any more and the bridge has ended, the order is done, and what went out is the answer to the bytes.
pub fn what_is_written_in_order_is_the_answer()
    ensures done { (g : Setting) (bytes : List ℕ) (t : Told) (runs : List Run) (rest : List ℕ) → IsInOrder g bytes t runs rest → AllIsDone g t.side runs
        → stands t.side ≡ false → IsDone g bytes t }
    ensures answered { (g : Setting) (bytes : List ℕ) (t : Told) → IsDone g bytes t → IsAnswered g bytes t.bytes_out }
{}

/// Behind all bytes the order comes to rest once: where all is done and the bridge stands.
pub fn the_order_rests_once_behind_all_bytes()
    ensures { (g : Setting) (bytes : List ℕ) (t u : Told) (runs next : List Run) → IsInOrder g bytes t runs [] → AllIsDone g t.side runs → stands t.side ≡ true
        → IsInOrder g bytes u next [] → AllIsDone g u.side next → stands u.side ≡ true → t ≡ u }
{}
