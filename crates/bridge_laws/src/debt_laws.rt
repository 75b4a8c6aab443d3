//! Laws of the debt of an end that stands: each function has an empty body, and its clause is the law.
ghost use Rattle.std.specs.Prelude.{◌≡◌, ◌+◌, ◌<◌, ◌↔◌, List, is_some, IfSome, true};
ghost use Rattle.bridge_laws.specs.Counting.{total, places, releases_of, owed_by};
ghost use Rattle.bridge_model.specs.Entries.{Entry};
ghost use Rattle.bridge_model.specs.Histories.{Told, Leads};
ghost use Rattle.bridge_model.specs.Settings.{Setting};
ghost use Rattle.bridge_model.specs.Sides.{stands};
ghost use Rattle.table_model.specs.Pair.{Pair};
ghost use Rattle.table_model.specs.Stubs.{stub, IsOwed};

/// What was sent of a pair is what was released of it and what its stub owes.
pub fn what_was_sent_is_released_or_owed()
    ensures { (g : Setting) (es : List Entry) (x : Told) (p : Pair) → Leads g es x → stands x.side ≡ true
        → total (places g.registry p) x.said ≡ total (releases_of p) x.got + owed_by (stub p x.side.tables.stubs) }
{}

/// Each stub owes something.
pub fn a_stub_is_owed()
    ensures { (g : Setting) (es : List Entry) (x : Told) (p : Pair) → Leads g es x → stands x.side ≡ true → IfSome (stub p x.side.tables.stubs) IsOwed }
{}

/// A pair has a stub exactly where more was sent of it than was released.
pub fn a_stub_is_there_where_something_is_owed()
    ensures { (g : Setting) (es : List Entry) (x : Told) (p : Pair) → Leads g es x → stands x.side ≡ true
        → is_some (stub p x.side.tables.stubs) ≡ true ↔ total (releases_of p) x.got < total (places g.registry p) x.said }
{}
