//! The law of what is paid by an end that stands: its function has an empty body, and its clause is the law.
ghost use Rattle.std.specs.Prelude.{◌≡◌, ◌+◌, List, [], true, false};
ghost use Rattle.bridge_laws.specs.Counting.{total, one_if, brings, releases_of};
ghost use Rattle.bridge_laws.specs.Living.{plan_constants};
ghost use Rattle.bridge_model.specs.Entries.{Entry};
ghost use Rattle.bridge_model.specs.Histories.{Told, Leads};
ghost use Rattle.bridge_model.specs.References.{is_held};
ghost use Rattle.bridge_model.specs.Settings.{Setting, is_own};
ghost use Rattle.bridge_model.specs.Sides.{stands};
ghost use Rattle.table_model.specs.Pair.{Pair};

/// A pair of the peer's came as often as it was released, and once more where it is held, where the constants of the plan refer to nothing.
pub fn what_came_is_held_or_released()
    ensures { (g : Setting) (es : List Entry) (x : Told) (p : Pair) → plan_constants g.plan ≡ [] → Leads g es x → stands x.side ≡ true
        → is_own g p.oid ≡ false → total (brings g p) x.got ≡ one_if (is_held p.oid p.face x.side.tables) + total (releases_of p) x.said }
{}
