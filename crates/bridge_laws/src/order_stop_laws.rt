//! The law of the order in which `answer` works.
ghost use Rattle.std.specs.Prelude.{◌≡◌, ℕ, List, [], None, Some};
ghost use Rattle.bridge_model.specs.Orders.{Working, begins_work, works_once, works};
ghost use Rattle.bridge_model.specs.Settings.{Setting};
ghost use Rattle.bridge_laws.specs.Living.{plan_constants};
ghost use Rattle.bridge_laws.specs.Reaching.{IsReached, IsOver};
ghost use Rattle.bridge_laws.specs.RootConstants.{root_constants};

/// The order of `answer` stops only where nothing can be done: each entry that it makes may stand.
pub fn the_order_stops_only_where_nothing_can_be_done()
    ensures stops { (g : Setting) (bytes : List ℕ) (w : Working) → plan_constants g.plan ≡ [] → root_constants g.plan ≡ [] → IsReached g bytes w → works_once g w ≡ None → IsOver g w }
    ensures ends { (g : Setting) (bytes : List ℕ) (n : ℕ) (last : Working) → plan_constants g.plan ≡ [] → root_constants g.plan ≡ []
        → works n g (begins_work g bytes) ≡ Some last → IsOver g last }
{}
