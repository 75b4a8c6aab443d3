//! Balance and Standing over every run of messages, whatever the order, and of each end as it last stood: each function has an empty body, and its clauses are the law.
ghost use Rattle.std.specs.Prelude.{◌≡◌, ℕ, ◌≤◌, true, false, List, ◌∷◌, is_some};
ghost use Rattle.bridge_laws.specs.Counting.{total, brings, releases_of};
ghost use Rattle.bridge_laws.specs.Living.{lives};
ghost use Rattle.bridge_model.specs.Objects.{object_supports};
ghost use Rattle.bridge_laws.specs.Standing.{uses};
ghost use Rattle.bridge_model.specs.References.{is_held};
ghost use Rattle.bridge_model.specs.Settings.{is_own};
ghost use Rattle.message_model.specs.Messages.{Message};
ghost use Rattle.table_model.specs.Pair.{Pair};
ghost use Rattle.table_model.specs.Stubs.{stub};
ghost use Rattle.world_model.specs.Balances.{Balance, Standing};
ghost use Rattle.world_model.specs.Flights.{flight};
ghost use Rattle.world_model.specs.Meetings.{Meets};
ghost use Rattle.world_model.specs.Setups.{AreSetUp, BothGive};
ghost use Rattle.world_model.specs.Worlds.{Settings, of_a, of_b, World, Event};

/// Of each pair of an end, what it sent is what was released, what is on its way, what the other holds, and the releases on their way.
pub fn balance_holds_in_every_run()
    ensures a { (g : Settings) → AreSetUp g → (es : List Event) (w : World) → Meets g es w → BothGive g es → Balance (of_a g) w.a.last w.b.last }
    ensures b { (g : Settings) → AreSetUp g → (es : List Event) (w : World) → Meets g es w → BothGive g es → Balance (of_b g) w.b.last w.a.last }
{}

/// A release that arrives is owed.
pub fn a_release_that_arrives_is_owed()
    ensures a { (g : Settings) → AreSetUp g → (es : List Event) (w : World) → Meets g es w → BothGive g es → (p : Pair) (m : Message) (ms : List Message) → is_own (of_a g) p.oid ≡ true
        → flight w.b.last w.a.last ≡ m ∷ ms → 1 ≤ releases_of p m → is_some (stub p w.a.last.side.tables.stubs) ≡ true }
    ensures b { (g : Settings) → AreSetUp g → (es : List Event) (w : World) → Meets g es w → BothGive g es → (p : Pair) (m : Message) (ms : List Message) → is_own (of_b g) p.oid ≡ true
        → flight w.a.last w.b.last ≡ m ∷ ms → 1 ≤ releases_of p m → is_some (stub p w.b.last.side.tables.stubs) ≡ true }
{}

/// What a message that arrives uses of the end's own has a stub, as target, argument, result or exception.
pub fn an_own_object_that_arrives_has_a_stub()
    ensures a { (g : Settings) → AreSetUp g → (es : List Event) (w : World) → Meets g es w → BothGive g es → (p : Pair) (m : Message) (ms : List Message) → is_own (of_a g) p.oid ≡ true
        → flight w.b.last w.a.last ≡ m ∷ ms → 1 ≤ uses p m → is_some (stub p w.a.last.side.tables.stubs) ≡ true }
    ensures b { (g : Settings) → AreSetUp g → (es : List Event) (w : World) → Meets g es w → BothGive g es → (p : Pair) (m : Message) (ms : List Message) → is_own (of_b g) p.oid ≡ true
        → flight w.a.last w.b.last ≡ m ∷ ms → 1 ≤ uses p m → is_some (stub p w.b.last.side.tables.stubs) ≡ true }
{}

/// The object of a pair that the other end holds has a stub: it is not reaped while both ends stand.
pub fn a_held_pair_has_a_stub()
    ensures a { (g : Settings) → AreSetUp g → (es : List Event) (w : World) → Meets g es w → BothGive g es → (p : Pair) → is_own (of_a g) p.oid ≡ true
        → is_held p.oid p.face w.b.last.side.tables ≡ true → is_some (stub p w.a.last.side.tables.stubs) ≡ true }
    ensures b { (g : Settings) → AreSetUp g → (es : List Event) (w : World) → Meets g es w → BothGive g es → (p : Pair) → is_own (of_b g) p.oid ≡ true
        → is_held p.oid p.face w.a.last.side.tables ≡ true → is_some (stub p w.b.last.side.tables.stubs) ≡ true }
{}

/// Behind each message in flight that uses a pair stands a release of it, or the end that said it holds the pair.
pub fn standing_holds_in_every_run()
    ensures a { (g : Settings) → AreSetUp g → (es : List Event) (w : World) → Meets g es w → BothGive g es → Standing (of_a g) w.a.last w.b.last }
    ensures b { (g : Settings) → AreSetUp g → (es : List Event) (w : World) → Meets g es w → BothGive g es → Standing (of_b g) w.b.last w.a.last }
{}

/// The object of a pair that the other end holds lives, while both ends stand.
pub fn the_object_of_a_held_pair_lives()
    ensures a { (g : Settings) → AreSetUp g → (es : List Event) (w : World) → Meets g es w → BothGive g es → (p : Pair) → is_own (of_a g) p.oid ≡ true
        → is_held p.oid p.face w.b.last.side.tables ≡ true → lives (of_a g) w.a.last.side.tables.objects p.oid ≡ true }
    ensures b { (g : Settings) → AreSetUp g → (es : List Event) (w : World) → Meets g es w → BothGive g es → (p : Pair) → is_own (of_b g) p.oid ≡ true
        → is_held p.oid p.face w.a.last.side.tables ≡ true → lives (of_b g) w.b.last.side.tables.objects p.oid ≡ true }
{}

/// It supports the interface of the pair.
pub fn the_object_of_a_held_pair_supports_it()
    ensures a { (g : Settings) → AreSetUp g → (es : List Event) (w : World) → Meets g es w → BothGive g es → (p : Pair) → is_own (of_a g) p.oid ≡ true
        → is_held p.oid p.face w.b.last.side.tables ≡ true → object_supports (of_a g) p.oid p.face w.a.last.side.tables.objects ≡ true }
    ensures b { (g : Settings) → AreSetUp g → (es : List Event) (w : World) → Meets g es w → BothGive g es → (p : Pair) → is_own (of_b g) p.oid ≡ true
        → is_held p.oid p.face w.a.last.side.tables ≡ true → object_supports (of_b g) p.oid p.face w.b.last.side.tables.objects ≡ true }
{}

/// A name that neither end gave is brought to neither: it is called only to ask for an export, and never released.
pub fn a_name_of_neither_end_is_never_brought()
    ensures a { (g : Settings) → AreSetUp g → (es : List Event) (w : World) → Meets g es w → BothGive g es → (p : Pair) → is_own (of_a g) p.oid ≡ false → is_own (of_b g) p.oid ≡ false
        → (total (brings (of_a g) p) w.a.now.got ≡ 0) × (total (uses p) w.a.now.said ≡ 0) × (total (releases_of p) w.a.now.said ≡ 0) }
    ensures b { (g : Settings) → AreSetUp g → (es : List Event) (w : World) → Meets g es w → BothGive g es → (p : Pair) → is_own (of_a g) p.oid ≡ false → is_own (of_b g) p.oid ≡ false
        → (total (brings (of_b g) p) w.b.now.got ≡ 0) × (total (uses p) w.b.now.said ≡ 0) × (total (releases_of p) w.b.now.said ≡ 0) }
{}

/// What an end holds and did not give is the other's: it keeps a stub of the pair, and the object lives there, while both ends stand.
pub fn no_proxys_object_is_gone()
    ensures a { (g : Settings) → AreSetUp g → (es : List Event) (w : World) → Meets g es w → BothGive g es → (p : Pair) → is_own (of_b g) p.oid ≡ false → is_held p.oid p.face w.b.last.side.tables ≡ true
        → (is_own (of_a g) p.oid ≡ true) × (is_some (stub p w.a.last.side.tables.stubs) ≡ true) × (lives (of_a g) w.a.last.side.tables.objects p.oid ≡ true) }
    ensures b { (g : Settings) → AreSetUp g → (es : List Event) (w : World) → Meets g es w → BothGive g es → (p : Pair) → is_own (of_a g) p.oid ≡ false → is_held p.oid p.face w.a.last.side.tables ≡ true
        → (is_own (of_b g) p.oid ≡ true) × (is_some (stub p w.b.last.side.tables.stubs) ≡ true) × (lives (of_b g) w.b.last.side.tables.objects p.oid ≡ true) }
{}
