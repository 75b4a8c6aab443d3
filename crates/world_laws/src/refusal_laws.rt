//! No message that arrives is refused: each function has an empty body, and its clauses are the law.
ghost use Rattle.std.specs.Prelude.{◌≡◌, true, List, ◌∷◌, None};
ghost use Rattle.std.specs.List.{AllByRecursion};
ghost use Rattle.bridge_model.specs.Receiving.{refusal};
ghost use Rattle.bridge_model.specs.Sides.{stands};
ghost use Rattle.message_model.specs.MessageNamings.{message_values};
ghost use Rattle.message_model.specs.Messages.{Message};
ghost use Rattle.message_model.specs.Sayable.{arrived, MessageSpellable};
ghost use Rattle.uno_model.specs.Values.{refs_in};
ghost use Rattle.world_model.specs.Flights.{flight};
ghost use Rattle.world_model.specs.Meetings.{Meets};
ghost use Rattle.world_model.specs.Offers.{NamesRight, ComesHome};
ghost use Rattle.world_model.specs.Readings.{MayArrive};
ghost use Rattle.world_model.specs.Setups.{AreSetUp, BothGive};
ghost use Rattle.world_model.specs.Worlds.{Settings, of_a, of_b, World, Event};

/// What arrives names what was sent out: a release is owed, a target has a stub or is asked for by a name, and own objects in values have stubs and support the interfaces at their places.
pub fn what_arrives_names_what_was_sent_out()
    ensures a { (g : Settings) → AreSetUp g → (es : List Event) (w : World) → Meets g es w → BothGive g es → stands w.a.now.side ≡ true
        → (m : Message) (ms : List Message) → flight w.b.now w.a.now ≡ m ∷ ms → NamesRight (of_a g) w.a.now.side (arrived g.registry m) }
    ensures b { (g : Settings) → AreSetUp g → (es : List Event) (w : World) → Meets g es w → BothGive g es → stands w.b.now.side ≡ true
        → (m : Message) (ms : List Message) → flight w.a.now w.b.now ≡ m ∷ ms → NamesRight (of_b g) w.b.now.side (arrived g.registry m) }
{}

/// A reference that comes home is itself: it is told as one of this end, was sent out, and its object lives and supports the interface that was written.
pub fn what_comes_home_is_itself()
    ensures a { (g : Settings) → AreSetUp g → (es : List Event) (w : World) → Meets g es w → BothGive g es → stands w.a.now.side ≡ true → (m : Message) (ms : List Message) → flight w.b.now w.a.now ≡ m ∷ ms
        → AllByRecursion (ComesHome (of_a g) w.a.now.side.tables) (refs_in (message_values (arrived g.registry m))) }
    ensures b { (g : Settings) → AreSetUp g → (es : List Event) (w : World) → Meets g es w → BothGive g es → stands w.b.now.side ≡ true → (m : Message) (ms : List Message) → flight w.a.now w.b.now ≡ m ∷ ms
        → AllByRecursion (ComesHome (of_b g) w.b.now.side.tables) (refs_in (message_values (arrived g.registry m))) }
{}

/// No message that arrives at an end that stands is refused.
pub fn no_message_is_refused()
    ensures a { (g : Settings) → AreSetUp g → (es : List Event) (w : World) → Meets g es w → BothGive g es → stands w.a.now.side ≡ true
        → (m : Message) (ms : List Message) → flight w.b.now w.a.now ≡ m ∷ ms → refusal (of_a g) w.a.now.side (arrived g.registry m) ≡ None }
    ensures b { (g : Settings) → AreSetUp g → (es : List Event) (w : World) → Meets g es w → BothGive g es → stands w.b.now.side ≡ true
        → (m : Message) (ms : List Message) → flight w.a.now w.b.now ≡ m ∷ ms → refusal (of_b g) w.b.now.side (arrived g.registry m) ≡ None }
{}

/// So it may arrive, where bytes can carry it.
pub fn what_can_be_carried_may_arrive()
    ensures a { (g : Settings) → AreSetUp g → (es : List Event) (w : World) → Meets g es w → BothGive g es → stands w.a.now.side ≡ true
        → (m : Message) (ms : List Message) → flight w.b.now w.a.now ≡ m ∷ ms → MessageSpellable m → MayArrive (of_a g) w.a.now m }
    ensures b { (g : Settings) → AreSetUp g → (es : List Event) (w : World) → Meets g es w → BothGive g es → stands w.b.now.side ≡ true
        → (m : Message) (ms : List Message) → flight w.a.now w.b.now ≡ m ∷ ms → MessageSpellable m → MayArrive (of_b g) w.b.now m }
{}
