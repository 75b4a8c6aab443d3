//! Laws of every run of two joined ends that are ready, whose roots give what may be said and carried: each function has an empty body, and its clauses are the law.
ghost use Rattle.std.specs.List.{AllByRecursion};
ghost use Rattle.std.specs.Prelude.{◌≡◌, ℕ, true, List, ◌∷◌};
ghost use Rattle.bridge_model.specs.Sides.{stands};
ghost use Rattle.bridge_model.specs.declared.cause.Cause.TheVariants as cause;
ghost use Rattle.message_model.specs.Messages.{Message};
ghost use Rattle.message_model.specs.Sayable.{MessageSpellable};
ghost use Rattle.world_model.specs.Flights.{flight};
ghost use Rattle.world_model.specs.Meetings.{Meets};
ghost use Rattle.world_model.specs.Readings.{MayArrive, ArrivesWithItsBlock, IsSynced};
ghost use Rattle.world_model.specs.Worlds.{Settings, of_a, of_b, World, Event, Runs, entries_of};
ghost use Rattle.world_model.specs.declared.side.Side.TheVariants.{A, B};
ghost use Rattle.bridge_laws.specs.Ending.{HasEnd};
ghost use Rattle.urp_model.specs.declared.reason.Reason.{Reason};
ghost use Rattle.world_laws.specs.Ready.{AreReady, BothGiveWell};

/// All that was said can be carried by bytes.
pub fn what_was_said_can_be_carried()
    ensures a { (g : Settings) → AreReady g → (es : List Event) (w : World) → Meets g es w → BothGiveWell g es → AllByRecursion MessageSpellable w.a.now.said }
    ensures b { (g : Settings) → AreReady g → (es : List Event) (w : World) → Meets g es w → BothGiveWell g es → AllByRecursion MessageSpellable w.b.now.said }
{}

/// The first message in flight to an end that stands is read, awaited and not refused.
pub fn the_first_message_in_flight_may_arrive()
    ensures a { (g : Settings) → AreReady g → (es : List Event) (w : World) → Meets g es w → BothGiveWell g es → stands w.a.now.side ≡ true
        → (m : Message) (ms : List Message) → flight w.b.now w.a.now ≡ m ∷ ms → MayArrive (of_a g) w.a.now m }
    ensures b { (g : Settings) → AreReady g → (es : List Event) (w : World) → Meets g es w → BothGiveWell g es → stands w.b.now.side ≡ true
        → (m : Message) (ms : List Message) → flight w.a.now w.b.now ≡ m ∷ ms → MayArrive (of_b g) w.b.now m }
{}

/// And it comes with the rest of its block, which is the next of what the other end said; an end that has room may be fed it.
pub fn the_first_message_in_flight_arrives_with_its_block()
    ensures a { (g : Settings) → AreReady g → (es : List Event) → BothGiveWell g es → (w : World) → Runs g es w → stands w.a.now.side ≡ true
        → (m : Message) (ms : List Message) → flight w.b.now w.a.now ≡ m ∷ ms → ArrivesWithItsBlock (of_a g) w.b.now w.a.now m }
    ensures b { (g : Settings) → AreReady g → (es : List Event) → BothGiveWell g es → (w : World) → Runs g es w → stands w.b.now.side ≡ true
        → (m : Message) (ms : List Message) → flight w.a.now w.b.now ≡ m ∷ ms → ArrivesWithItsBlock (of_b g) w.a.now w.b.now m }
{}

/// Every history on bytes is a run of messages: what came is a front of what was said, in bytes and as it arrives.
pub fn every_history_is_a_run_of_messages()
    ensures met { (g : Settings) → AreReady g → (es : List Event) → BothGiveWell g es → (w : World) → Runs g es w → Meets g es w }
    ensures there { (g : Settings) → AreReady g → (es : List Event) → BothGiveWell g es → (w : World) → Runs g es w → IsSynced g.registry w.a.now w.b.now }
    ensures back { (g : Settings) → AreReady g → (es : List Event) → BothGiveWell g es → (w : World) → Runs g es w → IsSynced g.registry w.b.now w.a.now }
{}

/// No bridge is ever broken by what the other end said: no entry of either journal ends it so.
pub fn no_bridge_is_ever_broken()
    ensures a { (g : Settings) → AreReady g → (es : List Event) → BothGiveWell g es → (w : World) → Runs g es w
        → (why : Reason) (place : ℕ) → HasEnd (of_a g) (entries_of A es) (cause.Broken why place) → ⊥ }
    ensures b { (g : Settings) → AreReady g → (es : List Event) → BothGiveWell g es → (w : World) → Runs g es w
        → (why : Reason) (place : ℕ) → HasEnd (of_b g) (entries_of B es) (cause.Broken why place) → ⊥ }
{}
