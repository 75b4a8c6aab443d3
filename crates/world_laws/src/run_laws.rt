//! Histories of a world on bytes and of its messages: each function has an empty body, and its clauses are the law.
ghost use Rattle.std.specs.Prelude.{◌≡◌, List, ◌++◌};
ghost use Rattle.bridge_model.specs.Histories.{Leads};
ghost use Rattle.uno_model.specs.Sound.{IsSound};
ghost use Rattle.world_model.specs.Meetings.{Meets};
ghost use Rattle.world_model.specs.Readings.{IsSynced, MayAllArrive};
ghost use Rattle.world_model.specs.Worlds.{Settings, of_a, of_b, IsAsItStood, World, Event, Runs, entries_of};
ghost use Rattle.world_model.specs.declared.side.Side.TheVariants.{A, B};

/// Every history on bytes is a run of messages: what came is a front of what was said, in bytes and as it arrives. It holds where the first message in
/// flight may come at each end that stands, wherever a front of the history leads by messages.
pub fn a_history_of_bytes_is_a_run_of_messages()
    ensures met { (g : Settings) → IsSound g.registry → (es : List Event) → ((front rest : List Event) (v : World) → front ++ rest ≡ es → Meets g front v → MayAllArrive g v) → (w : World) → Runs g es w → Meets g es w }
    ensures there { (g : Settings) → IsSound g.registry → (es : List Event) → ((front rest : List Event) (v : World) → front ++ rest ≡ es → Meets g front v → MayAllArrive g v) → (w : World) → Runs g es w
        → IsSynced g.registry w.a.now w.b.now }
    ensures back { (g : Settings) → IsSound g.registry → (es : List Event) → ((front rest : List Event) (v : World) → front ++ rest ≡ es → Meets g front v → MayAllArrive g v) → (w : World) → Runs g es w
        → IsSynced g.registry w.b.now w.a.now }
{}

/// Each end of a run of messages replays its own entries.
pub fn each_end_replays_its_entries()
    ensures a { (g : Settings) (es : List Event) (w : World) → Meets g es w → Leads (of_a g) (entries_of A es) w.a.now }
    ensures b { (g : Settings) (es : List Event) (w : World) → Meets g es w → Leads (of_b g) (entries_of B es) w.b.now }
{}

/// An end that has ended is read as it last stood: a front of its entries leads there, where it stands, and it said and got nothing behind that; one that stands is read as it is.
pub fn an_end_is_read_as_it_last_stood()
    ensures a { (g : Settings) (es : List Event) (w : World) → Meets g es w → IsAsItStood (of_a g) (entries_of A es) w.a }
    ensures b { (g : Settings) (es : List Event) (w : World) → Meets g es w → IsAsItStood (of_b g) (entries_of B es) w.b }
{}
