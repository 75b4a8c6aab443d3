//! Interlock over every run of messages, and what it says of messages that arrive: each function has an empty body, and its clauses are the law.
ghost use Rattle.std.specs.Prelude.{◌≡◌, ℕ, ◌<◌, ◌^◌, true, false, List, ◌∷◌, length, Some, ◌⊎◌};
ghost use Rattle.bridge_model.specs.Settings.{is_own};
ghost use Rattle.bridge_model.specs.Sides.{stands};
ghost use Rattle.bridge_model.specs.Stacks.{waits_of, has_stack, is_busy};
ghost use Rattle.message_model.specs.Messages.{Message, Answer, request, reply};
ghost use Rattle.message_model.specs.Calls.{waiting};
ghost use Rattle.uno_model.specs.Values.{Plain};
ghost use Rattle.world_model.specs.Flights.{flight};
ghost use Rattle.world_model.specs.Meetings.{Meets};
ghost use Rattle.world_model.specs.Threads.{Interlock, IsNowhere};
ghost use Rattle.world_model.specs.Worlds.{Settings, of_a, of_b, AreJoined, World, Event};

/// In every run of messages each thread is one that goes from end to end: both stacks and the messages in flight are its views. What begins a thread is told by its name, which
/// either end may ask: so a name that neither gave is that of a thread which is idle.
pub fn interlock_holds_in_every_run()
    ensures a { (g : Settings) → AreJoined (of_a g) (of_b g) → length g.a.plan.threads < 2 ^ 64 → length g.b.plan.threads < 2 ^ 64 → (es : List Event) (w : World) → Meets g es w
        → Interlock (is_own (of_a g)) w.a.last w.b.last }
    ensures b { (g : Settings) → AreJoined (of_a g) (of_b g) → length g.a.plan.threads < 2 ^ 64 → length g.b.plan.threads < 2 ^ 64 → (es : List Event) (w : World) → Meets g es w
        → Interlock (is_own (of_b g)) w.b.last w.a.last }
{}

/// A reply that arrives meets the call that it answers, which waits at the top of its thread.
pub fn a_reply_that_arrives_is_awaited()
    ensures a { (g : Settings) → AreJoined (of_a g) (of_b g) → length g.a.plan.threads < 2 ^ 64 → length g.b.plan.threads < 2 ^ 64 → (es : List Event) (w : World) → Meets g es w
        → (tid face : List ℕ) (function : ℕ) (answer : Answer) (ms : List Message) → flight w.b.last w.a.last ≡ reply tid face function answer ∷ ms
        → waiting tid (waits_of w.a.last.side.stacks) ≡ Some (record { face = face; function = function }) }
    ensures b { (g : Settings) → AreJoined (of_a g) (of_b g) → length g.a.plan.threads < 2 ^ 64 → length g.b.plan.threads < 2 ^ 64 → (es : List Event) (w : World) → Meets g es w
        → (tid face : List ℕ) (function : ℕ) (answer : Answer) (ms : List Message) → flight w.a.last w.b.last ≡ reply tid face function answer ∷ ms
        → waiting tid (waits_of w.b.last.side.stacks) ≡ Some (record { face = face; function = function }) }
{}

/// A request that arrives finds no method of its thread at work: there is no stack, or a call waits at its top; and where this end gave the thread its name, there is a stack.
pub fn a_request_that_arrives_finds_its_thread_waiting()
    ensures idle_a { (g : Settings) → AreJoined (of_a g) (of_b g) → length g.a.plan.threads < 2 ^ 64 → length g.b.plan.threads < 2 ^ 64 → (es : List Event) (w : World) → Meets g es w
        → (tid oid face : List ℕ) (function : ℕ) (args : List Plain) (ms : List Message) → flight w.b.last w.a.last ≡ request tid oid face function args ∷ ms
        → is_busy tid w.a.last.side.stacks ≡ false }
    ensures known_a { (g : Settings) → AreJoined (of_a g) (of_b g) → length g.a.plan.threads < 2 ^ 64 → length g.b.plan.threads < 2 ^ 64 → (es : List Event) (w : World) → Meets g es w
        → (tid oid face : List ℕ) (function : ℕ) (args : List Plain) (ms : List Message) → flight w.b.last w.a.last ≡ request tid oid face function args ∷ ms
        → is_own (of_a g) tid ≡ true → has_stack tid w.a.last.side.stacks ≡ true }
    ensures idle_b { (g : Settings) → AreJoined (of_a g) (of_b g) → length g.a.plan.threads < 2 ^ 64 → length g.b.plan.threads < 2 ^ 64 → (es : List Event) (w : World) → Meets g es w
        → (tid oid face : List ℕ) (function : ℕ) (args : List Plain) (ms : List Message) → flight w.a.last w.b.last ≡ request tid oid face function args ∷ ms
        → is_busy tid w.b.last.side.stacks ≡ false }
    ensures known_b { (g : Settings) → AreJoined (of_a g) (of_b g) → length g.a.plan.threads < 2 ^ 64 → length g.b.plan.threads < 2 ^ 64 → (es : List Event) (w : World) → Meets g es w
        → (tid oid face : List ℕ) (function : ℕ) (args : List Plain) (ms : List Message) → flight w.a.last w.b.last ≡ request tid oid face function args ∷ ms
        → is_own (of_b g) tid ≡ true → has_stack tid w.b.last.side.stacks ≡ true }
{}

/// A thread of which neither end gave the name is nowhere: it has no stack, and no request or reply of it is on its way.
pub fn a_thread_of_neither_end_is_nowhere()
    ensures { (g : Settings) → AreJoined (of_a g) (of_b g) → length g.a.plan.threads < 2 ^ 64 → length g.b.plan.threads < 2 ^ 64 → (es : List Event) (w : World) → Meets g es w
        → (tid : List ℕ) → is_own (of_a g) tid ≡ false → is_own (of_b g) tid ≡ false → IsNowhere tid w.a.last w.b.last }
{}
