//! The law of the answers that cross.
ghost use Rattle.std.specs.Prelude.{◌≡◌, ℕ, ◌<◌, ◌^◌, true, List, [], ◌∷◌, ◌++◌, length};
ghost use Rattle.bridge_model.specs.Entries.{Entry};
ghost use Rattle.bridge_model.specs.Sides.{stands};
ghost use Rattle.message_model.specs.Sayable.{arrived};
ghost use Rattle.message_model.specs.Messages.{Message, Answer, reply};
ghost use Rattle.world_laws.specs.Calls.{IsAnswerOfCall, IsHanded};
ghost use Rattle.world_model.specs.Flights.{flight};
ghost use Rattle.world_model.specs.Meetings.{Moves, Meets};
ghost use Rattle.world_model.specs.Worlds.{Settings, of_a, of_b, AreJoined, End, World, Event};
ghost use Rattle.world_model.specs.declared.side.Side.TheVariants.{A, B};

/// In every run each reply in flight is the answer of the call on top of its thread: that call was on top when the other end ended it so.
pub fn a_reply_is_the_answer_of_the_call_on_top()
    ensures a { (g : Settings) → AreJoined (of_a g) (of_b g) → length g.a.plan.threads < 2 ^ 64 → length g.b.plan.threads < 2 ^ 64 → (es : List Event) (w : World) → Meets g es w
        → (tid face : List ℕ) (function : ℕ) (a : Answer) (front rest : List Message) → flight w.b.last w.a.last ≡ front ++ reply tid face function a ∷ rest
        → IsAnswerOfCall g A es w tid face function a }
    ensures b { (g : Settings) → AreJoined (of_a g) (of_b g) → length g.a.plan.threads < 2 ^ 64 → length g.b.plan.threads < 2 ^ 64 → (es : List Event) (w : World) → Meets g es w
        → (tid face : List ℕ) (function : ℕ) (a : Answer) (front rest : List Message) → flight w.a.last w.b.last ≡ front ++ reply tid face function a ∷ rest
        → IsAnswerOfCall g B es w tid face function a }
{}

/// In every run a reply that comes is the answer of the call on top of its thread, and is handed to the frame below that call: a root below it has it as its outcome, a
/// method below it goes on with it or ends with the exception.
pub fn a_reply_that_comes_is_handed_to_the_frame_below_its_call()
    ensures a { (g : Settings) → AreJoined (of_a g) (of_b g) → length g.a.plan.threads < 2 ^ 64 → length g.b.plan.threads < 2 ^ 64 → (es : List Event) (w : World) → Meets g es w
        → (e : Entry) (after : End) (m : Moves (of_a g) w.a w.b e after) → stands m.turn.side ≡ true → (tid face : List ℕ) (function : ℕ) (a : Answer) (ms : List Message)
        → flight w.b.now w.a.now ≡ reply tid face function a ∷ ms → m.turn.got ≡ arrived g.registry (reply tid face function a) ∷ [] → IsHanded g A es w m.turn tid face function a }
    ensures b { (g : Settings) → AreJoined (of_a g) (of_b g) → length g.a.plan.threads < 2 ^ 64 → length g.b.plan.threads < 2 ^ 64 → (es : List Event) (w : World) → Meets g es w
        → (e : Entry) (after : End) (m : Moves (of_b g) w.b w.a e after) → stands m.turn.side ≡ true → (tid face : List ℕ) (function : ℕ) (a : Answer) (ms : List Message)
        → flight w.a.now w.b.now ≡ reply tid face function a ∷ ms → m.turn.got ≡ arrived g.registry (reply tid face function a) ∷ [] → IsHanded g B es w m.turn tid face function a }
{}
