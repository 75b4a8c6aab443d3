//! The law of the methods that serve calls of the other end.
ghost use Rattle.std.specs.Prelude.{◌<◌, ◌^◌, List, length};
ghost use Rattle.world_laws.specs.Serving.{EachServesItsCall};
ghost use Rattle.world_model.specs.Meetings.{Meets};
ghost use Rattle.world_model.specs.Worlds.{Settings, of_a, of_b, AreJoined, World, Event};
ghost use Rattle.world_model.specs.declared.side.Side.TheVariants.{A, B};

/// In every run each method that serves the other end began with the request of a call that waits there still, as deep in the thread: with that call's target, function and arguments,
/// as they arrive. Clause `a` says so of the calls of the first end, which the second serves.
pub fn each_method_that_serves_began_with_the_request_of_its_call()
    ensures a { (g : Settings) → AreJoined (of_a g) (of_b g) → length g.a.plan.threads < 2 ^ 64 → length g.b.plan.threads < 2 ^ 64 → (es : List Event) (w : World) → Meets g es w
        → EachServesItsCall g A es w }
    ensures b { (g : Settings) → AreJoined (of_a g) (of_b g) → length g.a.plan.threads < 2 ^ 64 → length g.b.plan.threads < 2 ^ 64 → (es : List Event) (w : World) → Meets g es w
        → EachServesItsCall g B es w }
{}
