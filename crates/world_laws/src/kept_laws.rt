//! The law of two joined ends, over every history on bytes: the function has an empty body, and its clause is the law.
ghost use Rattle.std.specs.Prelude.{List};
ghost use Rattle.world_laws.specs.Kept.{BothKeep};
ghost use Rattle.world_laws.specs.Ready.{AreReady, BothGiveWell};
ghost use Rattle.world_model.specs.Worlds.{Settings, World, Event, Runs};

/// Whatever the order of calls, releases, callbacks, pieces of bytes and ends: an object that was sent out and comes home is itself, no object that the other end holds is gone,
/// no message is refused, and each answer is the call's own, or the bridge was disposed, or its stream ended or failed.
pub fn what_two_joined_ends_keep()
    ensures { (g : Settings) → AreReady g → (es : List Event) → BothGiveWell g es → (w : World) → Runs g es w → BothKeep g es w }
{}
