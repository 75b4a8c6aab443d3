//! The law of the answers that roots have.
ghost use Rattle.std.specs.Prelude.{◌≡◌, ℕ, List};
ghost use Rattle.bridge_model.specs.Sides.{answer, answered, state_of};
ghost use Rattle.world_laws.specs.Roots.{IsOwn};
ghost use Rattle.message_model.specs.Messages.{Answer};
ghost use Rattle.world_model.specs.Meetings.{Meets};
ghost use Rattle.world_model.specs.Setups.{AreSetUp, BothGive};
ghost use Rattle.world_model.specs.Worlds.{Settings, World, Event};
ghost use Rattle.world_model.specs.declared.side.Side.TheVariants.{A, B};

/// In every run each answer of a root is its call's own: a statement of a method that was called here gave it, or the reply to the call on top of the root's thread, or it was known
/// at once; and an exception is one that the function of the root's call may raise.
pub fn each_answer_of_a_root_is_its_calls_own()
    ensures a { (g : Settings) → AreSetUp g → (es : List Event) (w : World) → Meets g es w → BothGive g es → (root : ℕ) (a : Answer)
        → state_of root w.a.now.side.tables.roots ≡ answered (answer a) → IsOwn g A es root a }
    ensures b { (g : Settings) → AreSetUp g → (es : List Event) (w : World) → Meets g es w → BothGive g es → (root : ℕ) (a : Answer)
        → state_of root w.b.now.side.tables.roots ≡ answered (answer a) → IsOwn g B es root a }
{}
