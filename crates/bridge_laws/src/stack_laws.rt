//! Laws of the stacks of an end: each function has an empty body, and its clauses are the law.
ghost use Rattle.std.specs.Prelude.{ℕ, ◌<◌, ◌^◌, List, length};
ghost use Rattle.bridge_model.specs.Entries.{Entry};
ghost use Rattle.bridge_model.specs.Histories.{Told, Leads};
ghost use Rattle.bridge_model.specs.Settings.{Setting};
ghost use Rattle.bridge_laws.specs.Stacks.{IsThread, HaveOneEach};
ghost use Rattle.plan_model.specs.Frames.{frames_of};

/// Each thread of an end has one stack or none, whoever the peer is: a root of this end began it and waits, or a method of the peer's began it; a root is at the bottom alone;
/// a method of the peer's begins a stack or stands on a call that went out; all else stands on the root or the method that called it; and a method or such a call is on top.
pub fn a_stack_is_a_roots_or_the_peers()
    ensures thread { (g : Setting) (es : List Entry) (x : Told) → length g.plan.threads < 2 ^ 64 → Leads g es x → (tid : List ℕ) → IsThread g x.side tid (frames_of tid x.side.stacks) }
    ensures one { (g : Setting) (es : List Entry) (x : Told) → Leads g es x → HaveOneEach x.side.stacks }
{}
