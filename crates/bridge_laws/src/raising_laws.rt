//! The law of the exceptions that roots get.
ghost use Rattle.std.specs.Prelude.{◌≡◌, ℕ, List, ◌∷◌};
ghost use Rattle.bridge_model.specs.Applying.{effect_at};
ghost use Rattle.bridge_model.specs.Settings.{Setting};
ghost use Rattle.bridge_model.specs.Sides.{Tables};
ghost use Rattle.message_model.specs.Messages.{Answer, raised};
ghost use Rattle.bridge_laws.specs.Outcomes.{for_root, fate_of, handed_down};
ghost use Rattle.bridge_laws.specs.Raising.{call_of, CallMayRaise, MayAnswer};
ghost use Rattle.plan_model.specs.Frames.{Body, Outgoing, Frame, body, outgoing};
ghost use Rattle.uno_model.specs.Entities.{Entity};
ghost use Rattle.uno_model.specs.Kinds.{Kind};
ghost use Rattle.uno_model.specs.Values.{Plain};

/// An exception that a root gets is one that the function of its own call may raise: it is declared there, derives from what is, or derives from RuntimeException. A statement gives it
/// no other one; nor does a reply that comes, where its exception is one that the function of the call which it answers may raise.
pub fn an_exception_that_a_root_gets_is_one_that_its_call_may_raise()
    ensures statement { (g : Setting) (tid : List ℕ) (method : Body) (fs : List Frame) (t : Tables) (root : ℕ) (k : Kind) (x : Plain)
        → fate_of g tid method fs (effect_at g tid method fs t) t ≡ for_root root (raised k x) → CallMayRaise g.registry (call_of root (body method ∷ fs)) k }
    ensures message { (reg : List Entity) (tid : List ℕ) (a : Answer) (call : Outgoing) (below : List Frame) (root : ℕ) (k : Kind) (x : Plain) → MayAnswer reg call.face call.function a
        → handed_down reg tid a below ≡ for_root root (raised k x) → CallMayRaise reg (call_of root (outgoing call ∷ below)) k }
{}
