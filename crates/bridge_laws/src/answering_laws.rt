//! Laws of what is answered: each function has an empty body, and its clauses are the law.
ghost use Rattle.std.specs.Prelude.{◌≡◌, ℕ, true, false, List, [], ◌∷◌, Some};
ghost use Rattle.message_model.specs.Messages.{Answer};
ghost use Rattle.plan_model.specs.Asking.{Effect};
ghost use Rattle.plan_model.specs.Frames.{Body, Frame, body};
ghost use Rattle.uno_model.specs.Entities.{Entity};
ghost use Rattle.bridge_model.specs.Applying.{effect_at};
ghost use Rattle.bridge_model.specs.Entries.{Entry, fed, applied};
ghost use Rattle.bridge_model.specs.Histories.{Told, Leads};
ghost use Rattle.bridge_model.specs.Settings.{Setting};
ghost use Rattle.bridge_model.specs.Sides.{answer, answered, Tables, Side, stands, state_of};
ghost use Rattle.bridge_model.specs.Steps.{Picked, picked, Turn, step};
ghost use Rattle.bridge_laws.specs.Givings.{IsGiven};
ghost use Rattle.bridge_laws.specs.Hearings.{Hears};
ghost use Rattle.bridge_laws.specs.Outcomes.{for_root, for_peer, handed_down, fate_of, replies, serving_in, root_under, may_reply, IsAnswered};

/// A statement says, gives a root and leaves of the frames of its thread what its frame ends with: one reply to the call of the peer's that ended so, and no other;
/// the outcome of the root that began the thread; or the result that the method below goes on with.
pub fn a_statement_answers_what_its_frame_ends_with()
    ensures { (g : Setting) (s : Side) (tid : List ℕ) (p : Picked) (u : Turn) → picked tid s ≡ Some p → step g s (applied tid) ≡ Some u → stands u.side ≡ true
        → IsAnswered g tid s (fate_of g tid p.method p.below (effect_at g tid p.method p.below s.tables) s.tables) u }
{}

/// A piece brings its messages one after the other, and its replies are theirs: each reply that comes is handed to the frame under the call on top of its
/// thread, which it answers; function 0 is answered at once; and a request begins a method.
pub fn a_piece_brings_its_messages_one_after_the_other()
    ensures { (g : Setting) (es : List Entry) (x : Told) (b : List ℕ) (u : Turn) → Leads g es x → step g x.side (fed b) ≡ Some u
        → Hears g x.side.tables x.side.stacks u.got (replies u.said) u.side }
{}

/// No other entry says a reply.
pub fn no_other_entry_replies()
    ensures { (g : Setting) (s : Side) (e : Entry) (u : Turn) → step g s e ≡ Some u → may_reply e ≡ false → replies u.said ≡ [] }
{}

/// The call of the peer's that is answered is the innermost one that the thread serves.
pub fn a_reply_answers_the_innermost_call()
    ensures statement { (g : Setting) (tid : List ℕ) (method served : Body) (fs below : List Frame) (e : Effect) (t : Tables) (a : Answer)
        → fate_of g tid method fs e t ≡ for_peer served below a → serving_in (body method ∷ fs) ≡ Some (record { method = served; below = below }) }
    ensures message { (reg : List Entity) (tid : List ℕ) (a b : Answer) (fs below : List Frame) (served : Body)
        → handed_down reg tid a fs ≡ for_peer served below b → serving_in fs ≡ Some (record { method = served; below = below }) }
{}

/// The root that is answered is the one that began the thread, under methods that were called from here: its own call and those that it led to.
pub fn a_root_gets_the_answer_under_its_own_methods()
    ensures statement { (g : Setting) (tid : List ℕ) (method : Body) (root : ℕ) (fs : List Frame) (e : Effect) (t : Tables) (a : Answer)
        → fate_of g tid method fs e t ≡ for_root root a → root_under (body method ∷ fs) ≡ Some root }
    ensures message { (reg : List Entity) (tid : List ℕ) (a b : Answer) (fs : List Frame) (root : ℕ) → handed_down reg tid a fs ≡ for_root root b → root_under fs ≡ Some root }
{}

/// Each answer that a root has was given to it by one entry of the journal, behind which it took none and began no call: a statement or a message of its thread whose answer reached it, the call
/// that it began where that would weigh too much or is nested too deep, or its query of an own object.
pub fn each_answer_of_a_root_was_given_by_one_entry()
    ensures { (g : Setting) (es : List Entry) (x : Told) (root : ℕ) (a : Answer) → Leads g es x → state_of root x.side.tables.roots ≡ answered (answer a) → IsGiven g es root a }
{}
