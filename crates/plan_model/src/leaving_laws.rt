//! Laws of what leaves a frame: each function has an empty body, and its clause is the law.
ghost use Rattle.std.specs.Prelude.{◌≡◌, ℕ, List};
ghost use Rattle.message_model.specs.Messages.{Answer};
ghost use Rattle.plan_model.specs.Leaving.{leaving, MayLeave, IsWithinReply};
ghost use Rattle.uno_model.specs.Entities.{Entity};
ghost use Rattle.uno_model.specs.Functions.{Function};

/// What leaves the frame of a function is returned, or is an exception that the function may raise.
pub fn what_leaves_a_frame_may_leave_it()
    ensures { (reg : List Entity) (tid face : List ℕ) (number : ℕ) (f : Function) (a : Answer) → MayLeave reg f (leaving reg tid face number f a) }
{}

/// What may leave it, and is within the limits of replies, leaves it as it is; so does an exception that is declared.
pub fn what_may_leave_a_frame_leaves_it_as_it_is()
    ensures { (reg : List Entity) (tid face : List ℕ) (number : ℕ) (f : Function) (a : Answer) → MayLeave reg f a → IsWithinReply tid face number a
        → leaving reg tid face number f a ≡ a }
{}
