//! What the stacks have on top: which can go on, and how many wait.
ghost use Rattle.std.specs.Prelude.{◌≡◌, ◌+◌, ◌<◌, ◌≤◌, ◌^◌, length, slice_set, option_map};
ghost use Rattle.plan_model.specs.Frames.{is_body};
ghost use Rattle.plan_types.specs.Frames.{frame_of};
ghost use Rattle.call_stacks.specs.Tops.{is_method, calls, calls_in};

use birth_index::BirthIndex;
use plan_types::Frame;

/// What is on top of a stack.
#[derive(Clone, Copy)]
pub enum Top {
    /// A method, so the stack can go on.
    Method,
    /// A call that waits for an answer.
    Call,
    /// Something else, or nothing.
    Other,
}

/// What a top frame is.
pub fn top_of(frame: Option<&Frame>) -> Top
    ensures method { is_method result ≡ is_body (option_map (λ f. frame_of f.now) frame.entry) }
    ensures call { calls result ≡ calls_in (option_map (λ f. frame_of f.now) frame.entry) }
{
    match frame {
        Some(Frame::Body(_)) => Top::Method,
        Some(Frame::Out(_)) => Top::Call,
        _ => Top::Other,
    }
}

impl Top {
    fn is_method(self) -> bool
        ensures { result ≡ is_method self }
    {
        let Top::Method = self else { return false };
        true
    }

    fn calls(self) -> u64
        ensures { result ≡ calls self }
    {
        let Top::Call = self else { return 0 };
        1
    }
}

/// Puts another top in the place of one, in the births of the stacks that can go on and the number of those that wait.
pub fn turn(ready: &mut BirthIndex, waiting: &mut u64, birth: u64, was: Top, is: Top)
    requires room { birth < length ready.old }
    requires counted { calls was ≤ waiting.old }
    requires fits { waiting.old + calls is < 2 ^ 64 + calls was }
    ensures ready { ready.new ≡ slice_set ready.old birth (is_method is) }
    ensures waiting { waiting.new + calls was ≡ waiting.old + calls is }
{
    ready.turn(birth, is.is_method());
    *waiting = *waiting - was.calls() + is.calls();
}
