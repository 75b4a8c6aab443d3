//! What stands at the top of a thread.
ghost use Rattle.std.specs.Prelude.{◌≡◌, true, false, List, [], Some, IsSome, IfSome, IfNone, drop, option_map};
ghost use Rattle.bridge_model.specs.Stacks.{puts_frames};
ghost use Rattle.plan_model.specs.Frames as plain;
ghost use Rattle.plan_model.specs.Frames.{base, is_body, frames_of, first_frame, top, popped, with_top};
ghost use Rattle.plan_types.specs.Frames.{body_of, frame_of};
ghost use Rattle.bridge_frames.specs.Unwinding.{is_root};

use call_stacks::Stacks;
use plan_types::{Body, Frame};
use uno_types::Tid;

/// The root that began a thread, where it is the top frame.
pub(crate) fn root_on_top(stacks: &Stacks, tid: &Tid) -> Option<u32>
    ensures root { IfSome result (λ r. top tid.now stacks.now ≡ Some (base r)) }
    ensures none { IfNone result (is_root (frames_of tid.now stacks.now) ≡ false) }
{
    root_of(stacks.top(tid))
}

fn root_of(frame: Option<&Frame>) -> Option<u32>
    ensures root { IfSome result (λ r. option_map (λ f. frame_of f.now) frame.entry ≡ Some (base r)) }
    ensures none { IfNone result ((fs : List plain.Frame) → first_frame fs ≡ option_map (λ f. frame_of f.now) frame.entry → is_root fs ≡ false) }
{
    match frame {
        Some(Frame::Base { root }) => Some(*root),
        Some(Frame::Body(_)) | Some(Frame::Out(_)) | None => None,
    }
}

/// Whether a method is the top frame.
pub(crate) fn is_method(stacks: &Stacks, tid: &Tid) -> bool
    ensures { result ≡ is_body (top tid.now stacks.now) }
{
    is_body(stacks.top(tid))
}

fn is_body(frame: Option<&Frame>) -> bool
    ensures { result ≡ is_body (option_map (λ f. frame_of f.now) frame.entry) }
{
    match frame {
        Some(Frame::Body(_)) => true,
        Some(Frame::Base { .. }) | Some(Frame::Out(_)) | None => false,
    }
}

/// Takes the method at the top.
pub(crate) fn pop_method(stacks: &mut Stacks, tid: &Tid) -> Body
    requires { is_body (top tid.now stacks.old) ≡ true }
    ensures top { top tid.now stacks.old ≡ Some (plain.body (body_of result)) }
    ensures popped { stacks.new ≡ popped tid.now stacks.old }
    ensures below { frames_of tid.now stacks.new ≡ drop 1 (frames_of tid.now stacks.old) }
{
    let Some(frame) = stacks.pop(tid) else {
        unreachable!()
    };
    method_in(frame)
}

/// Takes the method at the top out, with a root in its place.
pub(crate) fn take_method(stacks: &mut Stacks, tid: &Tid) -> Body
    requires { is_body (top tid.now stacks.old) ≡ true }
    ensures top { top tid.now stacks.old ≡ Some (plain.body (body_of result)) }
    ensures taken { stacks.new ≡ with_top tid.now (base 0) stacks.old }
{
    method_in(stacks.set_top(tid, Frame::Base { root: 0 }))
}

/// Puts it back.
pub(crate) fn put_method(stacks: &mut Stacks, tid: &Tid, body: Body)
    requires { IsSome (top tid.now stacks.old) }
    ensures { stacks.new ≡ with_top tid.now (plain.body (body_of body)) stacks.old }
{
    drop(stacks.set_top(tid, Frame::Body(body)));
}

/// The method that a frame is.
fn method_in(frame: Frame) -> Body
    requires { is_body (Some (frame_of frame)) ≡ true }
    ensures { frame_of frame ≡ plain.body (body_of result) }
{
    let Frame::Body(body) = frame else {
        unreachable!()
    };
    body
}

/// Takes all frames of a thread that has some.
pub(crate) fn end_thread(stacks: &mut Stacks, tid: &Tid)
    requires { IsSome (top tid.now stacks.old) }
    ensures { stacks.new ≡ puts_frames tid.now [] stacks.old }
{
    while stacks.depth(tid) > 0 {
        drop(stacks.pop(tid));
    }
}
