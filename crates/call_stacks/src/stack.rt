//! One stack, and the stacks by their births.
ghost use Rattle.std.specs.Prelude.{◌≡◌, ◌<◌, ◌≤◌, ◌++◌, ◌∷◌, [], length, Some, IsSome, IfOk, OnOk, OnErr, option_map};
ghost use Rattle.plan_model.specs.Frames.{first_frame, nth_tid};
ghost use Rattle.plan_types.specs.Frames.{frame_of};
ghost use Rattle.call_stacks.specs.Rows.{Rise, rows_of, stacks_of, stack_of, begun, stack_at, frames_at, changed_at, without_at, one_more, one_less, topped};

use plan_types::Frame;
use std::alloc::Global;
use std::collections::{BTreeMap, VecDeque};
use std::mem;
use uno_base::NoMemory;
use uno_entities::Tid;

/// The frames of a TID, the top one first.
#[derive(Drop)]
pub struct Stack {
    pub tid: Tid,
    pub frames: VecDeque<Frame>,
}

/// The stacks, each under the number of its birth.
pub type Entries = BTreeMap<u64, Stack>;

/// A stack of one frame.
pub fn stack_with(alloc: Global, tid: &Tid, frame: Frame) -> Result<Stack, NoMemory>
    ensures { IfOk result (λ stack. stack_of stack ≡ begun tid.now (frame_of frame)) }
{
    let mut frames = VecDeque::with_capacity(alloc, 1)?;
    frames.push_front(frame)?;
    let tid = tid.copy()?;
    Ok(Stack { tid, frames })
}

/// Puts a stack behind all others.
pub fn add(stacks: &mut Entries, birth: u64, stack: Stack) -> Result<(), NoMemory>
    requires { Rise 0 (rows_of stacks.old.entries) birth }
    ensures added { OnOk result (rows_of stacks.new.entries ≡ rows_of stacks.old.entries ++ ((birth, stack_of stack) ∷ [])) }
    ensures kept { OnErr result (rows_of stacks.new.entries ≡ rows_of stacks.old.entries) }
{
    stacks.insert(birth, stack)?;
    Ok(())
}

/// The number of frames of a stack.
pub fn depth(stacks: &Entries, birth: u64) -> u64
    ensures { result ≡ length (frames_at birth (rows_of stacks.now.entries)) }
{
    let Some(stack) = stacks.get(&birth) else {
        return 0
    };
    stack.frames.len() as u64
}

/// The top frame of a stack.
pub fn top(stacks: &Entries, birth: u64) -> Option<&Frame>
    ensures { option_map (λ f. frame_of f.now) result ≡ first_frame (frames_at birth (rows_of stacks.now.entries)) }
{
    let Some(stack) = stacks.get(&birth) else {
        return None
    };
    stack.frames.front()
}

/// Puts a frame on a stack.
pub fn push(stacks: &mut Entries, birth: u64, frame: Frame) -> Result<(), NoMemory>
    requires { IsSome (stack_at birth (rows_of stacks.old.entries)) }
    ensures pushed { OnOk result (rows_of stacks.new.entries ≡ changed_at birth (one_more (frame_of frame)) (rows_of stacks.old.entries)) }
    ensures kept { OnErr result (rows_of stacks.new.entries ≡ rows_of stacks.old.entries) }
{
    let Some(stack) = stacks.get_mut(&birth) else {
        unreachable!()
    };
    stack.frames.push_front(frame)?;
    Ok(())
}

/// Takes the top frame from a stack that stays.
pub fn pop(stacks: &mut Entries, birth: u64) -> Option<Frame>
    requires { IsSome (stack_at birth (rows_of stacks.old.entries)) }
    ensures top { option_map frame_of result ≡ first_frame (frames_at birth (rows_of stacks.old.entries)) }
    ensures popped { rows_of stacks.new.entries ≡ changed_at birth one_less (rows_of stacks.old.entries) }
{
    let Some(stack) = stacks.get_mut(&birth) else {
        unreachable!()
    };
    stack.frames.pop_front()
}

/// Takes out a stack, and gives its top frame.
pub fn end(stacks: &mut Entries, birth: u64) -> Option<Frame>
    requires { IsSome (stack_at birth (rows_of stacks.old.entries)) }
    ensures top { option_map frame_of result ≡ first_frame (frames_at birth (rows_of stacks.old.entries)) }
    ensures ended { rows_of stacks.new.entries ≡ without_at birth (rows_of stacks.old.entries) }
{
    let Some(stack) = stacks.remove(&birth) else {
        unreachable!()
    };
    let Stack { tid: _, mut frames } = stack;
    frames.pop_front()
}

/// Puts a frame in the place of the top one, which is given back.
pub fn set_top(stacks: &mut Entries, birth: u64, frame: Frame) -> Frame
    requires { 0 < length (frames_at birth (rows_of stacks.old.entries)) }
    ensures top { Some (frame_of result) ≡ first_frame (frames_at birth (rows_of stacks.old.entries)) }
    ensures topped { rows_of stacks.new.entries ≡ changed_at birth (topped (frame_of frame)) (rows_of stacks.old.entries) }
{
    let Some(stack) = stacks.get_mut(&birth) else {
        unreachable!()
    };
    let Some(place) = stack.frames.front_mut() else {
        unreachable!()
    };
    mem::replace(place, frame)
}

/// The TID of the stack at a place, from 0, in the order of births.
pub fn nth(stacks: &Entries, nth: u64) -> Option<&Tid>
    ensures { option_map (λ tid. tid.now) result ≡ nth_tid (stacks_of (rows_of stacks.now.entries)) nth }
{
    let mut left = nth;
    for stack in stacks.values() {
        if left == 0 {
            return Some(&stack.tid);
        }
        left -= 1;
    }
    None
}

/// The TID of the stack of a birth.
pub fn tid(stacks: &Entries, birth: u64) -> Option<&Tid>
    ensures { option_map (λ tid. tid.now) result ≡ option_map (λ s. s.tid) (stack_at birth (rows_of stacks.now.entries)) }
{
    let Some(stack) = stacks.get(&birth) else {
        return None
    };
    Some(&stack.tid)
}
