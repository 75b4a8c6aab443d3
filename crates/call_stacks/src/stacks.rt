//! The stacks of an endpoint, which contracts see as a list, oldest first.
ghost use Rattle.std.specs.Prelude.{◌≡◌, [], IsSome, OnOk, OnErr, Some, is_some, false, drop, option_map};
ghost use Rattle.std.specs.List.{list_any};
ghost use Rattle.std.specs.Result.{result_ok};
ghost use Rattle.plan_model.specs.Frames.{outgoing, outgoing_in, is_of, frames_of, top, depth_of, nth_tid, ready, pushed, popped, with_top, answerable};
ghost use Rattle.plan_types.specs.Frames.{frame_of};
ghost use Rattle.call_stacks.specs.Rows.{Rise};
ghost use Rattle.call_stacks.specs.WaitingCalls.{call_of, is_waiting, HaveOwnTids};

use crate::births::Births;
use crate::by_birth::ByBirth;
use crate::stack::stack_with;
use crate::{NobodyWaits, births};
use plan_types::Frame;
use std::alloc::Global;
use std::collections::BTreeMap;
use std::marker::Model;
use uno_base::NoMemory;
use uno_entities::{Name, Tid};

/// The frames of each chain of calls.
#[derive(Drop)]
pub struct Stacks {
    stacks: ByBirth,
    births: Births,
    next: u64,
    alloc: Global,
}

impl Model for Stacks {
    ghost use Rattle.std.specs.Prelude.{List};
    ghost use Rattle.plan_model.specs.Frames.{Stack as Plain};
    ghost use Rattle.call_stacks.specs.Rows.{stacks_of, IsKept};

    ghost Value = { List Plain };

    ghost use Rattle.std.specs.Coded.{codes};
    ghost use Rattle.call_stacks.specs.ValueCodes.{value_code};

    ghost coded = { Prim.hlevel (codes, value_code) };

    ghost view = { λ s. stacks_of s.stacks };

    ghost invariant = { λ s. IsKept s.stacks s.births s.next };
}

impl Stacks {
    /// No stacks.
    pub fn new(alloc: Global) -> Stacks
        ensures { result ≡ [] }
    {
        Stacks {
            births: BTreeMap::new(alloc),
            stacks: ByBirth::new(alloc),
            next: 0,
            alloc,
        }
    }

    /// Drops all stacks.
    pub fn clear(&mut self)
        ensures { self.new ≡ [] }
    {
        self.births = BTreeMap::new(self.alloc);
        self.stacks = ByBirth::new(self.alloc);
        self.next = 0;
    }

    /// Puts a frame on the stack of a TID, and begins one where it has none.
    pub fn push(&mut self, tid: &Tid, frame: Frame) -> Result<(), NoMemory>
        ensures pushed { OnOk result (self.new ≡ pushed tid.now (frame_of frame) self.old) }
        ensures kept { OnErr result (self.new ≡ self.old) }
    {
        let Some(birth) = births::birth(&self.births, tid) else {
            return self.begin(tid, frame)
        };
        self.stacks.push(birth, frame)?;
        Ok(())
    }

    /// Takes the top frame of a TID's stack.
    pub fn pop(&mut self, tid: &Tid) -> Option<Frame>
        ensures top { option_map frame_of result ≡ top tid.now self.old }
        ensures popped { self.new ≡ popped tid.now self.old }
        ensures below { frames_of tid.now self.new ≡ drop 1 (frames_of tid.now self.old) }
    {
        let Some(birth) = births::birth(&self.births, tid) else {
            return None
        };
        if self.stacks.depth(birth) > 1 {
            return self.stacks.pop(birth);
        }
        births::forget(&mut self.births, tid);
        self.stacks.end(birth)
    }

    /// The top frame of a TID's stack.
    pub fn top(&self, tid: &Tid) -> Option<&Frame>
        ensures { option_map (λ f. frame_of f.now) result ≡ top tid.now self.now }
    {
        let Some(birth) = births::birth(&self.births, tid) else {
            return None
        };
        self.stacks.top(birth)
    }

    /// The call that waits at the top of the stack of a TID with these bytes: its interface and its function. No other stack has this TID.
    pub fn waiting_call(&self, tid: &[u8]) -> Option<(&Name, u16)>
        ensures call { option_map (λ x. record { face = x.0.now; function = x.1 }) result ≡ option_map call_of (answerable tid.now self.now) }
        ensures own { HaveOwnTids self.now }
    {
        let Some(birth) = births::birth_by_bytes(&self.births, tid) else {
            return None
        };
        call_in(self.stacks.top(birth))
    }

    /// Takes the call that waits at the top of a TID's stack.
    pub fn answer(&mut self, tid: &Tid) -> Result<Frame, NobodyWaits>
        ensures waits { option_map frame_of (result_ok result) ≡ option_map outgoing (answerable tid.now self.old) }
        ensures popped { OnOk result (self.new ≡ popped tid.now self.old) }
        ensures kept { OnErr result (self.new ≡ self.old) }
    {
        if !waits(self.top(tid)) {
            return Err(NobodyWaits);
        }
        match self.pop(tid) {
            Some(frame) => Ok(frame),
            None => unreachable!(),
        }
    }

    /// Puts a frame in the place of the top one of a TID's stack, and gives the old one.
    pub fn set_top(&mut self, tid: &Tid, frame: Frame) -> Frame
        requires { IsSome (top tid.now self.old) }
        ensures was { Some (frame_of result) ≡ top tid.now self.old }
        ensures set { self.new ≡ with_top tid.now (frame_of frame) self.old }
    {
        let Some(birth) = births::birth(&self.births, tid) else {
            unreachable!()
        };
        self.stacks.set_top(birth, frame)
    }

    /// How many frames the stack of a TID has.
    pub fn depth(&self, tid: &Tid) -> u64
        ensures { result ≡ depth_of tid.now self.now }
    {
        match births::birth(&self.births, tid) {
            Some(birth) => self.stacks.depth(birth),
            None => 0,
        }
    }

    /// The TID of the stack at a place, from 0, oldest first.
    pub fn nth(&self, nth: u64) -> Option<&Tid>
        ensures { option_map (λ tid. tid.now) result ≡ nth_tid self.now nth }
    {
        self.stacks.nth(nth)
    }

    /// The TID of the stack at a place among those that can go on, whose top frame is a method, from 0, oldest first.
    pub fn ready(&self, nth: u64) -> Option<&Tid>
        ensures { option_map (λ tid. tid.now) result ≡ nth_tid (ready self.now) nth }
    {
        self.stacks.ready(nth)
    }

    /// Whether a call waits for an answer at the top of some stack.
    pub fn any_waits(&self) -> bool
        ensures { result ≡ list_any is_waiting self.now }
    {
        self.stacks.any_waits()
    }

    /// Begins a stack behind all others.
    fn begin(&mut self, tid: &Tid, frame: Frame) -> Result<(), NoMemory>
        requires { list_any (is_of tid.now) self.old ≡ false }
        ensures pushed { OnOk result (self.new ≡ pushed tid.now (frame_of frame) self.old) }
        ensures kept { OnErr result (self.new ≡ self.old) }
    {
        let birth = next_birth(&self.stacks, self.next);
        if birth == u64::MAX {
            return Err(NoMemory);
        }
        let stack = stack_with(self.alloc, tid, frame)?;
        births::note(self.alloc, &mut self.births, tid, birth)?;
        match self.stacks.add(birth, stack) {
            Ok(()) => {
                self.next = birth + 1;
                Ok(())
            }
            Err(NoMemory) => {
                births::forget(&mut self.births, tid);
                Err(NoMemory)
            }
        }
    }
}

/// A birth behind all others, which is 0 again where there are no stacks.
fn next_birth(stacks: &ByBirth, next: u64) -> u64
    requires { Rise 0 stacks.now next }
    ensures { Rise 0 stacks.now result }
{
    if stacks.is_empty() {
        return 0;
    }
    next
}

/// What is called at the top of a stack where it waits for an answer.
fn call_in(top: Option<&Frame>) -> Option<(&Name, u16)>
    ensures { option_map (λ x. record { face = x.0.now; function = x.1 }) result ≡ option_map call_of (outgoing_in (option_map (λ f. frame_of f.now) top.entry)) }
{
    let Some(Frame::Out(call)) = top else {
        return None
    };
    Some((&call.face, call.function))
}

/// Whether a call waits for an answer at the top of a stack.
fn waits(top: Option<&Frame>) -> bool
    ensures { result ≡ is_some (outgoing_in (option_map (λ f. frame_of f.now) top.entry)) }
{
    let Some(Frame::Out(_)) = top else {
        return false
    };
    true
}
