//! The stacks by their births, with what they have on top.
ghost use Rattle.std.specs.Prelude.{◌≡◌, ◌<◌, ◌++◌, ◌∷◌, [], ◌^◌, ◌-◌, length, Some, IsSome, OnOk, OnErr, option_map, ◌==◌};
ghost use Rattle.std.specs.List.{list_any};
ghost use Rattle.plan_model.specs.Frames.{first_frame, nth_tid, ready};
ghost use Rattle.plan_types.specs.Frames.{frame_of};
ghost use Rattle.call_stacks.specs.Rows.{Rise, stacks_of, stack_of, stack_at, frames_at, changed_at, without_at, one_more, one_less, topped};
ghost use Rattle.call_stacks.specs.WaitingCalls.{is_waiting};

use crate::stack;
use crate::stack::{Entries, Stack};
use crate::tops::{Top, top_of, turn};
use birth_index::BirthIndex;
use plan_types::Frame;
use std::alloc::Global;
use std::collections::BTreeMap;
use std::marker::Model;
use uno_base::NoMemory;
use uno_entities::Tid;

/// Stacks by their births, which contracts see as rows in rising order.
#[derive(Drop)]
pub struct ByBirth {
    entries: Entries,
    ready: BirthIndex,
    waiting: u64,
}

impl Model for ByBirth {
    ghost use Rattle.std.specs.Prelude.{List, ℕ};
    ghost use Rattle.plan_model.specs.Frames.{Stack as Plain};
    ghost use Rattle.call_stacks.specs.Rows.{rows_of};
    ghost use Rattle.call_stacks.specs.Tops.{HasTops};

    ghost Value = { List (ℕ × Plain) };

    ghost use Rattle.std.specs.Coded.{codes};
    ghost use Rattle.call_stacks.specs.ValueCodes.{value_code};

    ghost coded = { Prim.hlevel (codes, value_code) };

    ghost view = { λ s. rows_of s.entries.entries };

    ghost invariant = { λ s. HasTops (rows_of s.entries.entries) s.ready s.waiting };
}

impl ByBirth {
    /// No stacks.
    pub fn new(alloc: Global) -> ByBirth
        ensures { result ≡ [] }
    {
        ByBirth {
            entries: BTreeMap::new(alloc),
            ready: BirthIndex::new(alloc),
            waiting: 0,
        }
    }

    pub fn is_empty(&self) -> bool
        ensures { result ≡ (length self.now == 0) }
    {
        self.entries.is_empty()
    }

    /// Puts a stack behind all others.
    pub fn add(&mut self, birth: u64, stack: Stack) -> Result<(), NoMemory>
        requires rise { Rise 0 self.old birth }
        requires small { birth < 2 ^ 64 - 1 }
        ensures added { OnOk result (self.new ≡ self.old ++ ((birth, stack_of stack) ∷ [])) }
        ensures kept { OnErr result (self.new ≡ self.old) }
    {
        self.ready.make_room(birth)?;
        let is = top_of(stack.frames.front());
        stack::add(&mut self.entries, birth, stack)?;
        turn(&mut self.ready, &mut self.waiting, birth, Top::Other, is);
        Ok(())
    }

    /// The number of frames of a stack.
    pub fn depth(&self, birth: u64) -> u64
        ensures { result ≡ length (frames_at birth self.now) }
    {
        stack::depth(&self.entries, birth)
    }

    /// The top frame of a stack.
    pub fn top(&self, birth: u64) -> Option<&Frame>
        ensures { option_map (λ f. frame_of f.now) result ≡ first_frame (frames_at birth self.now) }
    {
        stack::top(&self.entries, birth)
    }

    /// Puts a frame on a stack.
    pub fn push(&mut self, birth: u64, frame: Frame) -> Result<(), NoMemory>
        requires { IsSome (stack_at birth self.old) }
        ensures pushed { OnOk result (self.new ≡ changed_at birth (one_more (frame_of frame)) self.old) }
        ensures kept { OnErr result (self.new ≡ self.old) }
    {
        let was = top_of(stack::top(&self.entries, birth));
        let is = top_of(Some(&frame));
        stack::push(&mut self.entries, birth, frame)?;
        turn(&mut self.ready, &mut self.waiting, birth, was, is);
        Ok(())
    }

    /// Takes the top frame from a stack that stays.
    pub fn pop(&mut self, birth: u64) -> Option<Frame>
        requires { IsSome (stack_at birth self.old) }
        ensures top { option_map frame_of result ≡ first_frame (frames_at birth self.old) }
        ensures popped { self.new ≡ changed_at birth one_less self.old }
    {
        let was = top_of(stack::top(&self.entries, birth));
        let frame = stack::pop(&mut self.entries, birth);
        let is = top_of(stack::top(&self.entries, birth));
        turn(&mut self.ready, &mut self.waiting, birth, was, is);
        frame
    }

    /// Takes out a stack, and gives its top frame.
    pub fn end(&mut self, birth: u64) -> Option<Frame>
        requires { IsSome (stack_at birth self.old) }
        ensures top { option_map frame_of result ≡ first_frame (frames_at birth self.old) }
        ensures ended { self.new ≡ without_at birth self.old }
    {
        let was = top_of(stack::top(&self.entries, birth));
        let frame = stack::end(&mut self.entries, birth);
        turn(&mut self.ready, &mut self.waiting, birth, was, Top::Other);
        frame
    }

    /// Puts a frame in the place of the top one, which is given back.
    pub fn set_top(&mut self, birth: u64, frame: Frame) -> Frame
        requires { 0 < length (frames_at birth self.old) }
        ensures top { Some (frame_of result) ≡ first_frame (frames_at birth self.old) }
        ensures topped { self.new ≡ changed_at birth (topped (frame_of frame)) self.old }
    {
        let was = top_of(stack::top(&self.entries, birth));
        let is = top_of(Some(&frame));
        let old = stack::set_top(&mut self.entries, birth, frame);
        turn(&mut self.ready, &mut self.waiting, birth, was, is);
        old
    }

    /// The TID of the stack at a place, from 0, in the order of births.
    pub fn nth(&self, nth: u64) -> Option<&Tid>
        ensures { option_map (λ tid. tid.now) result ≡ nth_tid (stacks_of self.now) nth }
    {
        stack::nth(&self.entries, nth)
    }

    /// The TID of the stack at a place among those whose top frame is a method, from 0, in the order of births.
    pub fn ready(&self, nth: u64) -> Option<&Tid>
        ensures { option_map (λ tid. tid.now) result ≡ nth_tid (ready (stacks_of self.now)) nth }
    {
        let mut left = nth;
        let mut from = 0;
        while let Some(birth) = self.ready.first_from(from) {
            if left == 0 {
                return stack::tid(&self.entries, birth);
            }
            left -= 1;
            from = birth + 1;
        }
        None
    }

    /// Whether a call waits for an answer at the top of some stack.
    pub fn any_waits(&self) -> bool
        ensures { result ≡ list_any is_waiting (stacks_of self.now) }
    {
        self.waiting != 0
    }
}
