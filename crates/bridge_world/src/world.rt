//! Two ends that are joined, and the bytes between them.
ghost use Rattle.std.specs.Prelude.{◌≡◌, ◌≢◌, ◌+◌, ℕ, [], IfOk, OnErr, OnOk, drop, false, length, take};
ghost use Rattle.bridge_endpoint.specs.Answering.{fed_told};
ghost use Rattle.bridge_endpoint.specs.Entering.{draining, fed_by, out_of_memory};
ghost use Rattle.bridge_endpoint.specs.Journals.{setting_at, side_at, stamped, told_at};
ghost use Rattle.bridge_model.specs.Answers.{drained_next, feed_answer, next_cut, no_room};
ghost use Rattle.bridge_model.specs.Steps.{is_no_memory};
ghost use Rattle.bridge_core.specs.Standing.{IsHistory};
ghost use Rattle.world_model.specs.Pairs.{has_full, is_full};
ghost use Rattle.urp_model.specs.declared.reason.Reason.{Reason};
ghost use Rattle.world_laws.specs.Ready.{AreReady};
ghost use Rattle.bridge_world.specs.Joined.{Grows, end_at, joined, on_the_way, settings_of, taken_with, world_of};

use crate::items::every_item_is_small;
use crate::piping::{carry, drain, feed, pipes};
use bridge_core::Side;
use bridge_endpoint::{Endpoint, Fed};
use bridge_model::Cause;
use byte_pipe::Pipe;
use std::alloc::Global;
use std::marker::Model;
use uno_base::NoMemory;

/// Two ends of a bridge, and what each drained that the other was not yet fed.
#[derive(Drop)]
pub struct World {
    pub(crate) a: Endpoint,
    pub(crate) b: Endpoint,
    pub(crate) to_a: Pipe,
    pub(crate) to_b: Pipe,
}

impl Model for World {
    ghost use Rattle.bridge_setting.specs.contracts.setting.Setting as set;
    ghost use Rattle.bridge_world.specs.Joined as joined;
    ghost use Rattle.call_stacks.specs.ValueCodes.{value_code};
    ghost use Rattle.std.specs.Coded.{codes};
    ghost use Rattle.uno_model.specs.Codes.{kind_code};

    ghost Value = { joined.Joined };

    ghost coded = { Prim.hlevel (codes, kind_code, value_code, set.the_row.coded) };

    ghost view = { λ w. joined.joined w.a w.b };

    ghost use Rattle.bridge_world.specs.Worlds.{IsWorld};

    ghost invariant = { λ w. IsWorld w.a w.b w.to_a.items w.to_b.items };
}

impl World {
    /// Two ends at which nothing has happened.
    pub fn new(alloc: Global, a: Endpoint, b: Endpoint) -> Result<World, NoMemory>
        requires opening_a { (a.entries ≡ []) × (a.stamps ≡ []) }
        requires opening_b { (b.entries ≡ []) × (b.stamps ≡ []) }
        requires registry { (setting_at b).registry ≡ (setting_at a).registry }
        requires apart { (setting_at a).tag ≢ (setting_at b).tag }
        ensures opening { IfOk result (λ w. w ≡ record { a = a.configured; b = b.configured; events = [] }) }
        ensures ready { IfOk result (λ w. AreReady (settings_of w)) }
    {
        are_ready(&a, &b);
        match pipes(alloc) {
            Ok((to_a, to_b)) => Ok(World { a, b, to_a, to_b }),
            Err(NoMemory) => {
                a.close();
                b.close();
                Err(NoMemory)
            }
        }
    }

    /// Lets both ends go, with all that they have.
    pub fn close(self) {
        drop(self);
    }

    /// The end at a side.
    pub(crate) fn end_of(&self, side: Side) -> &Endpoint
        ensures setting { setting_at result.now ≡ setting_at (end_at self.entry.now side) }
        ensures entries { result.now.entries ≡ (end_at self.entry.now side).entries }
        ensures told { told_at result.now ≡ told_at (end_at self.entry.now side) }
        ensures side { side_at result.now ≡ side_at (end_at self.entry.now side) }
    {
        match side {
            Side::A => &self.a,
            Side::B => &self.b,
        }
    }

    /// Feeds an end a front of the bytes on their way to it.
    pub(crate) fn feed_front(&mut self, side: Side, piece: &[u8]) -> Fed
        requires { piece.now ≡ take (length piece.now) (on_the_way self.old side) }
        ensures answer { fed_told result ≢ no_room → fed_told result ≡ feed_answer (setting_at (end_at self.old side)) (side_at (end_at self.old side)) piece.now }
        ensures entered { end_at self.new side ≡ fed_by result (next_cut (side_at (end_at self.old side)) piece.now) (end_at self.old side) }
        ensures others { (other : Side) → other ≢ side → end_at self.new other ≡ end_at self.old other }
        ensures history { Grows side self.old self.new }
    {
        know(&self.a, &self.b);
        match side {
            Side::A => {
                mark(&mut self.a, &self.b);
                feed(&mut self.a, &mut self.to_a, piece)
            }
            Side::B => {
                mark(&mut self.b, &self.a);
                feed(&mut self.b, &mut self.to_b, piece)
            }
        }
    }

    /// Feeds an end the first bytes on their way to it, at most so many.
    pub(crate) fn feed_first(&mut self, side: Side, count: u32) -> Fed
        ensures answer { fed_told result ≢ no_room → fed_told result ≡ feed_answer (setting_at (end_at self.old side)) (side_at (end_at self.old side)) (take count (on_the_way self.old side)) }
        ensures entered { end_at self.new side ≡ fed_by result (next_cut (side_at (end_at self.old side)) (take count (on_the_way self.old side))) (end_at self.old side) }
        ensures left { on_the_way self.new side ≡ drop (taken_with result) (on_the_way self.old side) }
        ensures history { Grows side self.old self.new }
        ensures unbroken { (why : Reason) (place : ℕ) → result ≢ Fed.Broken why place }
    {
        know(&self.a, &self.b);
        match side {
            Side::A => {
                mark(&mut self.a, &self.b);
                carry(&mut self.a, &mut self.to_a, count)
            }
            Side::B => {
                mark(&mut self.b, &self.a);
                carry(&mut self.b, &mut self.to_b, count)
            }
        }
    }

    /// Drains an end into the pipe to the other.
    pub(crate) fn drain_across(&mut self, side: Side, max: u32) -> Result<Vec<u8>, NoMemory>
        ensures bytes { IfOk result (λ bytes. bytes.items ≡ drained_next (setting_at (end_at self.old side)) max (side_at (end_at self.old side))) }
        ensures memory { OnOk result (is_no_memory (side_at (end_at self.old side)).cause ≡ false) }
        ensures entered { IfOk result (λ bytes. end_at self.new side ≡ draining bytes.items (end_at self.old side)) }
        ensures lost { OnErr result (end_at self.new side ≡ out_of_memory (end_at self.old side)) }
        ensures others { (other : Side) → other ≢ side → end_at self.new other ≡ end_at self.old other }
        ensures history { Grows side self.old self.new }
    {
        match side {
            Side::A => {
                mark(&mut self.a, &self.b);
                drain(&mut self.a, &mut self.to_b, max)
            }
            Side::B => {
                mark(&mut self.b, &self.a);
                drain(&mut self.b, &mut self.to_a, max)
            }
        }
    }

    /// Whether an end reached a limit.
    pub(crate) fn has_full(&self) -> bool
        ensures { result ≡ has_full (world_of self.now) }
    {
        know(&self.a, &self.b);
        if is_full(self.a.end()) {
            return true;
        }
        is_full(self.b.end())
    }
}

/// How many entries there are in the journals of two ends.
pub(crate) fn count(one: &Endpoint, other: &Endpoint) -> u64
    ensures { result ≡ length one.now.entries + length other.now.entries }
{
    one.journal().len() as u64 + other.journal().len() as u64
}

/// The next entry of an end is marked with its place among those of both.
pub(crate) fn mark(end: &mut Endpoint, other: &Endpoint)
    ensures { end.new ≡ stamped (length end.old.entries + length other.now.entries) end.old }
{
    let place = count(end, other);
    end.stamp(place);
}

/// A law: the journal of each of two ends is a history.
pub(crate) fn know(a: &Endpoint, b: &Endpoint)
    ensures a { IsHistory a.now }
    ensures b { IsHistory b.now }
{
    know_one(a);
    know_one(b);
}

/// A law: the journal of an end is a history.
pub(crate) fn know_one(end: &Endpoint)
    ensures { IsHistory end.now }
{
    end.journal();
}

/// A law: two ends with one registry, whose tags differ, are ready. It takes the time of a walk through the registry.
fn are_ready(a: &Endpoint, b: &Endpoint)
    requires registry { (setting_at b.now).registry ≡ (setting_at a.now).registry }
    requires apart { (setting_at a.now).tag ≢ (setting_at b.now).tag }
    ensures { AreReady (settings_of (joined a.now b.now)) }
{
    a.journal();
    b.journal();
    every_item_is_small(a.registry());
}

fn is_full(cause: Option<Cause>) -> bool
    ensures { result ≡ is_full cause }
{
    match cause {
        Some(Cause::Full) => true,
        _ => false,
    }
}
