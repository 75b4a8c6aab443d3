//! The messages that are said and not spelled, and room for releases to come.
ghost use Rattle.std.specs.Prelude.{◌≡◌, ◌+◌, ◌<◌, ◌≤◌, ◌^◌, ◌↔◌, List, [], ◌∷◌, drop, IsTrue, OnOk, OnErr, MatchOption};
ghost use Rattle.std.specs.VecDeque.{deque_len, deque_capacity};
ghost use Rattle.message_model.specs.Messages.{Message as Said};
ghost use Rattle.urp_message.specs.Messages.{message_of};
ghost use Rattle.bridge_streams.specs.Queues.{nothing_unsaid, with_message, kept_more, kept_less, with_release, with_said};

use proxy_table::Release;
use std::alloc::Global;
use std::collections::VecDeque;
use std::marker::Model;
use uno_base::NoMemory;
use uno_types::Tid;
use urp_message::Message;

/// A queue of messages. Each release that is kept has a place in it, and a copy of the name of the thread on which releases are sent, so
/// that it takes no memory later.
#[derive(Drop)]
pub struct Unsaid {
    alloc: Global,
    tid: Tid,
    kept: Vec<Tid>,
    said: VecDeque<Message>,
}

impl Model for Unsaid {
    ghost use Rattle.std.specs.Coded.{codes};
    ghost use Rattle.std.specs.Prelude.{◌+◌, ◌≤◌, map};
    ghost use Rattle.std.specs.Vec.{vec_len, vec_capacity};
    ghost use Rattle.std.specs.VecDeque.{deque_len, deque_capacity};
    ghost use Rattle.uno_model.specs.Codes.{kind_code};
    ghost use Rattle.call_stacks.specs.ValueCodes.{value_code};
    ghost use Rattle.urp_message.specs.Messages.{message_of};
    ghost use Rattle.bridge_streams.specs.Queues.{Queue, AreCopies};

    ghost Value = { Queue };

    ghost coded = { Prim.hlevel (codes, kind_code, value_code) };

    ghost view = { λ u. record { said = map message_of u.said.items; kept = vec_len u.kept; tid = u.tid } };

    ghost invariant = { λ u. (deque_len u.said + vec_len u.kept ≤ deque_capacity u.said) × AreCopies u.tid u.kept.items };
}

impl Unsaid {
    /// Nothing is said. Releases are sent on this thread.
    pub fn new(alloc: Global, tid: Tid) -> Unsaid
        ensures { result ≡ nothing_unsaid tid }
    {
        Unsaid {
            alloc,
            tid,
            kept: Vec::new(alloc),
            said: VecDeque::new(alloc),
        }
    }

    /// Keeps room for a release more.
    pub fn keep_one(&mut self) -> Result<(), NoMemory>
        ensures kept { OnOk result (self.new ≡ kept_more self.old) }
        ensures same { OnErr result (self.new ≡ self.old) }
    {
        let tid = self.tid.copy()?;
        make_room(&mut self.said, self.kept.len())?;
        self.kept.push(tid)?;
        Ok(())
    }

    /// Gives up the room of a release that is never sent.
    pub fn unkeep(&mut self)
        requires { 0 < self.old.kept }
        ensures { self.new ≡ kept_less self.old }
    {
        self.kept.pop();
    }

    /// Says a message.
    pub fn push(&mut self, message: Message) -> Result<(), NoMemory>
        ensures said { OnOk result (self.new ≡ with_message (message_of message) self.old) }
        ensures same { OnErr result (self.new ≡ self.old) }
    {
        make_room(&mut self.said, self.kept.len())?;
        self.said.push_back_reserved(message);
        Ok(())
    }

    /// Says a release, in the room that was kept for it. It takes no memory.
    pub fn release(&mut self, release: Release)
        requires { 0 < self.old.kept }
        ensures { self.new ≡ with_release release.oid release.face self.old }
    {
        let Some(tid) = self.kept.pop() else {
            unreachable!()
        };
        let Release { oid, face } = release;
        self.said
            .push_back_reserved(Message::Release { tid, oid, face });
    }

    /// How many releases have their room.
    pub fn kept(&self) -> usize
        ensures { result ≡ self.now.kept }
    {
        self.kept.len()
    }

    /// Whether nothing is said.
    pub fn is_empty(&self) -> bool
        ensures { IsTrue result ↔ (self.now.said ≡ []) }
    {
        self.said.is_empty()
    }

    /// Forgets what is said, and all room.
    pub fn clear(&mut self)
        ensures { self.new ≡ nothing_unsaid self.old.tid }
    {
        self.said.clear();
        self.kept.clear();
    }

    /// The message that is spelled next.
    pub(crate) fn first(&self) -> Option<&Message>
        ensures { MatchOption result (self.now.said ≡ []) (λ m. (ms : List Said) × (self.now.said ≡ message_of m.now ∷ ms)) }
    {
        self.said.front()
    }

    /// Drops the message that is spelled.
    pub(crate) fn drop_first(&mut self)
        ensures { self.new ≡ with_said (drop 1 self.old.said) self.old }
    {
        self.said.pop_front();
    }
}

/// Makes room for a message behind those that are said, and for so many releases that are kept. Where there is none, twice as much is made.
fn make_room(said: &mut VecDeque<Message>, kept: usize) -> Result<(), NoMemory>
    requires { kept < 2 ^ 63 }
    ensures same { said.new.items ≡ said.old.items }
    ensures len { deque_len said.new ≡ deque_len said.old }
    ensures capacity { deque_capacity said.old ≤ deque_capacity said.new }
    ensures room { OnOk result (deque_len said.new + kept < deque_capacity said.new) }
{
    if kept < said.capacity() - said.len() {
        return Ok(());
    }
    said.reserve(kept.saturating_mul(2).max(1))?;
    Ok(())
}
