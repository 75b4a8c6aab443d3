//! What comes in: the bytes of the open block, and what is remembered of the peer's messages.
ghost use Rattle.std.specs.Prelude.{◌≡◌, ℕ, ◌+◌, ◌^◌, ◌<◌, ◌≤◌, [], length, drop, false, IfOk, OnOk, OnErr, IsTrue, ◌↔◌, None};
ghost use Rattle.bridge_model.specs.Answers.{is_some_piece};
ghost use Rattle.bridge_model.specs.Feeding.{ends_part};
ghost use Rattle.bridge_model.specs.Sides.{nothing_came};
ghost use Rattle.bridge_model.specs.Stacks.{waits_of};
ghost use Rattle.bridge_model.specs.Steps.{fed_count};
ghost use Rattle.message_model.specs.ReadingMessages.{message_at};
ghost use Rattle.uno_model.specs.Sound.{IsSound};
ghost use Rattle.urp_message.specs.Listening.{Refuses};
ghost use Rattle.urp_message.specs.Messages.{message_of};
ghost use Rattle.urp_wire.specs.Gives.{GivesOr};
ghost use Rattle.bridge_streams.specs.Spoken.{heard_by, RefusedNothing};
ghost use Rattle.bridge_streams.specs.Taking.{Took, Ended, hearing};

use crate::{Taken, Waiting};
use call_stacks::Stacks;
use std::alloc::Global;
use std::marker::Model;
use uno_base::NoMemory;
use uno_types::Registry;
use urp_message::{Listener, Message, ReadError, Reason};
use urp_stream::{Blocks, StreamError};

/// Bytes are taken to the end of a block at most, which is then given.
#[derive(Drop)]
pub struct Incoming {
    alloc: Global,
    blocks: Blocks,
    listener: Option<Listener>,
}

impl Model for Incoming {
    ghost use Rattle.std.specs.Coded.{codes};
    ghost use Rattle.std.specs.Prelude.{◌≡◌, false};
    ghost use Rattle.bridge_model.specs.Feeding.{ends_part};
    ghost use Rattle.bridge_model.specs.Sides.{Incoming as Plain};
    ghost use Rattle.uno_model.specs.Codes.{kind_code};
    ghost use Rattle.bridge_streams.specs.Spoken.{heard_by, RefusedNothing};

    ghost Value = { Plain };

    ghost coded = { Prim.hlevel (codes, kind_code) };

    ghost view = { λ i. record { place = i.blocks.place; held = i.blocks.held; heard = heard_by i.listener } };

    ghost invariant = { λ i. (ends_part i.blocks.held ≡ false) × RefusedNothing i.listener };
}

impl Incoming {
    /// Nothing came.
    pub fn new(alloc: Global) -> Result<Incoming, NoMemory>
        ensures { IfOk result (λ incoming. incoming ≡ nothing_came) }
    {
        let listener = Listener::new(alloc)?;
        Ok(Incoming {
            alloc,
            blocks: Blocks::new(alloc),
            listener: Some(listener),
        })
    }

    /// Takes the bytes at the front of a piece, to the end of a block or of a refused header at most. `fed` tests what is required.
    pub fn feed(&mut self, piece: &[u8]) -> Result<Taken, NoMemory>
        requires { fed_count self.old + length piece.now < 2 ^ 64 }
        ensures took { IfOk result (λ taken. Took self.old piece.now taken self.new) }
        ensures kept { OnErr result (self.new ≡ self.old) }
    {
        let wants = self.blocks.header_wants();
        match self.blocks.feed(piece) {
            Ok(count) => Ok(taken(&mut self.blocks, count)),
            Err(StreamError::TooLarge(_)) => Ok(Taken::Refused(wants, Reason::TooLarge)),
            Err(StreamError::NoMessages) => Ok(Taken::Refused(wants, Reason::NoMessages)),
            Err(StreamError::NoMemory) => Err(NoMemory),
        }
    }

    /// The first message of a body, under the calls that wait on these stacks, and how many bytes spell it. After a refusal all is
    /// forgotten.
    pub fn read(
        &mut self,
        registry: &Registry,
        stacks: &Stacks,
        body: &[u8],
    ) -> Result<(Message, usize), ReadError>
        requires { IsSound registry.now }
        ensures gives { GivesOr Refuses (λ x. (message_of x.0, self.new.heard, drop x.1 body.now)) result
            (message_at registry.now (waits_of stacks.now) self.old.heard body.now) }
        ensures within { IfOk result (λ x. x.1 ≤ length body.now) }
        ensures stays { OnOk result (self.new ≡ hearing self.new.heard self.old) }
        ensures forgotten { OnErr result (self.new ≡ nothing_came) }
    {
        match next_message(self.alloc, &mut self.listener, registry, stacks, body) {
            Ok(read) => Ok(read),
            Err(refusal) => {
                self.blocks = Blocks::new(self.alloc);
                self.listener = None;
                Err(refusal)
            }
        }
    }

    /// Forgets all that came. It is then as one to which nothing came.
    pub fn forget(&mut self)
        ensures { self.new ≡ nothing_came }
    {
        self.blocks = Blocks::new(self.alloc);
        self.listener = None;
    }

    /// How many bytes stand before the open block.
    pub fn place(&self) -> u64
        ensures { result ≡ self.now.place }
    {
        self.blocks.place()
    }

    /// How many bytes were taken. Those of them that are held end no block, and no header that is refused.
    pub fn fed(&self) -> u64
        ensures fed { result ≡ fed_count self.now }
        ensures unended { ends_part self.now.held ≡ false }
    {
        self.blocks.place() + self.blocks.rest() as u64
    }

    /// Whether a part of a block is held.
    pub fn holds_part(&self) -> bool
        ensures { result ≡ is_some_piece self.now.held }
    {
        self.blocks.rest() > 0
    }
}

/// What so many bytes ended, which were taken.
fn taken(blocks: &mut Blocks, count: usize) -> Taken
    ensures { Ended blocks.old count result blocks.new }
{
    match blocks.next_block() {
        Some(block) => Taken::Whole(count, block),
        None => Taken::Part(count),
    }
}

/// The first message of a body. The listener stays where it is, and where there is none a new one is put there.
fn next_message(
    alloc: Global,
    listener: &mut Option<Listener>,
    registry: &Registry,
    stacks: &Stacks,
    body: &[u8],
) -> Result<(Message, usize), ReadError>
    requires sound { IsSound registry.now }
    requires refused_nothing { RefusedNothing listener.old }
    ensures gives { GivesOr Refuses (λ x. (message_of x.0, heard_by listener.new, drop x.1 body.now)) result
        (message_at registry.now (waits_of stacks.now) (heard_by listener.old) body.now) }
    ensures within { IfOk result (λ x. x.1 ≤ length body.now) }
    ensures refuses_nothing { OnOk result (RefusedNothing listener.new) }
{
    match listener {
        Some(hearing) => hearing.read(registry, body, &Waiting { stacks }),
        None => first_message(alloc, listener, registry, stacks, body),
    }
}

/// The same where there is no listener.
fn first_message(
    alloc: Global,
    listener: &mut Option<Listener>,
    registry: &Registry,
    stacks: &Stacks,
    body: &[u8],
) -> Result<(Message, usize), ReadError>
    requires sound { IsSound registry.now }
    requires none { listener.old ≡ None }
    ensures gives { GivesOr Refuses (λ x. (message_of x.0, heard_by listener.new, drop x.1 body.now)) result
        (message_at registry.now (waits_of stacks.now) (heard_by listener.old) body.now) }
    ensures within { IfOk result (λ x. x.1 ≤ length body.now) }
    ensures refuses_nothing { OnOk result (RefusedNothing listener.new) }
{
    let Ok(mut hearing) = Listener::new(alloc) else {
        return Err(ReadError::NoMemory);
    };
    let read = hearing.read(registry, body, &Waiting { stacks })?;
    *listener = Some(hearing);
    Ok(read)
}
