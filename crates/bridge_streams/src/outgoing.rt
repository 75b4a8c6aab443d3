//! What goes out: the bytes that are spelled and not drained, and what is remembered of the messages that were spelled.
ghost use Rattle.std.specs.Prelude.{◌≡◌, List, None, length, take, IfOk, OnOk, OnErr};
ghost use Rattle.bridge_model.specs.Answers.{is_some_piece};
ghost use Rattle.bridge_model.specs.Going.{spells, spells_for};
ghost use Rattle.bridge_model.specs.Sides.{nothing_goes};
ghost use Rattle.message_model.specs.WritingMessages.{message_spelling, after_message};
ghost use Rattle.uno_model.specs.Entities.{Entity};
ghost use Rattle.uno_model.specs.Sound.{IsSound};
ghost use Rattle.urp_message.specs.Messages.{message_of};
ghost use Rattle.urp_model.specs.Blocks.{spell_block};
ghost use Rattle.bridge_model.specs.Saying.{IsSayable, AreSayable};
ghost use Rattle.bridge_streams.specs.Draining.{Drained, waiting_bytes};
ghost use Rattle.bridge_streams.specs.Queues.{nothing_unsaid, with_said};
ghost use Rattle.bridge_streams.specs.Spoken.{spoken_by};

use crate::Unsaid;
use crate::ready::Ready;
use std::alloc::Global;
use std::marker::Model;
use uno_base::NoMemory;
use uno_types::Registry;
use urp_message::{Message, Speaker};

/// Messages are spelled as far as the bytes are wanted, and no earlier.
#[derive(Drop)]
pub struct Outgoing {
    alloc: Global,
    ready: Ready,
    speaker: Option<Speaker>,
}

impl Model for Outgoing {
    ghost use Rattle.std.specs.Coded.{codes};
    ghost use Rattle.bridge_model.specs.Sides.{Outgoing as Plain};
    ghost use Rattle.uno_model.specs.Codes.{kind_code};
    ghost use Rattle.bridge_streams.specs.Spoken.{spoken_by};

    ghost Value = { Plain };

    ghost coded = { Prim.hlevel (codes, kind_code) };

    ghost view = { λ o. record { ready = o.ready; spoken = spoken_by o.speaker } };
}

impl Outgoing {
    /// Nothing was said.
    pub fn new(alloc: Global) -> Result<Outgoing, NoMemory>
        ensures { IfOk result (λ outgoing. outgoing ≡ nothing_goes) }
    {
        let speaker = Speaker::new(alloc)?;
        Ok(Outgoing {
            alloc,
            ready: Ready::new(alloc),
            speaker: Some(speaker),
        })
    }

    /// The next bytes, at most so many. After want of memory nothing waits any more.
    pub fn drain(
        &mut self,
        registry: &Registry,
        unsaid: &mut Unsaid,
        max: u32,
    ) -> Result<Vec<u8>, NoMemory>
        requires sound { IsSound registry.now }
        requires sayable { AreSayable registry.now unsaid.old.said }
        ensures bytes { IfOk result (λ bytes. bytes.items ≡ take max (waiting_bytes registry.now unsaid.old.said self.old)) }
        ensures drained { IfOk result (λ bytes. Drained registry.now (length bytes.items) self.old unsaid.old self.new unsaid.new) }
        ensures forgotten { OnErr result (self.new ≡ nothing_goes) }
        ensures unsaid { OnErr result (unsaid.new ≡ nothing_unsaid unsaid.old.tid) }
        ensures rest { AreSayable registry.now unsaid.new.said }
    {
        match self.next_bytes(registry, unsaid, max as usize) {
            Ok(bytes) => Ok(bytes),
            Err(NoMemory) => {
                self.forget();
                unsaid.clear();
                Err(NoMemory)
            }
        }
    }

    /// Whether bytes wait.
    pub fn waits(&self, unsaid: &Unsaid) -> bool
        ensures { (reg : List Entity) → result ≡ is_some_piece (waiting_bytes reg unsaid.now.said self.now) }
    {
        self.ready.len() > 0 || !unsaid.is_empty()
    }

    /// Forgets the bytes, and all that is remembered.
    pub fn forget(&mut self)
        ensures { self.new ≡ nothing_goes }
    {
        self.ready = Ready::new(self.alloc);
        self.speaker = None;
    }

    /// The next bytes, at most so many.
    fn next_bytes(
        &mut self,
        registry: &Registry,
        unsaid: &mut Unsaid,
        most: usize,
    ) -> Result<Vec<u8>, NoMemory>
        requires sound { IsSound registry.now }
        requires sayable { AreSayable registry.now unsaid.old.said }
        ensures bytes { IfOk result (λ bytes. bytes.items ≡ take most (waiting_bytes registry.now unsaid.old.said self.old)) }
        ensures drained { IfOk result (λ bytes. Drained registry.now (length bytes.items) self.old unsaid.old self.new unsaid.new) }
        ensures tid { unsaid.new.tid ≡ unsaid.old.tid }
        ensures rest { AreSayable registry.now unsaid.new.said }
    {
        self.spell_for(registry, unsaid, most)?;
        let bytes = self.ready.take(most.min(self.ready.len()))?;
        Ok(bytes)
    }

    /// Spells as few messages as serve for so many bytes.
    fn spell_for(
        &mut self,
        registry: &Registry,
        unsaid: &mut Unsaid,
        wanted: usize,
    ) -> Result<(), NoMemory>
        requires sound { IsSound registry.now }
        requires sayable { AreSayable registry.now unsaid.old.said }
        ensures outgoing { OnOk result (self.new ≡ (spells_for registry.now wanted unsaid.old.said self.old).outgoing) }
        ensures unsaid { OnOk result (unsaid.new ≡ with_said (spells_for registry.now wanted unsaid.old.said self.old).unsaid unsaid.old) }
        ensures tid { unsaid.new.tid ≡ unsaid.old.tid }
        ensures rest { AreSayable registry.now unsaid.new.said }
    {
        while self.ready.len() < wanted {
            let Some(message) = unsaid.first() else {
                return Ok(());
            };
            self.spell(registry, message)?;
            unsaid.drop_first();
        }
        Ok(())
    }

    /// Spells a message.
    fn spell(&mut self, registry: &Registry, message: &Message) -> Result<(), NoMemory>
        requires sound { IsSound registry.now }
        requires sayable { IsSayable registry.now (message_of message.now) }
        ensures { OnOk result (self.new ≡ spells registry.now (message_of message.now) self.old) }
    {
        let block = write(self.alloc, &mut self.speaker, registry, message)?;
        self.ready.push(block)?;
        Ok(())
    }
}

/// The block of a message. The speaker stays where it is, and where there is none a new one is put there.
fn write(
    alloc: Global,
    speaker: &mut Option<Speaker>,
    registry: &Registry,
    message: &Message,
) -> Result<Vec<u8>, NoMemory>
    requires sound { IsSound registry.now }
    requires sayable { IsSayable registry.now (message_of message.now) }
    ensures block { IfOk result (λ block. block.items ≡ spell_block 1 (message_spelling registry.now (message_of message.now) (spoken_by speaker.old))) }
    ensures after { OnOk result (spoken_by speaker.new ≡ after_message registry.now (message_of message.now) (spoken_by speaker.old)) }
{
    match speaker {
        Some(speaking) => speaking.write(registry, message),
        None => write_first(alloc, speaker, registry, message),
    }
}

/// The same where there is no speaker: a new one is put there.
fn write_first(
    alloc: Global,
    speaker: &mut Option<Speaker>,
    registry: &Registry,
    message: &Message,
) -> Result<Vec<u8>, NoMemory>
    requires sound { IsSound registry.now }
    requires sayable { IsSayable registry.now (message_of message.now) }
    requires none { speaker.old ≡ None }
    ensures block { IfOk result (λ block. block.items ≡ spell_block 1 (message_spelling registry.now (message_of message.now) (spoken_by speaker.old))) }
    ensures after { OnOk result (spoken_by speaker.new ≡ after_message registry.now (message_of message.now) (spoken_by speaker.old)) }
{
    let mut speaking = Speaker::new(alloc)?;
    let block = speaking.write(registry, message)?;
    *speaker = Some(speaking);
    Ok(block)
}
