//! The end that writes messages.
ghost use Rattle.std.specs.Int.{w32, to_be_bytes};
ghost use Rattle.std.specs.Prelude.{◌≡◌, ℕ, ◌-◌, ◌^◌, ◌<◌, ◌≤◌, ◌++◌, ◌∷◌, [], List, length, drop, false, true, IfOk, OnOk, OnErr, IsTrue, IsErr, Ok};
ghost use Rattle.message_model.specs.Calls.{Waits};
ghost use Rattle.message_model.specs.Headers.{Heard};
ghost use Rattle.message_model.specs.Messages.{Message as Said};
ghost use Rattle.message_model.specs.ReadingMessages.{message_at};
ghost use Rattle.message_model.specs.Said.{spoken_after, spell, uses_of, AreLeftBy};
ghost use Rattle.message_model.specs.Sayable.{MayBeSaid, message_weight, MessageSpellable, arrived, IsAwaited, MemoriesCorrespond};
ghost use Rattle.message_model.specs.WritingMessages.{nothing_spoken, message_spelling, after_message};
ghost use Rattle.uno_model.specs.Sound.{IsSound};
ghost use Rattle.urp_message.specs.Messages.{message_of, spoken_of};
ghost use Rattle.urp_model.specs.Blocks.{spell_block};

mod heading;
mod message;
mod reply;
mod request;
mod target;

use crate::Message;
use crate::remembered::{Last, Spoken};
use message::put_message;
use std::alloc::Global;
use std::marker::Model;
use uno_base::NoMemory;
use uno_types::Registry;
use urp_cache::SendCaches;

/// What an end remembers of the direction in which it writes: the slots that its names have, and the last names (URP specification,
/// messages, caches). Where memory ran out it writes no more, since the peer would remember other names.
#[derive(Drop)]
pub struct Speaker {
    alloc: Global,
    spoken: Spoken,
    failed: bool,
}

impl Model for Speaker {
    ghost use Rattle.std.specs.Coded.{codes};
    ghost use Rattle.uno_model.specs.Codes.{kind_code};
    ghost use Rattle.urp_message.specs.Messages.{spoken_of};
    ghost use Rattle.urp_message.specs.Speaking.{Saying};

    ghost Value = { Saying };

    ghost coded = { Prim.hlevel (codes, kind_code) };

    ghost view = { λ s. record { spoken = spoken_of s.spoken; failed = s.failed } };
}

impl Speaker {
    /// A speaker in a direction in which nothing was said.
    #[tactic(auto, unfolding(urp_model::specs::Writing::no_names))]
    pub fn new(alloc: Global) -> Result<Speaker, NoMemory>
        ensures { IfOk result (λ speaker. speaker ≡ record { spoken = nothing_spoken; failed = false }) }
    {
        let caches = SendCaches::new(alloc)?;
        let last = Last {
            kind: None,
            oid: None,
            tid: None,
        };
        let spoken = Spoken { caches, last };
        Ok(Speaker {
            alloc,
            spoken,
            failed: false,
        })
    }

    /// The block of a message. Where all messages before it were said from the beginning, the bytes of all of them grow by this block, and
    /// the slots of names are what the whole list of uses leaves.
    pub fn write(&mut self, registry: &Registry, message: &Message) -> Result<Vec<u8>, NoMemory>
        requires sound { IsSound registry.now }
        requires may { MayBeSaid registry.now (message_of message.now) }
        requires light { message_weight (message_of message.now) ≤ 16777216 }
        ensures bytes { IfOk result (λ block. block.items ≡ spell_block 1 (message_spelling registry.now (message_of message.now) self.old.spoken)) }
        ensures remembers { OnOk result (self.new ≡ record { spoken = after_message registry.now (message_of message.now) self.old.spoken; failed = false }) }
        ensures fails { OnErr result (IsTrue self.new.failed) }
        ensures failed { IsTrue self.old.failed → IsErr result }
        ensures read { IfOk result (λ block. (waits : Waits) (heard : Heard) (rest : List ℕ) → MemoriesCorrespond heard self.old.spoken → IsAwaited waits (message_of message.now)
            → (after : Heard) × (message_at registry.now waits heard (drop 8 block.items ++ rest) ≡ Ok (arrived registry.now (message_of message.now), after, rest))
            × MemoriesCorrespond after self.new.spoken) }
        ensures grows { IfOk result (λ block. (said : List Said) → self.old.spoken ≡ spoken_after registry.now said
            → spell registry.now (said ++ message_of message.now ∷ []) ≡ spell registry.now said ++ block.items) }
        ensures goes_on { OnOk result ((said : List Said) → self.old.spoken ≡ spoken_after registry.now said
            → (self.new.spoken ≡ spoken_after registry.now (said ++ message_of message.now ∷ []))
            × AreLeftBy self.new.spoken.names (uses_of (said ++ message_of message.now ∷ []))) }
        ensures spellable { OnOk result (MessageSpellable (message_of message.now)) }
    {
        if self.failed {
            return Err(NoMemory);
        }
        match write_block(self.alloc, registry, message, &mut self.spoken) {
            Ok(block) => Ok(block),
            Err(_) => {
                self.give_up();
                Err(NoMemory)
            }
        }
    }

    /// Writes no more from now on.
    fn give_up(&mut self)
        ensures { IsTrue self.new.failed }
    {
        self.failed = true;
    }
}

/// The block is written once: behind eight bytes, of which the size is filled in when its body is there.
fn write_block(
    alloc: Global,
    registry: &Registry,
    message: &Message,
    spoken: &mut Spoken,
) -> Result<Vec<u8>, NoMemory>
    requires sound { IsSound registry.now }
    requires may { MayBeSaid registry.now (message_of message.now) }
    requires light { message_weight (message_of message.now) ≤ 16777216 }
    ensures bytes { IfOk result (λ block. block.items ≡ spell_block 1 (message_spelling registry.now (message_of message.now) (spoken_of spoken.old))) }
    ensures after { OnOk result (spoken_of spoken.new ≡ after_message registry.now (message_of message.now) (spoken_of spoken.old)) }
    ensures carried { OnOk result (MessageSpellable (message_of message.now)) }
{
    let mut block = begun(alloc)?;
    put_message(alloc, registry, message, spoken, &mut block)?;
    put_size(&mut block);
    Ok(block)
}

/// A block that has only its header, with room for a short body.
fn begun(alloc: Global) -> Result<Vec<u8>, NoMemory>
    ensures items { IfOk result (λ block. block.items ≡ 0 ∷ 0 ∷ 0 ∷ 0 ∷ 0 ∷ 0 ∷ 0 ∷ 1 ∷ []) }
{
    let mut block = Vec::with_capacity(alloc, FIRST_ROOM)?;
    block.extend_from_slice(NO_SIZE_ONE_MESSAGE)?;
    Ok(block)
}

/// A header that says one message, and not yet the size of it (URP specification, blocks).
const NO_SIZE_ONE_MESSAGE: &[u8] = b"\x00\x00\x00\x00\x00\x00\x00\x01";

/// Writes the size of a block's body into its first four bytes.
fn put_size(block: &mut [u8])
    requires header { 8 ≤ length block.old }
    requires small { length block.old < 2 ^ 32 }
    ensures { block.new ≡ to_be_bytes w32 (length block.old - 8) ++ drop 4 block.old }
{
    let size = block.len() - HEADER_SIZE;
    block[..4].copy_from_slice(&(size as u32).to_be_bytes());
}

/// How many bytes stand in front of a block's body.
const HEADER_SIZE: usize = 8;

/// For how many bytes a block has room before it grows. A request or a reply with a few small values takes fewer.
const FIRST_ROOM: usize = 64;
