//! The end that reads messages.
ghost use Rattle.std.specs.Prelude.{◌≡◌, ℕ, ◌≤◌, ◌++◌, List, length, take, drop, IfOk, OnOk, OnErr, MatchOption, MatchResult, IsOk, Some, None, Err};
ghost use Rattle.message_model.specs.Headers.{Heard as Remembered, nothing_heard};
ghost use Rattle.message_model.specs.Messages.{Message as Said};
ghost use Rattle.message_model.specs.ReadingMessages.{message_at};
ghost use Rattle.message_model.specs.SpellingMessages.{SpellsMessage};
ghost use Rattle.uno_model.specs.Sound.{IsSound};
ghost use Rattle.urp_message.specs.Listening.{Refuses, refusal_of};
ghost use Rattle.urp_message.specs.Messages.{message_of, heard_of};
ghost use Rattle.urp_message.specs.declared.error.ReadError.{ReadError};
ghost use Rattle.urp_wire.specs.Gives.{GivesOr};

mod message;
mod opening;
mod part;
mod reply;
mod request;
mod target;
mod values;

use crate::remembered::{Heard, Last};
use crate::{Expects, Message, ReadError};
use message::read_message;
use std::alloc::Global;
use std::marker::Model;
use uno_base::NoMemory;
use uno_types::Registry;
use urp_cache::ReadCaches;
use urp_wire::{Reason, WireError};

/// What an end remembers of the direction in which it reads: the slots and the last names (URP specification, messages, caches).
/// After a refusal it only refuses.
#[derive(Drop)]
pub struct Listener {
    alloc: Global,
    heard: Heard,
    refusal: Option<ReadError>,
}

impl Model for Listener {
    ghost use Rattle.std.specs.Coded.{codes};
    ghost use Rattle.uno_model.specs.Codes.{kind_code};
    ghost use Rattle.urp_message.specs.Listening.{Listening};
    ghost use Rattle.urp_message.specs.Messages.{heard_of};

    ghost Value = { Listening };

    ghost coded = { Prim.hlevel (codes, kind_code) };

    ghost view = { λ l. record { heard = heard_of l.heard; refusal = l.refusal } };
}

impl Listener {
    /// A listener to a direction in which nothing was said.
    #[tactic(auto, unfolding(urp_model::specs::Tables::no_tables))]
    pub fn new(alloc: Global) -> Result<Listener, NoMemory>
        ensures { IfOk result (λ listener. listener ≡ record { heard = nothing_heard; refusal = None }) }
    {
        let caches = ReadCaches::new(alloc)?;
        let last = Last {
            kind: None,
            oid: None,
            tid: None,
        };
        let heard = Heard { caches, last };
        Ok(Listener {
            alloc,
            heard,
            refusal: None,
        })
    }

    /// The first message of a body, and how many bytes spell it. Objects in its values are the peer's, under the interfaces at their
    /// places.
    pub fn read<E: Expects>(
        &mut self,
        registry: &Registry,
        body: &[u8],
        expect: &E,
    ) -> Result<(Message, usize), ReadError>
        requires { IsSound registry.now }
        ensures gives { self.old.refusal ≡ None → GivesOr Refuses (λ x. (message_of x.0, self.new.heard, drop x.1 body.now)) result (message_at registry.now (E.calls expect.now) self.old.heard body.now) }
        ensures found { self.old.refusal ≡ None → IfOk result (λ x. (x.1 ≤ length body.now)
            × SpellsMessage registry.now (E.calls expect.now) self.old.heard (message_of x.0) (take x.1 body.now) self.new.heard) }
        ensures only { self.old.refusal ≡ None → (m : Said) (used rest : List ℕ) (after : Remembered)
            → SpellsMessage registry.now (E.calls expect.now) self.old.heard m used after → body.now ≡ used ++ rest
            → MatchResult result (λ x. (message_of x.0 ≡ m) × (x.1 ≡ length used) × (self.new.heard ≡ after)) (λ e. e ≡ ReadError.NoMemory) }
        ensures refuses { (e : ReadError) → self.old.refusal ≡ Some e → (result ≡ Err e) × (self.new ≡ self.old) }
        ensures remembers { self.old.refusal ≡ None → MatchResult result (λ x. self.new.refusal ≡ None) (λ e. self.new.refusal ≡ Some e) }
    {
        refused(self.refusal)?;
        match read_message(self.alloc, registry, &mut self.heard, expect, body) {
            Ok((message, rest)) => Ok((message, body.len() - rest.len())),
            Err(error) => {
                let refusal = refusal_of(error);
                self.refusal = Some(refusal);
                Err(refusal)
            }
        }
    }
}

/// The refusal that there was, if there was one.
fn refused(refusal: Option<ReadError>) -> Result<(), ReadError>
    ensures { MatchOption refusal (IsOk result) (λ e. result ≡ Err e) }
{
    match refusal {
        None => Ok(()),
        Some(refusal) => Err(refusal),
    }
}

/// A message that is not whole runs past its block.
fn refusal_of(error: WireError) -> ReadError
    ensures { result ≡ refusal_of error }
{
    match error {
        WireError::NoMemory => ReadError::NoMemory,
        WireError::Short => ReadError::Broken(Reason::ShortMessage),
        WireError::Bad(reason) => ReadError::Broken(reason),
    }
}
