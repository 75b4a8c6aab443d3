//! A message at the front of bytes.
ghost use Rattle.std.specs.Prelude.{◌≡◌};
ghost use Rattle.message_model.specs.ReadingMessages.{message_at};
ghost use Rattle.uno_model.specs.Sound.{IsSound};
ghost use Rattle.urp_message.specs.Messages.{message_of, heard_of};
ghost use Rattle.urp_wire.specs.Gives.{Gives};

use super::opening::opens_reply;
use super::reply::reply;
use super::request::request;
use crate::remembered::Heard;
use crate::{Expects, Message};
use std::alloc::Global;
use uno_types::Registry;
use urp_wire::{WireError, read_byte};

/// The message at the front of bytes, and the bytes behind it.
#[tactic(auto, unfolding(message_model::specs::ReadingMessages::message_at))]
pub(crate) fn read_message<'a, E: Expects>(
    alloc: Global,
    registry: &Registry,
    heard: &mut Heard,
    expect: &E,
    bytes: &'a [u8],
) -> Result<(Message, &'a [u8]), WireError>
    requires { IsSound registry.now }
    ensures { Gives (λ x. (message_of x.0, heard_of heard.new, x.1.now)) result (message_at registry.now (E.calls expect.now) (heard_of heard.old) bytes.now) }
{
    let (first, rest) = read_byte(bytes)?;
    if opens_reply(first) {
        return reply(alloc, registry, heard, expect, first, rest);
    }
    request(alloc, registry, heard, first, rest)
}
