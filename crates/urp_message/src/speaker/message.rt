//! A message as it is written.
ghost use Rattle.std.specs.Prelude.{◌≡◌, ◌++◌, OnOk};
ghost use Rattle.message_model.specs.Calls.{numbered, is_oneway};
ghost use Rattle.message_model.specs.Sayable.{MessageSpellable};
ghost use Rattle.message_model.specs.WritingMessages.{message_spelling, after_message};
ghost use Rattle.type_registry.specs.Functions.{lent_function};
ghost use Rattle.urp_message.specs.Messages.{message_of, spoken_of};
ghost use Rattle.urp_message.specs.Speaking.{MessageWritable};

use super::heading::Heading;
use super::reply::put_reply;
use super::request::put_request;
use crate::Message;
use crate::remembered::Spoken;
use std::alloc::Global;
use type_registry::function_numbered;
use uno_base::NoMemory;
use uno_types::{Name, Registry};

/// The number of the function by which an object is let go.
const RELEASE: u16 = 2;

/// The body of a message, behind the bytes that are there.
#[tactic(auto, unfolding(message_model::specs::WritingMessages::message_spelling, message_model::specs::WritingMessages::after_message, urp_wire::specs::Written::AreWritable))]
pub(crate) fn put_message(
    alloc: Global,
    registry: &Registry,
    message: &Message,
    spoken: &mut Spoken,
    to: &mut Vec<u8>,
) -> Result<(), NoMemory>
    requires { MessageWritable registry.now (message_of message.now) }
    ensures bytes { OnOk result (to.new.items ≡ to.old.items ++ message_spelling registry.now (message_of message.now) (spoken_of spoken.old)) }
    ensures after { OnOk result (spoken_of spoken.new ≡ after_message registry.now (message_of message.now) (spoken_of spoken.old)) }
    ensures ranges { OnOk result (MessageSpellable (message_of message.now)) }
{
    match message {
        Message::Request {
            tid,
            oid,
            face,
            function,
            args,
        } => {
            let heading = Heading {
                function: *function,
                answered: is_oneway(registry, face, *function),
                tid,
                oid,
                face,
            };
            put_request(alloc, &heading, args, spoken, to)
        }
        Message::Release { tid, oid, face } => {
            let heading = Heading {
                function: RELEASE,
                answered: false,
                tid,
                oid,
                face,
            };
            put_request(alloc, &heading, &[], spoken, to)
        }
        Message::Reply {
            tid,
            face: _,
            function: _,
            answer,
        } => put_reply(alloc, tid, answer, spoken, to),
    }
}

/// Whether a function is one-way, where it is there.
#[tactic(auto, unfolding(message_model::specs::Calls::numbered))]
fn is_oneway(registry: &Registry, face: &Name, function: u16) -> bool
    ensures { result ≡ is_oneway (numbered registry.now face.now function) }
{
    match function_numbered(registry, face.as_str(), function) {
        Some(function) => function.is_oneway(),
        None => false,
    }
}
