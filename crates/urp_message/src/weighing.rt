//! What a message weighs: the length of its body where each name in it is written out, with a second byte of flags and a function of
//! two bytes.
ghost use Rattle.std.specs.Prelude.{◌≡◌, ◌+◌, ◌-◌, ◌^◌, min, length};
ghost use Rattle.message_model.specs.Sayable.{message_weight, answer_weight, heading_weight, name_weight};
ghost use Rattle.uno_model.specs.Values.{any};
ghost use Rattle.uno_model.specs.Weights.{weight, weights, text_weight, kind_weight};
ghost use Rattle.uno_entities.specs.TypeNames.{kind_of};
ghost use Rattle.uno_values.specs.Values.{plain_of, plains_of};
ghost use Rattle.urp_message.specs.Messages.{answer_of, message_of};

use crate::{Answer, Message};
use uno_types::{Name, Registry, Text, Tid};
use uno_values::{any_weight, weight, weights};

/// The weight of a message, as far as a `u64` counts.
pub fn weight_of(registry: &Registry, message: &Message) -> u64
    ensures { result ≡ min (message_weight (message_of message.now)) (2 ^ 64 - 1) }
{
    match message {
        Message::Request {
            tid,
            oid,
            face,
            function: _,
            args,
        } => heading_weight(tid, oid, face).saturating_add(weights(args)),
        Message::Release { tid, oid, face } => heading_weight(tid, oid, face),
        Message::Reply {
            tid,
            face: _,
            function: _,
            answer,
        } => reply_weight(registry, tid, answer),
    }
}

/// The longest header of a request.
fn heading_weight(tid: &Tid, oid: &Text, face: &Name) -> u64
    ensures { result ≡ min (heading_weight tid.now oid.now face.now) (2 ^ 64 - 1) }
{
    let names = name_weight(oid.as_str().as_bytes()).saturating_add(name_weight(tid.as_bytes()));
    let face = text_weight(face.as_str().as_bytes()).saturating_add(CLASS_AND_SLOT);
    face.saturating_add(names).saturating_add(OPENING)
}

/// Flags in two bytes and a function in two; a class byte and a slot; a slot; the flags of a reply.
const OPENING: u64 = 4;

const CLASS_AND_SLOT: u64 = 3;

const SLOT: u64 = 2;

const FLAGS: u64 = 1;

/// The least length that takes five bytes, and the bytes of lengths.
const LONG: u64 = 255;

const LONG_LENGTH: u64 = 5;

const SHORT_LENGTH: u64 = 1;

/// A name with its slot.
fn name_weight(name: &[u8]) -> u64
    ensures { result ≡ min (name_weight name.now) (2 ^ 64 - 1) }
{
    text_weight(name).saturating_add(SLOT)
}

/// A length, and that many bytes.
fn text_weight(text: &[u8]) -> u64
    ensures { result ≡ min (text_weight text.now) (2 ^ 64 - 1) }
{
    let count = text.len() as u64;
    if count < LONG {
        return count.saturating_add(SHORT_LENGTH);
    }
    count.saturating_add(LONG_LENGTH)
}

/// A reply: its flags, its thread, and its answer.
fn reply_weight(registry: &Registry, tid: &Tid, answer: &Answer) -> u64
    ensures { result ≡ min (1 + (name_weight tid.now + answer_weight (answer_of answer.now))) (2 ^ 64 - 1) }
{
    let answer = answer_weight(registry, answer);
    name_weight(tid.as_bytes())
        .saturating_add(answer)
        .saturating_add(FLAGS)
}

/// The values of an answer; an exception is one in an any.
#[tactic(auto, unfolding(uno_model::specs::Weights::weight))]
fn answer_weight(registry: &Registry, answer: &Answer) -> u64
    ensures { result ≡ min (answer_weight (answer_of answer.now)) (2 ^ 64 - 1) }
{
    match answer {
        Answer::Returned { value, outs } => {
            weight(registry, value).saturating_add(weights(outs))
        }
        Answer::Raised(exception) => any_weight(exception),
    }
}
