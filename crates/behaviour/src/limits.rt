//! The limits of values, of messages and of stacks, and what messages weigh.
ghost use Rattle.std.specs.Prelude.{◌≡◌, ◌+◌, ◌-◌, ◌^◌, min};
ghost use Rattle.message_model.specs.Sayable.{heading_weight, name_weight};
ghost use Rattle.plan_model.specs.Calling.{is_full};
ghost use Rattle.plan_model.specs.Evaluation.{is_heavy, is_deep};
ghost use Rattle.uno_model.specs.Values.{depth, depth_in};
ghost use Rattle.uno_model.specs.Weights.{text_weight};
ghost use Rattle.uno_values.specs.Values.{plain_of, plains_of};

use uno_types::Tid;
use uno_values::{Value, depth_of};

/// The most bytes that a block may have.
const HEAVIEST: u64 = 16_777_216;

/// The most levels that a value may have.
const DEEPEST: u64 = 64;

/// The most frames that a stack may have.
const MOST_FRAMES: u32 = 1000;

/// Whether a value or a message weighs more than a block may have bytes; the weight is told up to 2^64 - 1.
#[tactic(auto, unfolding(plan_model::specs::Evaluation::is_heavy))]
pub(crate) fn is_heavy(weight: u64) -> bool
    ensures { result ≡ is_heavy weight }
{
    HEAVIEST < weight
}

/// Whether a value is nested deeper than it may be.
#[tactic(auto, unfolding(plan_model::specs::Evaluation::is_deep))]
pub(crate) fn is_deep(depth: u64) -> bool
    ensures { result ≡ is_deep depth }
{
    DEEPEST < depth
}

/// Whether one of the values is nested deeper than it may be.
pub(crate) fn has_deep(values: &[Value]) -> bool
    ensures { result ≡ is_deep (depth_in (plains_of values.now)) }
{
    for value in values {
        if is_deep(depth_of(value)) {
            return true;
        }
    }
    false
}

/// Whether a stack has as many frames as it may when a call is made.
#[tactic(auto, unfolding(plan_model::specs::Calling::is_full))]
pub(crate) fn is_full(frames: u32) -> bool
    ensures { result ≡ is_full frames }
{
    frames >= MOST_FRAMES
}

/// Flags in two bytes and a function in two; a class byte and a slot; a slot.
const OPENING: u64 = 4;

const CLASS_AND_SLOT: u64 = 3;

const SLOT: u64 = 2;

/// The least length that takes five bytes, and the bytes of lengths.
const LONG: u64 = 255;

const LONG_LENGTH: u64 = 5;

const SHORT_LENGTH: u64 = 1;

/// The flags of a reply.
const FLAGS: u64 = 1;

/// The longest header of a request.
pub(crate) fn heading_weight(tid: &Tid, oid: &str, face: &str) -> u64
    ensures { result ≡ min (heading_weight tid.now oid.now face.now) (2 ^ 64 - 1) }
{
    let names = name_weight(oid.as_bytes()).saturating_add(name_weight(tid.as_bytes()));
    let face = text_weight(face.as_bytes()).saturating_add(CLASS_AND_SLOT);
    face.saturating_add(names).saturating_add(OPENING)
}

/// A name with its slot.
pub(crate) fn name_weight(name: &[u8]) -> u64
    ensures { result ≡ min (name_weight name.now) (2 ^ 64 - 1) }
{
    text_weight(name).saturating_add(SLOT)
}

/// A reply: its flags, its thread, and an answer of this weight.
pub(crate) fn reply_weight(tid: &Tid, answer: u64) -> u64
    ensures { result ≡ min (1 + (name_weight tid.now + answer)) (2 ^ 64 - 1) }
{
    name_weight(tid.as_bytes())
        .saturating_add(answer)
        .saturating_add(FLAGS)
}

/// A length, and that many bytes.
fn text_weight(text: &[u8]) -> u64
    ensures { result ≡ min (text_weight text.now) (2 ^ 64 - 1) }
{
    let count = text.len() as u64;
    if count < LONG {
        return count.saturating_add(SHORT_LENGTH);
    }
    count.saturating_add(LONG_LENGTH)
}
