//! What the front page shows: what one end writes, the other reads.
ghost use Rattle.std.specs.Prelude.{[]};
ghost use Rattle.uno_model.specs.Sound.{IsSound};

use crate::judging::see;
use std::alloc::Global;
use uno_base::NoMemory;
use uno_model::the_built_in_entities_are_sound;
use uno_types::{Name, Registry, Text, Tid};
use urp_message::{Expects, Listener, Message, ReadError, Speaker, may_be_said, weight_of};

/// The sender holds the object `S;1` once less.
fn release(alloc: Global) -> Result<Message, NoMemory> {
    let tid = Tid::of(alloc, b"T")?;
    let oid = Text::of(alloc, "S;1")?;
    let face = Name::of(alloc, "com.sun.star.uno.XInterface")?;
    Ok(Message::Release { tid, oid, face })
}

/// The block of a message, where it may be said.
fn written(alloc: Global, registry: &Registry, message: &Message) -> Result<Vec<u8>, NoMemory>
    requires { IsSound registry.now }
{
    if !may_be_said(registry, message) || weight_of(registry, message) > 16_777_216 {
        return Ok(Vec::new(alloc));
    }
    let mut speaker = Speaker::new(alloc)?;
    speaker.write(registry, message)
}

/// No call waits for its answer at the other end.
struct NoCalls;

impl Expects for NoCalls {
    ghost calls = { λ _. [] };

    fn waits(&self, _: &[u8]) -> Option<(&Name, u16)> {
        None
    }
}

/// Whether the body of a block is heard as a release of `S;1`, to its last byte.
fn is_heard(
    alloc: Global,
    registry: &Registry,
    body: &[u8],
    waiting: &impl Expects,
) -> Result<bool, NoMemory>
    requires { IsSound registry.now }
{
    let mut listener = Listener::new(alloc)?;
    let heard = listener.read(registry, body, waiting);
    drop(listener);
    let right = is_release(&heard, body.len());
    drop(heard);
    Ok(right)
}

/// Whether all of so many bytes was a release of `S;1`.
fn is_release(heard: &Result<(Message, usize), ReadError>, len: usize) -> bool {
    match heard {
        Ok((message, used)) => *used == len && releases(message, "S;1"),
        Err(_) => false,
    }
}

fn releases(message: &Message, object: &str) -> bool {
    let Message::Release { oid, .. } = message else {
        return false;
    };
    oid.as_str() == object
}

/// Whether what one end says is heard by the other, which is handed all behind the header of the block.
fn is_said_and_heard(
    alloc: Global,
    registry: &Registry,
    message: &Message,
) -> Result<bool, NoMemory>
    requires { IsSound registry.now }
{
    let block = written(alloc, registry, message)?;
    match block.get(8..) {
        Some(body) => is_heard(alloc, registry, body, &NoCalls),
        None => Ok(false),
    }
}

#[test]
fn what_one_end_writes_the_other_reads(rt: HostRuntime) {
    let registry = Registry::new(rt.alloc()).expect(&rt, "no memory");
    the_built_in_entities_are_sound();
    let message = release(rt.alloc()).expect(&rt, "no memory");
    let heard = is_said_and_heard(rt.alloc(), &registry, &message);
    drop(message);
    drop(registry);
    see(&rt, heard == Ok(true), "S;1");
}
