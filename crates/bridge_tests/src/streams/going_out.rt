//! Messages that go out in their order, however their bytes are cut.
ghost use Rattle.std.specs.Prelude.{IsTrue};
ghost use Rattle.bridge_model.specs.Saying.{AreSayable, IsSayable};
ghost use Rattle.message_model.specs.Messages.{release};
ghost use Rattle.uno_model.specs.Sound.{IsSound};
ghost use Rattle.urp_message.specs.Messages.{message_of};

use super::talk::{BYTES, CALL, TALK, message, release};
use crate::registries::{NODE, registry};
use crate::texts::{name_of, text_of, tid_of};
use bridge_streams::{Outgoing, Unsaid};
use proxy_table::Release;
use std::alloc::Global;
use std::process::Abort;
use uno_base::NoMemory;
use uno_types::Registry;
use urp_message::{Message, may_be_said, weight_of};

/// The most that a message may weigh.
const MOST: u64 = 16_777_216;

/// One more than the talk has bytes is the last cut.
const CUTS: u32 = 96;

/// More drains than the talk has bytes.
const DRAINS: u32 = 100;

/// Whether a message may be said.
fn is_sayable(registry: &Registry, message: &Message) -> bool
    requires { IsSound registry.now }
    ensures { IsTrue result → IsSayable registry.now (message_of message.now) }
{
    if !may_be_said(registry, message) {
        return false;
    }
    weight_of(registry, message) <= MOST
}

/// Says a message, if it may be said.
fn push_sayable(registry: &Registry, unsaid: &mut Unsaid, message: Message) -> Result<(), NoMemory>
    requires sound { IsSound registry.now }
    requires sayable { AreSayable registry.now unsaid.old.said }
    ensures { AreSayable registry.now unsaid.new.said }
{
    if !is_sayable(registry, &message) {
        drop(message);
        return Ok(());
    }
    unsaid.push(message)?;
    Ok(())
}

/// Says a message, which may be said.
fn says(rt: &impl Abort, alloc: Global, registry: &Registry, unsaid: &mut Unsaid, what: &str)
    requires sound { IsSound registry.now }
    requires sayable { AreSayable registry.now unsaid.old.said }
    ensures { AreSayable registry.now unsaid.new.said }
{
    let message = message(rt, alloc, what);
    push_sayable(registry, unsaid, message).expect(rt, "no memory");
}

fn says_all(
    rt: &impl Abort,
    alloc: Global,
    registry: &Registry,
    unsaid: &mut Unsaid,
    talk: &[&'static str],
)
    requires sound { IsSound registry.now }
    requires sayable { AreSayable registry.now unsaid.old.said }
    ensures { AreSayable registry.now unsaid.new.said }
{
    for what in talk {
        says(rt, alloc, registry, unsaid, what);
    }
}

/// Takes bytes that wait, if any do, so many at most.
fn drain(
    rt: &impl Abort,
    registry: &Registry,
    outgoing: &mut Outgoing,
    unsaid: &mut Unsaid,
    most: u32,
    all: &mut Vec<u8>,
)
    requires sound { IsSound registry.now }
    requires sayable { AreSayable registry.now unsaid.old.said }
    ensures { AreSayable registry.now unsaid.new.said }
{
    if !outgoing.waits(unsaid) {
        return;
    }
    let bytes = outgoing.drain(registry, unsaid, most);
    all.extend_from_slice(&bytes.expect(rt, "no memory")).ok();
}

/// Sees which bytes wait, so many at a time.
fn see_drained(
    rt: &impl Abort,
    alloc: Global,
    registry: &Registry,
    outgoing: &mut Outgoing,
    unsaid: &mut Unsaid,
    most: u32,
    wanted: &[u8],
)
    requires sound { IsSound registry.now }
    requires sayable { AreSayable registry.now unsaid.old.said }
{
    let mut all = Vec::new(alloc);
    for _turn in 0..DRAINS {
        drain(rt, registry, outgoing, unsaid, most, &mut all);
    }
    assert!(rt; all.as_slice() == wanted);
}

/// Sees that the talk goes out as its bytes, so many at a time.
fn see_talk(rt: &impl Abort, alloc: Global, registry: &Registry, most: u32)
    requires { IsSound registry.now }
{
    let mut outgoing = Outgoing::new(alloc).expect(rt, "no memory");
    let mut unsaid = Unsaid::new(alloc, tid_of(rt, alloc, b"U"));
    says_all(rt, alloc, registry, &mut unsaid, TALK);
    see_drained(rt, alloc, registry, &mut outgoing, &mut unsaid, most, BYTES);
}

#[test]
fn a_talk_goes_out_in_its_order_at_each_cut(rt: HostRuntime) {
    let registry = registry(&rt, rt.alloc());
    for most in 1..CUTS {
        see_talk(&rt, rt.alloc(), &registry, most);
    }
}

/// Whether a release may be said.
fn may_release(
    rt: &impl Abort,
    alloc: Global,
    registry: &Registry,
    thread: &[u8],
    oid: &str,
    face: &str,
) -> bool
    requires { IsSound registry.now }
    ensures { IsTrue result → IsSayable registry.now (release thread.now oid.now face.now) }
{
    let message = release(rt, alloc, thread, oid, face);
    is_sayable(registry, &message)
}

/// Sees the bytes of a release in the room that was kept for it.
fn see_release(
    rt: &impl Abort,
    alloc: Global,
    registry: &Registry,
    thread: &[u8],
    oid: &str,
    face: &str,
)
    requires { IsSound registry.now }
{
    assert!(rt; may_release(rt, alloc, registry, thread, oid, face));
    let mut outgoing = Outgoing::new(alloc).expect(rt, "no memory");
    let mut unsaid = Unsaid::new(alloc, tid_of(rt, alloc, thread));
    unsaid.keep_one().expect(rt, "no memory");
    unsaid.release(Release {
        oid: text_of(rt, alloc, oid),
        face: name_of(rt, alloc, face),
    });
    see_drained(
        rt,
        alloc,
        registry,
        &mut outgoing,
        &mut unsaid,
        MANY,
        RELEASE,
    );
}

/// More bytes than the talk has.
const MANY: u32 = 1000;

/// A release on the thread `U`, where nothing was said before.
const RELEASE: &[u8] = b"\0\0\0\x1A\0\0\0\x01\xF8\x02\x96\0\0\x0Ademo.XNode\x03S;1\0\0\x01U\0\0";

#[test]
fn a_release_goes_out_on_the_thread_of_releases(rt: HostRuntime) {
    let registry = registry(&rt, rt.alloc());
    see_release(&rt, rt.alloc(), &registry, b"U", "S;1", NODE);
}

/// Says the call, lets three of its bytes go out, and forgets the others.
fn see_forgotten(
    rt: &impl Abort,
    alloc: Global,
    registry: &Registry,
    outgoing: &mut Outgoing,
    unsaid: &mut Unsaid,
)
    requires sound { IsSound registry.now }
    requires sayable { AreSayable registry.now unsaid.old.said }
    ensures { AreSayable registry.now unsaid.new.said }
{
    assert!(rt; !outgoing.waits(unsaid));
    says(rt, alloc, registry, unsaid, "call");
    assert!(rt; outgoing.waits(unsaid));
    drop(outgoing.drain(registry, unsaid, 3).expect(rt, "no memory"));
    assert!(rt; outgoing.waits(unsaid) && unsaid.is_empty());
    outgoing.forget();
    assert!(rt; !outgoing.waits(unsaid));
}

/// Sees that a call is told in full again behind one that is forgotten.
fn see_told_again(rt: &impl Abort, alloc: Global, registry: &Registry)
    requires { IsSound registry.now }
{
    let mut outgoing = Outgoing::new(alloc).expect(rt, "no memory");
    let mut unsaid = Unsaid::new(alloc, tid_of(rt, alloc, b"U"));
    see_forgotten(rt, alloc, registry, &mut outgoing, &mut unsaid);
    says(rt, alloc, registry, &mut unsaid, "call");
    see_drained(rt, alloc, registry, &mut outgoing, &mut unsaid, MANY, CALL);
}

#[test]
fn what_is_forgotten_is_told_in_full_again(rt: HostRuntime) {
    let registry = registry(&rt, rt.alloc());
    see_told_again(&rt, rt.alloc(), &registry);
}
