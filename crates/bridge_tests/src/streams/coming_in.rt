//! Bytes that come in, by rows: a row shows the same, however its bytes are cut.
//!
//! A block shows its place and how many messages it says; a call its thread, object, function and arguments, an answer its thread and
//! its values, and a release its thread and object. The last word but one is the place, the last is how many bytes came, with `+` where
//! a part of a block is held.
ghost use Rattle.uno_model.specs.Sound.{IsSound};

use super::talk::{BYTES, CALL};
use crate::registries::{NODE, registry};
use crate::shown::Shown;
use crate::texts::{name_of, text_of, tid_of};
use crate::values::{show_answer, show_values};
use bridge_streams::{Incoming, Taken, Waiting};
use call_stacks::Stacks;
use plan_types::{Frame, Outgoing};
use std::alloc::Global;
use std::process::Abort;
use uno_types::{Registry, Tid};
use urp_message::{Expects, Message, ReadError, Reason};
use urp_stream::Block;

const ROWS: &[(&[u8], &str)] = &[
    (
        BYTES,
        " 0 1 call T S;1 3 21 38 1 answer T 42 - 51 1 release U S;1 65 1 answer T 42 - 81 1 call T S;1 3 21 94 94",
    ),
    (
        b"\0\0\0\x28\0\0\0\x03\xF8\x03\x96\0\0\x0Ademo.XNode\x03S;1\0\0\x01T\0\0\0\0\0\x15\x03\0\0\0\x01\x03\0\0\0\x02",
        " 0 3 call T S;1 3 21 call T S;1 3 1 call T S;1 3 2 48 48",
    ),
    (b"\0\0\0\x05\0\0\0\x01\x80\0", " 0 10 +"),
    (b"\0\0\0\x05\0\0\0", " 0 7 +"),
    (b"\0\0\0\x05\0\0\0\x01\x03\0\0\0\x15", " 0 1 NoLast 0 0"),
    (
        b"\0\0\0\x08\0\0\0\x01\x88\x01V\0\x01\0\0\x2A",
        " 0 1 NobodyWaits 0 0",
    ),
];

/// Headers that are refused at their eighth byte.
const REFUSED: &[(&[u8], &str)] = &[
    (b"\x01\0\0\x01\0\0\0\x01", " TooLarge"),
    (b"\x01\0\0\x01\0\0\0\0", " TooLarge"),
    (b"\0\0\0\x05\0\0\0\0", " NoMessages"),
];

fn show_name(shown: &mut Shown, what: &str, tid: &Tid) {
    shown.word(what);
    shown.word(str::from_utf8(tid.as_bytes()).unwrap_or("?"));
}

fn show_message(shown: &mut Shown, message: &Message) {
    match message {
        Message::Request {
            tid,
            oid,
            face: _,
            function,
            args,
        } => {
            show_name(shown, "call", tid);
            shown.word(oid.as_str());
            shown.number(u64::from(*function));
            show_values(shown, args);
        }
        Message::Release { tid, oid, face: _ } => {
            show_name(shown, "release", tid);
            shown.word(oid.as_str());
        }
        Message::Reply {
            tid,
            face: _,
            function: _,
            answer,
        } => {
            show_name(shown, "answer", tid);
            show_answer(shown, answer);
        }
    }
}

/// Those that the rows have.
fn show_reason(shown: &mut Shown, reason: Reason) {
    match reason {
        Reason::TooLarge => shown.word("TooLarge"),
        Reason::NoMessages => shown.word("NoMessages"),
        Reason::NoLast => shown.word("NoLast"),
        Reason::NobodyWaits => shown.word("NobodyWaits"),
        _ => shown.word("?"),
    }
}

/// So many bytes at the front, or all, and what stands behind them.
fn split(bytes: &[u8], count: usize) -> (&[u8], &[u8]) {
    bytes.split_at(count.min(bytes.len()))
}

/// Reads the message at the front, and tells how many bytes it has; nothing where it is refused.
fn read(
    registry: &Registry,
    stacks: &Stacks,
    incoming: &mut Incoming,
    body: &[u8],
    shown: &mut Shown,
) -> Option<usize>
    requires { IsSound registry.now }
{
    match incoming.read(registry, stacks, body) {
        Ok((message, size)) => {
            show_message(shown, &message);
            Some(size)
        }
        Err(ReadError::Broken(reason)) => {
            show_reason(shown, reason);
            None
        }
        Err(ReadError::NoMemory) => {
            shown.word("no memory");
            None
        }
    }
}

/// Reads the messages that a block says that it has, up to one that is refused.
fn read_all(
    registry: &Registry,
    stacks: &Stacks,
    incoming: &mut Incoming,
    block: &Block,
    shown: &mut Shown,
)
    requires { IsSound registry.now }
{
    let mut rest = block.body.as_slice();
    for _turn in 0..block.count {
        let Some(size) = read(registry, stacks, incoming, rest, shown) else {
            return
        };
        let (_, behind) = split(rest, size);
        rest = behind;
    }
}

/// More bytes than a row has.
const MANY: usize = 1000;

/// Feeds bytes, which are few.
fn feed(rt: &impl Abort, incoming: &mut Incoming, piece: &[u8]) -> Taken {
    assert!(rt; piece.len() <= MANY);
    assert!(rt; incoming.fed() <= MANY as u64);
    incoming.feed(piece).expect(rt, "no memory")
}

/// Takes the bytes at the front of a piece, and tells how many.
fn take(
    rt: &impl Abort,
    registry: &Registry,
    stacks: &Stacks,
    incoming: &mut Incoming,
    piece: &[u8],
    shown: &mut Shown,
) -> usize
    requires { IsSound registry.now }
{
    match feed(rt, incoming, piece) {
        Taken::Part(count) => count,
        Taken::Whole(count, block) => {
            shown.number(block.place);
            shown.number(u64::from(block.count));
            read_all(registry, stacks, incoming, &block, shown);
            count
        }
        Taken::Refused(count, reason) => {
            show_reason(shown, reason);
            count
        }
    }
}

/// Takes bytes, so many at a time at most.
fn take_all(
    rt: &impl Abort,
    registry: &Registry,
    stacks: &Stacks,
    incoming: &mut Incoming,
    bytes: &[u8],
    most: usize,
    shown: &mut Shown,
)
    requires { IsSound registry.now }
{
    let mut rest = bytes;
    for _turn in 0..bytes.len() {
        if rest.is_empty() {
            return;
        }
        let (piece, _) = split(rest, most);
        let count = take(rt, registry, stacks, incoming, piece, shown);
        let (_, behind) = split(rest, count);
        rest = behind;
    }
}

/// A call of `twice` waits on the thread `T`.
fn waiting(rt: &impl Abort, alloc: Global) -> Stacks {
    let mut stacks = Stacks::new(alloc);
    let frame = Frame::Out(Outgoing {
        number: 0,
        oid: text_of(rt, alloc, "S;1"),
        face: name_of(rt, alloc, NODE),
        function: 3,
    });
    let tid = tid_of(rt, alloc, b"T");
    stacks.push(&tid, frame).expect(rt, "no memory");
    stacks
}

fn show_end(incoming: &Incoming, shown: &mut Shown) {
    shown.number(incoming.place());
    shown.number(incoming.fed());
    if incoming.holds_part() {
        shown.word("+");
    }
}

/// Sees what bytes show, so many at a time; behind them, how many came where that is asked.
fn see(
    rt: &impl Abort,
    alloc: Global,
    registry: &Registry,
    stacks: &Stacks,
    row: (&[u8], &str),
    most: usize,
    end: bool,
)
    requires { IsSound registry.now }
{
    let (bytes, wanted) = row;
    let mut incoming = Incoming::new(alloc).expect(rt, "no memory");
    let mut shown = Shown::new(alloc);
    take_all(rt, registry, stacks, &mut incoming, bytes, most, &mut shown);
    if end {
        show_end(&incoming, &mut shown);
    }
    shown.see(rt, wanted, wanted);
}

/// Sees that a row shows what it should at each cut.
fn see_cuts(
    rt: &impl Abort,
    alloc: Global,
    registry: &Registry,
    stacks: &Stacks,
    row: (&[u8], &str),
    end: bool,
)
    requires { IsSound registry.now }
{
    let (bytes, _) = row;
    for most in 0..bytes.len() {
        see(rt, alloc, registry, stacks, row, most + 1, end);
    }
}

#[test]
fn bytes_show_what_the_rows_say_at_each_cut(rt: HostRuntime) {
    let registry = registry(&rt, rt.alloc());
    let stacks = waiting(&rt, rt.alloc());
    for row in ROWS {
        see_cuts(&rt, rt.alloc(), &registry, &stacks, *row, true);
    }
    for row in REFUSED {
        see_cuts(&rt, rt.alloc(), &registry, &stacks, *row, false);
    }
}

/// A call with a short header, and the front of a block.
const FORGOTTEN: &[(&[u8], &str)] = &[
    (
        b"\0\0\0\x05\0\0\0\x01\x03\0\0\0\x15",
        " 0 1 call T S;1 3 21 0 0 0 1 NoLast 0 0 0 1 call T S;1 3 21",
    ),
    (
        b"\0\0\0",
        " 0 1 call T S;1 3 21 0 0 0 3 + 0 1 call T S;1 3 21",
    ),
];

/// Takes a call, forgets it, and takes bytes; at last the call once more.
fn forget_between(
    rt: &impl Abort,
    registry: &Registry,
    stacks: &Stacks,
    incoming: &mut Incoming,
    bytes: &[u8],
    shown: &mut Shown,
)
    requires { IsSound registry.now }
{
    take_all(rt, registry, stacks, incoming, CALL, MANY, shown);
    incoming.forget();
    show_end(incoming, shown);
    take_all(rt, registry, stacks, incoming, bytes, MANY, shown);
    show_end(incoming, shown);
    incoming.forget();
    take_all(rt, registry, stacks, incoming, CALL, MANY, shown);
}

/// Sees what is shown where a call is forgotten.
fn see_forgotten(
    rt: &impl Abort,
    alloc: Global,
    registry: &Registry,
    stacks: &Stacks,
    row: (&[u8], &str),
)
    requires { IsSound registry.now }
{
    let (bytes, wanted) = row;
    let mut incoming = Incoming::new(alloc).expect(rt, "no memory");
    let mut shown = Shown::new(alloc);
    forget_between(rt, registry, stacks, &mut incoming, bytes, &mut shown);
    shown.see(rt, wanted, wanted);
}

#[test]
fn what_is_forgotten_is_as_if_it_never_came(rt: HostRuntime) {
    let registry = registry(&rt, rt.alloc());
    let stacks = waiting(&rt, rt.alloc());
    for row in FORGOTTEN {
        see_forgotten(&rt, rt.alloc(), &registry, &stacks, *row);
    }
}

/// Whether a call of `twice` waits on a thread.
fn waits(stacks: &Stacks, tid: &[u8]) -> bool {
    match (Waiting { stacks }).waits(tid) {
        Some((face, function)) => face.as_str() == NODE && function == 3,
        None => false,
    }
}

#[test]
fn the_call_at_the_top_of_a_stack_waits(rt: HostRuntime) {
    let stacks = waiting(&rt, rt.alloc());
    assert!(&rt; Waiting { stacks: &stacks }.waits(b"V").is_none());
    assert!(&rt; waits(&stacks, b"T"));
    assert!(&rt; stacks.any_waits());
    assert!(&rt; !Stacks::new(rt.alloc()).any_waits());
}
