//! Stacks, by scripts: each row has calls, and what they answer.
//!
//! `push a b1` (the frame of a root), `push a m2` (of a method), `push a o3` (of a call that went out), `pop a`, `top a`,
//! `answer a`, `waits a`, `set a b1`, `depth a`, `nth 0`, `ready 0`, `any`. A frame is answered as it is written, a call that waits by its
//! function, which is 3, a TID by its letter, none as `-`, `NobodyWaits` as `!`, whether any stack waits as `w1` or `w0`; a push and a set
//! answer nothing.
use crate::plan_runs::FACE;
use crate::shown::Shown;
use crate::texts::{name_of, text_of, tid_of};
use call_stacks::{NobodyWaits, Stacks};
use plan_types::{Body, Frame, Outgoing};
use std::alloc::Global;
use std::process::Abort;
use uno_types::{Name, Tid};

const ROWS: &[(&str, &str)] = &[
    ("answer a", " !"),
    ("push a b1,top a,answer a,top a", " b1 ! b1"),
    ("push a m2,answer a,depth a", " ! 1"),
    ("push a b1,push a o3,answer a,top a,depth a", " o3 b1 1"),
    (
        "waits a,push a b1,waits a,push a o3,waits a,push a m4,waits a",
        " - - 3 -",
    ),
    (
        "push a b1,push a m2,set a m4,pop a,pop a,pop a,depth a",
        " m4 b1 - 0",
    ),
    (
        "push a b1,push b b2,push c b3,nth 0,nth 1,nth 2,nth 3",
        " a b c -",
    ),
    (
        "push a b1,push b b2,push c b3,pop b,nth 0,nth 1,nth 2",
        " b2 a c -",
    ),
    (
        "push a b1,push b b2,push c b3,pop b,push b b4,nth 0,nth 1,nth 2",
        " b2 a c b",
    ),
    (
        "push a m1,push b b2,push c m3,push d m4,push c o5,ready 0,ready 1,ready 2,answer c,ready 1,ready 2",
        " a d - o5 c d",
    ),
    (
        "push a b1,push b o2,push c b3,push a m5,answer b,nth 1,depth a,top b,pop c,nth 0,nth 1",
        " o2 c 2 - b3 a -",
    ),
    (
        "any,push a m1,any,push a o2,any,push b o3,answer a,any,set b m4,any",
        " w0 w0 w1 o2 w1 w0",
    ),
    (
        "push a o1,ready 0,set a m2,ready 0,pop a,ready 0,any,push b m3,ready 0,ready 1",
        " - a m2 - w0 b -",
    ),
];

/// The number of a word behind its letter; there is one below 10 in each row.
fn number_in(word: &str) -> u32 {
    match word.as_bytes().last() {
        Some(digit) => u32::from(digit.saturating_sub(b'0')),
        None => 0,
    }
}

fn frame_of(rt: &impl Abort, alloc: Global, word: &str) -> Frame {
    let number = number_in(word);
    match word.as_bytes().first() {
        Some(b'b') => Frame::Base { root: number },
        Some(b'o') => outgoing(rt, alloc, u64::from(number)),
        _ => method(rt, alloc, u64::from(number)),
    }
}

fn outgoing(rt: &impl Abort, alloc: Global, number: u64) -> Frame {
    Frame::Out(Outgoing {
        number,
        oid: text_of(rt, alloc, "C;1"),
        face: name_of(rt, alloc, FACE),
        function: 3,
    })
}

fn method(rt: &impl Abort, alloc: Global, number: u64) -> Frame {
    Frame::Body(Body {
        number,
        object: 1,
        face: name_of(rt, alloc, FACE),
        function: 3,
        from_peer: true,
        variables: Vec::new(alloc),
        place: 0,
    })
}

fn put(said: &mut Shown, letter: &str, number: u64) {
    said.put(letter);
    said.put_number(number);
}

fn put_frame(said: &mut Shown, frame: Option<&Frame>) {
    match frame {
        Some(Frame::Base { root }) => put(said, " b", u64::from(*root)),
        Some(Frame::Body(body)) => put(said, " m", body.number),
        Some(Frame::Out(out)) => put(said, " o", out.number),
        None => said.put(" -"),
    }
}

fn put_call(said: &mut Shown, call: Option<(&Name, u16)>) {
    match call {
        Some((_, function)) => put(said, " ", u64::from(function)),
        None => said.put(" -"),
    }
}

fn put_tid(said: &mut Shown, tid: Option<&Tid>) {
    said.put(" ");
    match tid {
        Some(tid) => said.put(str::from_utf8(tid.as_bytes()).unwrap_or("?")),
        None => said.put("-"),
    }
}

/// Puts a frame in the place of the top one.
fn set(rt: &impl Abort, stacks: &mut Stacks, tid: &Tid, frame: Frame) {
    assert!(rt; stacks.top(tid).is_some(), "no stack to set");
    drop(stacks.set_top(tid, frame));
}

/// Carries out a call that names a stack.
fn step_of(
    rt: &impl Abort,
    alloc: Global,
    stacks: &mut Stacks,
    words: [&str; 3],
    said: &mut Shown,
) {
    let [what, who, frame] = words;
    let tid = tid_of(rt, alloc, who.as_bytes());
    match what {
        "push" => stacks
            .push(&tid, frame_of(rt, alloc, frame))
            .expect(rt, "no memory"),
        "set" => set(rt, stacks, &tid, frame_of(rt, alloc, frame)),
        "pop" => put_frame(said, stacks.pop(&tid).as_ref()),
        "top" => put_frame(said, stacks.top(&tid)),
        "waits" => put_call(said, stacks.waiting_call(tid.as_bytes())),
        "depth" => put(said, " ", stacks.depth(&tid)),
        "answer" => match stacks.answer(&tid) {
            Ok(frame) => put_frame(said, Some(&frame)),
            Err(NobodyWaits) => said.put(" !"),
        },
        _ => said.put(" ?"),
    }
}

fn step(rt: &impl Abort, alloc: Global, stacks: &mut Stacks, call: &str, said: &mut Shown) {
    let mut words = call.split(' ');
    let what = words.next().unwrap_or("");
    let who = words.next().unwrap_or("");
    let frame = words.next().unwrap_or("");
    match what {
        "nth" => put_tid(said, stacks.nth(u64::from(number_in(who)))),
        "ready" => put_tid(said, stacks.ready(u64::from(number_in(who)))),
        "any" => put(said, " w", u64::from(stacks.any_waits())),
        _ => step_of(rt, alloc, stacks, [what, who, frame], said),
    }
}

fn see(rt: &impl Abort, alloc: Global, calls: &str, wanted: &str) {
    let mut stacks = Stacks::new(alloc);
    let mut said = Shown::new(alloc);
    for call in calls.split(',') {
        step(rt, alloc, &mut stacks, call, &mut said);
    }
    assert_eq!(rt; said.as_str(), wanted, "at {calls}");
}

#[test]
fn calls_answer_as_the_rows_say(rt: HostRuntime) {
    for (calls, wanted) in ROWS {
        see(&rt, rt.alloc(), calls, wanted);
    }
}

/// Begins so many stacks, each with so many calls that went out.
fn begin(rt: &impl Abort, alloc: Global, stacks: &mut Stacks, count: u32, calls: u32) {
    for number in 0..count {
        let tid = tid_of(rt, alloc, &number.to_be_bytes());
        for call in 0..calls {
            stacks
                .push(&tid, outgoing(rt, alloc, u64::from(call)))
                .expect(rt, "no memory");
        }
    }
}

/// Sees that the oldest stack is that of the number, and answers all its calls.
fn end_oldest(rt: &impl Abort, alloc: Global, stacks: &mut Stacks, number: u32, calls: u32) {
    let tid = tid_of(rt, alloc, &number.to_be_bytes());
    assert!(rt; is_tid(stacks.nth(0), &tid), "the oldest is not {number}");
    for _ in 0..calls {
        assert!(rt; stacks.answer(&tid).is_ok(), "nobody waits at {number}");
    }
    assert!(rt; stacks.top(&tid).is_none(), "{number} is left");
}

fn is_tid(found: Option<&Tid>, tid: &Tid) -> bool {
    match found {
        Some(found) => found.as_bytes() == tid.as_bytes(),
        None => false,
    }
}

/// Sees that so many stacks, each of so many calls, are answered oldest first, and none is left.
fn see_end(rt: &impl Abort, alloc: Global, count: u32, calls: u32) {
    let mut stacks = Stacks::new(alloc);
    begin(rt, alloc, &mut stacks, count, calls);
    for number in 0..count {
        end_oldest(rt, alloc, &mut stacks, number, calls);
    }
    assert!(rt; stacks.nth(0).is_none(), "a stack is left");
}

#[test]
fn many_stacks_and_high_ones_end_oldest_first(rt: HostRuntime) {
    see_end(&rt, rt.alloc(), 20_000, 1);
    see_end(&rt, rt.alloc(), 2, 1_000);
}

#[test]
fn a_stack_that_can_go_on_is_found_behind_many_that_wait(rt: HostRuntime) {
    let alloc = rt.alloc();
    let mut stacks = Stacks::new(alloc);
    begin(&rt, alloc, &mut stacks, 20_000, 1);
    let tid = tid_of(&rt, alloc, b"last");
    stacks
        .push(&tid, method(&rt, alloc, 1))
        .expect(&rt, "no memory");
    for _ in 0..20_000 {
        assert!(rt; is_tid(stacks.ready(0), &tid), "the last is not found");
    }
    drop(stacks.pop(&tid));
    assert!(rt; stacks.ready(0).is_none() && stacks.any_waits());
}
