//! Messages that are said, and room for releases, by scripts: each row has calls, and what they answer.
//!
//! `push` says a message, `keep` and `unkeep` are for `keep_one` and `unkeep`, and `release`, `clear`, `kept` and `empty` as they are called. Where there
//! is no room, `unkeep` and `release` answer `!`.
use super::talk::message;
use crate::registries::NODE;
use crate::shown::Shown;
use crate::texts::{name_of, text_of, tid_of};
use bridge_streams::Unsaid;
use proxy_table::Release;
use std::alloc::Global;
use std::process::Abort;

const ROWS: &[(&str, &str)] = &[
    ("kept,empty,unkeep,release,empty", " 0 y ! ! y"),
    ("keep,keep,keep,kept,unkeep,kept,empty", " 3 2 y"),
    (
        "keep,keep,release,kept,empty,release,kept,release",
        " 1 n 0 !",
    ),
    ("push,empty,kept,clear,empty", " n 0 y"),
    (
        "keep,push,keep,push,release,keep,kept,clear,kept,empty,unkeep",
        " 2 0 y !",
    ),
];

fn release(rt: &impl Abort, alloc: Global, unsaid: &mut Unsaid, shown: &mut Shown) {
    if unsaid.kept() == 0 {
        return shown.word("!");
    }
    unsaid.release(Release {
        oid: text_of(rt, alloc, "S;1"),
        face: name_of(rt, alloc, NODE),
    });
}

fn unkeep(unsaid: &mut Unsaid, shown: &mut Shown) {
    if unsaid.kept() == 0 {
        return shown.word("!");
    }
    unsaid.unkeep();
}

fn step(rt: &impl Abort, alloc: Global, unsaid: &mut Unsaid, what: &str, shown: &mut Shown) {
    match what {
        "push" => shown.done(unsaid.push(message(rt, alloc, "call"))),
        "keep" => shown.done(unsaid.keep_one()),
        "unkeep" => unkeep(unsaid, shown),
        "release" => release(rt, alloc, unsaid, shown),
        "kept" => shown.number(unsaid.kept() as u64),
        "empty" => shown.yes(unsaid.is_empty()),
        "clear" => unsaid.clear(),
        _ => shown.word("?"),
    }
}

/// Sees what the calls of a row answer.
fn see(rt: &impl Abort, alloc: Global, calls: &str, wanted: &str) {
    let mut unsaid = Unsaid::new(alloc, tid_of(rt, alloc, b"U"));
    let mut shown = Shown::new(alloc);
    for call in calls.split(',') {
        step(rt, alloc, &mut unsaid, call, &mut shown);
    }
    shown.see(rt, calls, wanted);
}

#[test]
fn calls_answer_as_the_rows_say(rt: HostRuntime) {
    for (calls, wanted) in ROWS {
        see(&rt, rt.alloc(), calls, wanted);
    }
}
