//! Journals, by scripts: each row has calls, and what they answer.
//!
//! `reserve`, `unreserve`, `room`, `stamp 7`, and an entry: `reap 3`, `feed`, `ask 1`, `dispose`. An entry and the giving up of room
//! answer `!` where there is no room, and nothing else. `show` shows the entries with their marks.
use crate::shown::{Shown, cut, number_in};
use crate::texts::{name_of, text_of};
use bridge_journal::{Entry, Journal};
use std::alloc::Global;
use std::process::Abort;

const ROWS: &[(&str, &str)] = &[
    ("room,show", " 0 -"),
    ("dispose,unreserve,show", " ! ! -"),
    ("reserve,reserve,reserve,room,unreserve,room", " 3 2"),
    ("reserve,reap 3,room,show,dispose", " 0 reaped:3@0 !"),
    (
        "stamp 7,reserve,reserve,feed,stamp 9,room,ask 1,show",
        " 1 fed:ab@7 asked:1:node:demo.XNode@9",
    ),
    (
        "reserve,dispose,stamp 1,stamp 2,reserve,reap 5,show",
        " disposed@0 reaped:5@2",
    ),
    (
        "reserve,reserve,unreserve,reap 1,reserve,reserve,reap 2,reap 3,room,reserve,reap 4,show",
        " 0 reaped:1@0 reaped:2@0 reaped:3@0 reaped:4@0",
    ),
];

fn entry_of(rt: &impl Abort, alloc: Global, what: &str, number: u32) -> Entry {
    match what {
        "reap" => Entry::Reaped { object: number },
        "feed" => Entry::Fed(Vec::from_slice(alloc, b"ab").expect(rt, "no memory")),
        "ask" => Entry::Asked {
            root: number,
            name: text_of(rt, alloc, "node"),
            wanted: name_of(rt, alloc, "demo.XNode"),
        },
        "dispose" => Entry::Disposed,
        _ => panic!(rt; "no such call"),
    }
}

fn unreserve(journal: &mut Journal, shown: &mut Shown) {
    if journal.room() == 0 {
        return shown.word("!");
    }
    journal.unreserve();
}

fn show_entry(shown: &mut Shown, entry: &Entry) {
    match entry {
        Entry::Reaped { object } => {
            shown.word("reaped:");
            shown.put_number(u64::from(*object));
        }
        Entry::Fed(bytes) => {
            shown.word("fed:");
            shown.put(str::from_utf8(bytes).unwrap_or("?"));
        }
        Entry::Asked { root, name, wanted } => {
            shown.word("asked:");
            shown.put_number(u64::from(*root));
            shown.put(":");
            shown.put(name.as_str());
            shown.put(":");
            shown.put(wanted.as_str());
        }
        Entry::Disposed => shown.word("disposed"),
        _ => shown.word("?"),
    }
}

/// Shows the entry and the mark at a place.
fn show_at(journal: &Journal, place: usize, shown: &mut Shown) {
    match journal.entries().get(place) {
        Some(entry) => show_entry(shown, entry),
        None => shown.word("?"),
    }
    shown.put("@");
    match journal.stamps().get(place) {
        Some(stamp) => shown.put_number(*stamp),
        None => shown.put("?"),
    }
}

/// Shows the entries, each with its mark.
fn show(journal: &Journal, shown: &mut Shown) {
    let count = journal.entries().len().max(journal.stamps().len());
    if count == 0 {
        return shown.word("-");
    }
    for place in 0..count {
        show_at(journal, place, shown);
    }
}

fn step(rt: &impl Abort, alloc: Global, journal: &mut Journal, call: &str, shown: &mut Shown) {
    let (what, number) = cut(call, ' ');
    let number = number_in(number);
    match what {
        "reserve" => shown.done(journal.reserve()),
        "unreserve" => unreserve(journal, shown),
        "room" => shown.number(journal.room() as u64),
        "stamp" => journal.stamp(u64::from(number)),
        "show" => show(journal, shown),
        _ => {
            if journal.room() == 0 {
                shown.word("!");
            } else {
                journal.enter(entry_of(rt, alloc, what, number));
            }
        }
    }
}

/// Sees what the calls of a row answer.
fn see(rt: &impl Abort, alloc: Global, calls: &str, wanted: &str) {
    let mut journal = Journal::new(alloc);
    let mut shown = Shown::new(alloc);
    for call in calls.split(',') {
        step(rt, alloc, &mut journal, call, &mut shown);
    }
    shown.see(rt, calls, wanted);
}

#[test]
fn calls_answer_as_the_rows_say(rt: HostRuntime) {
    for (calls, wanted) in ROWS {
        see(&rt, rt.alloc(), calls, wanted);
    }
}

/// Makes so many entries, each with its number as its mark.
fn fill(rt: &impl Abort, journal: &mut Journal, count: u32) {
    for object in 0..count {
        journal.reserve().expect(rt, "no memory");
        journal.stamp(u64::from(object));
        assert!(rt; journal.room() > 0);
        journal.enter(Entry::Reaped { object });
    }
}

/// Whether the entry at a place has the place as its number and as its mark.
fn is_at_its_place(journal: &Journal, place: usize) -> bool {
    let is_marked = journal.stamps().get(place) == Some(&(place as u64));
    match journal.entries().get(place) {
        Some(Entry::Reaped { object }) => is_marked && *object as usize == place,
        _ => false,
    }
}

#[test]
fn many_entries_stand_in_their_order(rt: HostRuntime) {
    let mut journal = Journal::new(rt.alloc());
    fill(&rt, &mut journal, 3000);
    for place in 0..3000 {
        assert!(&rt; is_at_its_place(&journal, place));
    }
    assert!(&rt; journal.entries().len() == 3000);
}
