//! What an end tells, as words.
use crate::endpoint::journals::show_journal;
use crate::shown::{Shown, number_in};
use bridge_endpoint::Endpoint;
use std::alloc::Global;
use std::process::Abort;
use uno_types::Tid;

pub(crate) fn tell(
    rt: &impl Abort,
    alloc: Global,
    end: &Endpoint,
    what: &str,
    words: &str,
    shown: &mut Shown,
) {
    match what {
        "ready" => shown.put(ready(end, number_in(words))),
        "pick" => pick(rt, alloc, end, words, shown),
        "next" => next_oid(rt, end, shown),
        "state" => shown.tell(&end.root_state(number_in(words))),
        "journal" => show_journal(end.journal(), shown),
        "entries" => shown.tell(&end.journal().len()),
        "stamps" => shown.tell(&end.stamps()),
        "counts" => counts(end, shown),
        "end" => shown.tell_or_none(end.end()),
        "rest" => shown.tell_three(&[end.bytes_wait(), end.at_rest(), end.awaits_input()]),
        _ => shown.tell_or_none(end.may_reap()),
    }
}

fn ready(end: &Endpoint, nth: u32) -> &str {
    match end.ready(nth) {
        Some(tid) => str::from_utf8(tid.as_bytes()).unwrap_or("?"),
        None => "-",
    }
}

/// The object and the depth of a job.
fn pick(rt: &impl Abort, alloc: Global, end: &Endpoint, tid: &str, shown: &mut Shown) {
    let tid = Tid::of(alloc, tid.as_bytes()).expect(rt, "no memory");
    match end.pick(&tid).expect(rt, "no memory") {
        Some(job) => {
            shown.put(job.own.as_str());
            shown.put(" at ");
            shown.tell(&job.depth);
        }
        None => shown.put("-"),
    }
}

/// What the next object will be called.
fn next_oid(rt: &impl Abort, end: &Endpoint, shown: &mut Shown) {
    let oid = end.next_oid().expect(rt, "no memory");
    shown.put(oid.as_str());
}

/// How many stubs, proxies and objects there are.
fn counts(end: &Endpoint, shown: &mut Shown) {
    let counts = end.counts();
    shown.tell_three(&[counts.stubs, counts.proxies, counts.objects]);
}
