//! The calls of an end as words, as `feed 00000000 00000001`, `call 1 C;1 demo.XNode 3 5` or `drop 1 C;1 demo.XNode`. `run` carries out all that is ready, and tells how
//! many statements it were; `late T dispose` picks the job of the thread `T`, ends the bridge, and then carries out the statement of that job. What answers nothing is
//! told as `done`, and none as `-`. A call whose condition does not hold fails the test, and so does one that finds no memory otherwise than by its answer.
ghost use Rattle.bridge_core.specs.Standing.{IsRunAt};
ghost use Rattle.plan_model.specs.Roots.{Run};

use crate::endpoint::beginning::{ask, call, make, query};
use crate::endpoint::bytes::bytes_of;
use crate::endpoint::outcomes::{show_applied, show_outcome};
use crate::endpoint::telling::tell;
use crate::shown::{Shown, cut, number_in};
use behaviour::next;
use bridge_endpoint::{ApplyError, Endpoint};
use bridge_model::InputEnd;
use plan_types::Job;
use std::alloc::Global;
use std::process::Abort;
use uno_base::NoMemory;
use uno_types::{Name, Text, Tid};

/// More statements than a talk has.
const MANY: u32 = 100;

/// Makes a call, and shows what it answers.
pub(crate) fn show(
    rt: &impl Abort,
    alloc: Global,
    end: &mut Endpoint,
    words: &str,
    shown: &mut Shown,
) {
    let (what, words) = cut(words, ' ');
    match what {
        "feed" => feed(alloc, end, words, shown),
        "drain" => drain(end, words, shown),
        "run" => shown.tell(&run(rt, alloc, end)),
        "ask" => shown.tell(&ask(rt, alloc, end, words)),
        "call" => shown.tell(&call(rt, alloc, end, words)),
        "query" => shown.tell(&query(rt, alloc, end, words)),
        "make" => make(rt, alloc, end, words, shown),
        "take" => take(end, number_in(words), shown),
        "drop" => let_go(rt, alloc, end, words, shown),
        "reap" => shown.tell_or_none(end.reap()),
        "late" => late(rt, alloc, end, words, shown),
        "dispose" | "ended" | "failed" | "run_out" | "stamp" => {
            enter(end, what, words);
            shown.put("done");
        }
        _ => tell(rt, alloc, end, what, words, shown),
    }
}

fn feed(alloc: Global, end: &mut Endpoint, words: &str, shown: &mut Shown) {
    let piece = bytes_of(alloc, words);
    shown.tell(&end.feed(&piece));
}

/// Drains so many bytes, or all.
fn drain(end: &mut Endpoint, most: &str, shown: &mut Shown) {
    match end.drain(most.parse::<u32>().unwrap_or(u32::MAX)) {
        Ok(bytes) => shown.bytes(&bytes),
        Err(NoMemory) => shown.put("NoMemory"),
    }
}

/// Carries out the statements that are ready, one after the other, and tells how many they were.
pub(crate) fn run(rt: &impl Abort, alloc: Global, end: &mut Endpoint) -> u32
    ensures { (r : Run) → IsRunAt end.old r → IsRunAt end.new r }
{
    for count in 0..MANY {
        if !apply_first(rt, alloc, end) {
            return count;
        }
    }
    MANY
}

/// Carries out the next statement of the oldest thread that is ready, where one is.
fn apply_first(rt: &impl Abort, alloc: Global, end: &mut Endpoint) -> bool
    ensures { (r : Run) → IsRunAt end.old r → IsRunAt end.new r }
{
    match first(rt, end) {
        Some(job) => apply(rt, alloc, end, job).is_ok(),
        None => false,
    }
}

/// The job of the oldest thread that is ready, where one is.
fn first(rt: &impl Abort, end: &Endpoint) -> Option<Job> {
    match end.ready(0) {
        Some(tid) => end.pick(tid).expect(rt, "no memory"),
        None => None,
    }
}

/// Carries out the statement of a job.
fn apply(rt: &impl Abort, alloc: Global, end: &mut Endpoint, job: Job) -> Result<(), ApplyError>
    ensures { (r : Run) → IsRunAt end.old r → IsRunAt end.new r }
{
    match next(alloc, end.plan(), end.registry(), job) {
        Ok(done) => end.apply(done),
        Err(NoMemory) => panic!(rt; "no memory"),
    }
}

/// Does what the second word says between the picking of a job and the carrying out of its statement. `apply` carries it out before.
fn late(rt: &impl Abort, alloc: Global, end: &mut Endpoint, words: &str, shown: &mut Shown) {
    let (tid, between) = cut(words, ' ');
    let job = picked(rt, alloc, end, tid);
    match between {
        "apply" => apply_picked(rt, alloc, end, tid, shown),
        _ => enter(end, between, ""),
    }
    show_applied(&apply(rt, alloc, end, job), shown);
}

fn apply_picked(rt: &impl Abort, alloc: Global, end: &mut Endpoint, tid: &str, shown: &mut Shown) {
    let job = picked(rt, alloc, end, tid);
    show_applied(&apply(rt, alloc, end, job), shown);
    shown.put(", ");
}

/// The job of a thread that has one.
fn picked(rt: &impl Abort, alloc: Global, end: &Endpoint, tid: &str) -> Job {
    let tid = Tid::of(alloc, tid.as_bytes()).expect(rt, "no memory");
    let job = end.pick(&tid).expect(rt, "no memory");
    job.expect(rt, "no job")
}

fn take(end: &mut Endpoint, root: u32, shown: &mut Shown) {
    match end.take(root) {
        Some(outcome) => show_outcome(end.registry(), &outcome, shown),
        None => shown.put("-"),
    }
}

fn let_go(rt: &impl Abort, alloc: Global, end: &mut Endpoint, words: &str, shown: &mut Shown) {
    let (root, words) = cut(words, ' ');
    let (oid, face) = cut(words, ' ');
    let oid = Text::of(alloc, oid).expect(rt, "no memory");
    let face = Name::of(alloc, face).expect(rt, "no memory");
    match end.drop_ref(number_in(root), oid, face) {
        Ok(()) => shown.put("done"),
        Err(_) => shown.put("NotHeld"),
    }
}

/// Ends the bridge in one of its ways, or sets the mark of the entries that follow.
fn enter(end: &mut Endpoint, what: &str, words: &str) {
    match what {
        "dispose" => end.dispose(),
        "ended" => end.end_input(InputEnd::Ended),
        "failed" => end.end_input(InputEnd::Failed),
        "stamp" => end.stamp(u64::from(number_in(words))),
        _ => end.run_out(),
    }
}
