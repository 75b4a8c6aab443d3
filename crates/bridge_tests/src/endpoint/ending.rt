//! New ends, and ends behind their end.
use crate::endpoint::ends::NODE;
use crate::endpoint::talks::{Row, Talk, see_talks};

const NEW: &[Row] = &[
    ("take 1", "-"),
    ("reap", "-"),
    ("may_reap", "-"),
    ("ready 0", "-"),
    ("pick T", "-"),
    ("counts", "0 0 2"),
    ("next", "S;3"),
    ("rest", "false true false"),
    ("state 1", "Idle"),
    ("state 2", "Idle"),
    ("drain", ""),
    ("end", "-"),
    ("journal", ""),
    ("feed", "Taken(0)"),
    ("journal", ""),
    ("feed 00", "Taken(1)"),
    ("rest", "false false true"),
    ("journal", " Fed:00"),
];

/// A root waits, and another one holds an object; what was asked still goes out.
const DISPOSED: &[Row] = &[
    ("make 1 1 demo.XNode", "S;3"),
    ("next", "S;4"),
    ("ask 2 node demo.XNode", "Started"),
    ("dispose", "done"),
    ("state 2", "Answered"),
    ("ask 1 node demo.XNode", "Gone"),
    ("call 1 S;3 demo.XNode 5 0", "Gone"),
    ("query 1 S;3 demo.XNode com.sun.star.uno.XInterface", "Gone"),
    ("make 1 1 demo.XNode", "Gone"),
    ("feed 00", "Gone"),
    ("feed", "Gone"),
    ("dispose", "done"),
    ("ended", "done"),
    ("failed", "done"),
    ("end", "Disposed"),
    ("take 2", "disposed Disposed"),
    ("take 2", "-"),
    ("journal", " Made Asked Disposed Took"),
    ("drop 1 S;3 demo.XNode", "done"),
    ("reap", "3"),
    (
        "drain",
        "0000003C 00000001 F8 00 96 0000 1B 'com.sun.star.uno.XInterface 04 'node 0000 03 'S;2 0000 96 0001 0A 'demo.XNode",
    ),
    ("rest", "false true false"),
];

const ENDED: &[Row] = &[
    ("ended", "done"),
    ("ended", "done"),
    ("failed", "done"),
    ("dispose", "done"),
    ("end", "Ended"),
    ("journal", " Ended"),
];

const FAILED: &[Row] = &[
    ("failed", "done"),
    ("ended", "done"),
    ("end", "Failed"),
    ("journal", " Failed"),
];

const RUN_OUT: &[Row] = &[
    ("make 1 1 demo.XNode", "S;3"),
    ("ask 2 node demo.XNode", "Started"),
    ("run_out", "done"),
    ("rest", "false true false"),
    ("drain", "NoMemory"),
    ("drain 0", "NoMemory"),
    ("feed 00", "NoMemory"),
    ("ask 1 node demo.XNode", "NoMemory"),
    ("call 1 S;3 demo.XNode 5 0", "NoMemory"),
    (
        "query 1 S;3 demo.XNode com.sun.star.uno.XInterface",
        "NoMemory",
    ),
    ("make 1 1 demo.XNode", "NoMemory"),
    ("run_out", "done"),
    ("dispose", "done"),
    ("end", "NoMemory"),
    ("take 2", "no memory"),
    ("journal", " Made Asked NoMemory Took"),
];

/// Want of memory takes the place of another cause.
const RUN_OUT_BEHIND_THE_END: &[Row] = &[
    ("ask 1 node demo.XNode", "Started"),
    ("dispose", "done"),
    ("run_out", "done"),
    ("end", "NoMemory"),
    ("drain", "NoMemory"),
    ("take 1", "disposed Disposed"),
    ("journal", " Asked Disposed NoMemory Took"),
];

const STAMPED: &[Row] = &[
    ("make 1 1 demo.XNode", "S;3"),
    ("stamp 7", "done"),
    ("feed 00", "Taken(1)"),
    ("drop 1 S;3 demo.XNode", "done"),
    ("stamp 9", "done"),
    ("dispose", "done"),
    ("stamps", "[0, 7, 7, 9]"),
];

const TALKS: &[Talk] = &[
    ("nothing has happened at a new end", NODE, NEW),
    ("what is begun behind the end is gone", NODE, DISPOSED),
    ("the end of the input is entered once", NODE, ENDED),
    ("its failure is entered once", NODE, FAILED),
    ("nothing goes out where memory ran out", NODE, RUN_OUT),
    (
        "nor where it ran out behind the end",
        NODE,
        RUN_OUT_BEHIND_THE_END,
    ),
    ("entries have the stamp that was set last", NODE, STAMPED),
];

#[test]
fn what_has_ended_stays_so(rt: HostRuntime) {
    see_talks(&rt, rt.alloc(), TALKS);
}
