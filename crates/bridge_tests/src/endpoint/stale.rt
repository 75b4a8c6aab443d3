//! Statements that are carried out late.
use crate::endpoint::ends::NODE;
use crate::endpoint::talks::{Row, Talk, see_talks};

const ASKS: Row = (
    "feed 0000003A 00000001 F8 00 96 0000 1B 'com.sun.star.uno.XInterface 04 'node 0000 01 'T 0000 96 0001 0A 'demo.XNode",
    "Taken(66)",
);

/// The function has two statements.
const CALLS: Row = (
    "feed 00000011 00000001 F0 04 16 0001 03 'S;2 0001 03 'C;1 0002",
    "Taken(25)",
);

const TWICE: &[Row] = &[
    ASKS,
    CALLS,
    ("entries", "2"),
    ("late T apply", "done, stale at 1"),
    ("entries", "3"),
];

const BEHIND_THE_END: &[Row] = &[ASKS, CALLS, ("late T dispose", "stale")];

const WITHOUT_MEMORY: &[Row] = &[ASKS, CALLS, ("late T run_out", "NoMemory")];

const TALKS: &[Talk] = &[
    (
        "a statement carried out twice is stale at the next one",
        NODE,
        TWICE,
    ),
    (
        "one behind the end is stale and no other is there",
        NODE,
        BEHIND_THE_END,
    ),
    (
        "one is not carried out where memory ran out",
        NODE,
        WITHOUT_MEMORY,
    ),
];

#[test]
fn what_is_carried_out_late_is_stale(rt: HostRuntime) {
    see_talks(&rt, rt.alloc(), TALKS);
}
