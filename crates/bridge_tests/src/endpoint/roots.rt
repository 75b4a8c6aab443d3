//! What roots ask, call, make, take and let go.
use crate::endpoint::ends::NODE;
use crate::endpoint::talks::{Row, Talk, see_talks};

/// A root asks the peer for an object, calls it, is answered with a value and an exception, asks it for another interface, and lets it go.
const ASKED: &[Row] = &[
    ("ask 1 node demo.XNode", "Started"),
    ("state 1", "Waits"),
    ("state 2", "Idle"),
    ("take 1", "-"),
    (
        "drain",
        "0000003C 00000001 F8 00 96 0000 1B 'com.sun.star.uno.XInterface 04 'node 0000 03 'S;1 0000 96 0001 0A 'demo.XNode",
    ),
    ("rest", "false false true"),
    (
        "feed 0000001B 00000001 88 03 'S;1 0000 96 0000 0A 'demo.XNode 03 'C;1 0000",
        "Taken(35)",
    ),
    ("state 1", "Answered"),
    ("take 1", "returned @\"C;1\"<demo.XNode>"),
    ("take 1", "-"),
    ("state 1", "Idle"),
    ("counts", "0 1 2"),
    ("call 1 C;1 demo.XNode 3 peer:C;1/demo.XNode 6", "Started"),
    (
        "drain",
        "00000012 00000001 F0 03 16 0001 03 'C;1 0001 00 0001 00000006",
    ),
    ("feed 00000005 00000001 80 00000006", "Taken(13)"),
    ("take 1", "returned 6"),
    (
        "query 1 C;1 demo.XNode com.sun.star.uno.XInterface",
        "Started",
    ),
    ("drain", "00000004 00000001 00 16 0000"),
    (
        "feed 00000023 00000001 80 96 0001 1B 'com.sun.star.uno.XInterface 00 0000",
        "Taken(43)",
    ),
    ("take 1", "returned @\"C;1\"<com.sun.star.uno.XInterface>"),
    ("counts", "0 2 2"),
    ("call 1 C;1 demo.XNode 5 1", "Started"),
    ("drain", "00000005 00000001 05 00000001"),
    (
        "feed 0000001B 00000001 A0 93 0002 0C 'demo.Refused 02 'no 00 FFFF 00000007",
        "Taken(35)",
    ),
    ("take 1", "raised {\"no\",null,7}"),
    ("drop 1 C;1 demo.XNode", "done"),
    ("drain", "00000008 00000001 C8 02 03 'S;0 0001"),
    ("drop 1 C;1 demo.XNode", "NotHeld"),
    ("drop 1 C;1 com.sun.star.uno.XInterface", "done"),
    ("drain", "00000005 00000001 E0 02 16 0000"),
    ("counts", "0 0 2"),
    ("rest", "false true false"),
];

/// A root makes an object, calls it, which calls itself, asks it for another interface, and lets it go. The peer hears nothing of it.
const MADE: &[Row] = &[
    ("make 1 1 demo.XNode", "S;3"),
    ("counts", "0 0 3"),
    ("may_reap", "-"),
    ("call 1 S;3 demo.XNode 3 own:S;3/demo.XNode 2", "Started"),
    ("ready 0", "S;1"),
    ("pick S;1", "S;3 at 2"),
    ("run", "7"),
    ("take 1", "returned 2"),
    ("call 1 S;3 demo.XNode 5 1", "Started"),
    ("run", "2"),
    ("take 1", "raised {\"no\",null,7}"),
    (
        "query 1 S;3 demo.XNode com.sun.star.uno.XInterface",
        "Answered",
    ),
    ("state 1", "Answered"),
    ("take 1", "returned @\"S;3\"<com.sun.star.uno.XInterface>"),
    ("query 1 S;3 demo.XNode demo.XEcho", "Answered"),
    ("take 1", "returned null"),
    ("drop 1 S;3 demo.XNode", "done"),
    ("may_reap", "-"),
    ("drop 1 S;3 com.sun.star.uno.XInterface", "done"),
    ("may_reap", "3"),
    ("reap", "3"),
    ("reap", "-"),
    ("counts", "0 0 2"),
    ("drain", ""),
];

/// What a root does not hold it can't call, ask, give or let go, whether another root holds it or nobody.
const NOT_HELD: &[Row] = &[
    ("make 1 1 demo.XNode", "S;3"),
    ("call 2 S;3 demo.XNode 5 0", "NotHeld"),
    (
        "query 2 S;3 demo.XNode com.sun.star.uno.XInterface",
        "NotHeld",
    ),
    ("call 1 S;3 demo.XNode 4 own:S;2/demo.XNode", "NotHeld"),
    ("call 1 S;3 demo.XNode 4 peer:C;9/demo.XNode", "NotHeld"),
    (
        "query 1 S;3 com.sun.star.uno.XInterface demo.XNode",
        "NotHeld",
    ),
    ("drop 2 S;3 demo.XNode", "NotHeld"),
    ("drop 1 S;2 demo.XNode", "NotHeld"),
    ("state 1", "Idle"),
    ("state 2", "Idle"),
    ("journal", " Made"),
];

/// The peer calls back on the thread of a root that waits, and answers the two roots in the other order.
const CROSSED: &[Row] = &[
    ("ask 1 node demo.XNode", "Started"),
    ("ask 2 echo demo.XEcho", "Started"),
    (
        "drain",
        "0000003C 00000001 F8 00 96 0000 1B 'com.sun.star.uno.XInterface 04 'node 0000 03 'S;1 0000 96 0001 0A 'demo.XNode 0000001D 00000001 D8 00 04 'echo 0001 03 'S;2 0001 96 0002 0A 'demo.XEcho",
    ),
    (
        "feed 0000003C 00000001 F8 00 96 0000 1B 'com.sun.star.uno.XInterface 04 'echo 0000 03 'S;1 0000 96 0001 0A 'demo.XEcho",
        "Taken(68)",
    ),
    (
        "feed 0000000F 00000001 F0 03 16 0001 03 'S;1 0001 00000015",
        "Taken(23)",
    ),
    ("ready 0", "S;1"),
    ("pick S;1", "S;1 at 3"),
    ("run", "1"),
    (
        "drain",
        "0000000D 00000001 88 00 0000 16 0002 03 'S;1 0002 00000005 00000001 80 0000002A",
    ),
    (
        "feed 00000010 00000001 88 03 'S;2 0001 16 0001 03 'C;1 0002",
        "Taken(24)",
    ),
    ("take 2", "returned @\"C;1\"<demo.XEcho>"),
    ("state 1", "Waits"),
    (
        "feed 00000018 00000001 88 00 0000 96 0002 0A 'demo.XNode 03 'C;2 0003",
        "Taken(32)",
    ),
    ("take 1", "returned @\"C;2\"<demo.XNode>"),
];

const TALKS: &[Talk] = &[
    ("a root asks, calls, queries and lets go", NODE, ASKED),
    ("a root makes an object of its own", NODE, MADE),
    ("what a root does not hold is not held", NODE, NOT_HELD),
    ("answers come in the other order", NODE, CROSSED),
];

#[test]
fn roots_are_answered(rt: HostRuntime) {
    see_talks(&rt, rt.alloc(), TALKS);
}
