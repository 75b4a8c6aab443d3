//! What breaks the protocol and only an end can tell: why, and the place in all bytes that came in of the first byte of the message.
use crate::endpoint::ends::{ECHO, NODE};
use crate::endpoint::talks::{Row, Talk, see_talks};

/// The peer asks for the echo, which is `S;1`.
const ASKED: Row = (
    "feed 0000003A 00000001 F8 00 96 0000 1B 'com.sun.star.uno.XInterface 04 'echo 0000 01 'T 0000 96 0001 0A 'demo.XEcho",
    "Taken(66)",
);

/// Then it asks for the node, which is `S;2`.
const ASKED_TOO: Row = (
    "feed 00000017 00000001 D0 00 04 'node 0001 96 0002 0A 'demo.XNode",
    "Taken(31)",
);

const RELEASED_TWICE: &[Row] = &[
    ASKED,
    (
        "feed 00000012 00000002 F8 02 16 0001 03 'S;1 0001 03 'C;0 0001 02",
        "Broken(Unowed, 91)",
    ),
    ("end", "Broken(Unowed, 91)"),
    ("feed 00", "Gone"),
];

const NOT_SENT_OUT: &[Row] = &[
    ASKED,
    (
        "feed 0000000F 00000001 F0 03 16 0001 03 'S;2 0001 00000015",
        "Broken(UnknownOid, 74)",
    ),
];

/// The function of a name that is no object's.
const NO_OBJECT: &[Row] = &[
    ASKED,
    (
        "feed 0000000F 00000001 F0 03 16 0001 03 'C;1 0001 00000015",
        "Broken(UnknownOid, 74)",
    ),
];

const BUSY: &[Row] = &[
    ASKED,
    (
        "feed 00000014 00000002 F0 03 16 0001 03 'S;1 0001 00000015 03 00000001",
        "Broken(BusyThread, 89)",
    ),
];

const NO_THREAD: &[Row] = &[
    ASKED,
    (
        "feed 00000015 00000001 F8 03 16 0001 03 'S;1 0001 03 'S;1 0001 00000015",
        "Broken(UnknownThread, 74)",
    ),
];

/// Both an object that is not there and a thread that is not.
const NEITHER: &[Row] = &[
    ASKED,
    (
        "feed 00000015 00000001 F8 03 16 0001 03 'S;2 0001 03 'S;1 0001 00000015",
        "Broken(UnknownOid, 74)",
    ),
];

const WRONG_ARGUMENT: &[Row] = &[
    ASKED,
    ASKED_TOO,
    (
        "feed 00000011 00000001 F0 04 16 0002 03 'S;2 0002 03 'S;1 0003",
        "Broken(WrongInterface, 105)",
    ),
];

const UNKNOWN_ARGUMENT: &[Row] = &[
    ASKED,
    ASKED_TOO,
    (
        "feed 00000011 00000001 F0 04 16 0002 03 'S;2 0002 03 'S;9 0003",
        "Broken(UnknownOid, 105)",
    ),
];

/// A root that waits is answered with the end of the bridge.
const WRONG_ANSWER: &[Row] = &[
    ("ask 1 node demo.XNode", "Started"),
    (
        "feed 0000001B 00000001 88 03 'S;1 0000 96 0000 0A 'demo.XNode 03 'S;1 0000",
        "Broken(UnknownOid, 8)",
    ),
    ("take 1", "disposed Broken(UnknownOid, 8)"),
];

const TALKS: &[Talk] = &[
    ("a second release is unowed", ECHO, RELEASED_TWICE),
    (
        "what was not sent out is an unknown oid",
        NODE,
        NOT_SENT_OUT,
    ),
    ("what is no object is an unknown oid", ECHO, NO_OBJECT),
    ("a second request finds the thread busy", ECHO, BUSY),
    (
        "a thread of this end is unknown where nothing waits",
        NODE,
        NO_THREAD,
    ),
    (
        "an unknown oid comes before an unknown thread",
        NODE,
        NEITHER,
    ),
    (
        "an argument is of the wrong interface",
        NODE,
        WRONG_ARGUMENT,
    ),
    ("an argument is unknown", NODE, UNKNOWN_ARGUMENT),
    (
        "an answer with an object that was not sent out",
        NODE,
        WRONG_ANSWER,
    ),
];

#[test]
fn what_breaks_the_protocol_does_so_at_its_place(rt: HostRuntime) {
    see_talks(&rt, rt.alloc(), TALKS);
}
