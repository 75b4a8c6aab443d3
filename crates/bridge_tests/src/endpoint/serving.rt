//! What the peer asks, calls and lets go.
use crate::endpoint::ends::{ECHO, NODE};
use crate::endpoint::talks::{Row, Talk, see_talks};

/// The peer asks for the object, calls its function with 21, and lets it go.
const ECHOED: &[Row] = &[
    (
        "feed 0000003A 00000001 F8 00 96 0000 1B 'com.sun.star.uno.XInterface 04 'echo 0000 01 'T 0000 96 0001 0A 'demo.XEcho",
        "Taken(66)",
    ),
    ("run", "0"),
    ("rest", "true false false"),
    (
        "drain",
        "00000019 00000001 88 01 'T 0000 96 0000 0A 'demo.XEcho 03 'S;1 0000",
    ),
    ("rest", "false true false"),
    ("counts", "1 0 1"),
    (
        "feed 0000000F 00000001 F0 03 16 0001 03 'S;1 0001 00000015",
        "Taken(23)",
    ),
    ("rest", "false false false"),
    ("ready 0", "T"),
    ("ready 1", "-"),
    ("pick T", "S;1 at 1"),
    ("pick U", "-"),
    ("run", "1"),
    ("drain 3", "00 00 00"),
    ("drain 0", ""),
    ("drain", "05 00000001 80 0000002A"),
    ("drain", ""),
    ("feed 00000008 00000001 C8 02 03 'C;0 0001", "Taken(16)"),
    ("counts", "0 0 1"),
    ("may_reap", "-"),
    ("rest", "false true false"),
];

/// The peer calls a function that gives its own object back to it, which stays in a field.
const TURNED: &[Row] = &[
    (
        "feed 0000003A 00000001 F8 00 96 0000 1B 'com.sun.star.uno.XInterface 04 'node 0000 01 'T 0000 96 0001 0A 'demo.XNode",
        "Taken(66)",
    ),
    (
        "drain",
        "00000019 00000001 88 01 'T 0000 96 0000 0A 'demo.XNode 03 'S;2 0000",
    ),
    (
        "feed 00000011 00000001 F0 04 16 0001 03 'S;2 0001 03 'C;1 0002",
        "Taken(25)",
    ),
    ("counts", "1 1 2"),
    ("run", "2"),
    ("drain", "00000007 00000001 80 03 'C;1 0001"),
    ("counts", "1 1 2"),
    ("rest", "false true false"),
];

/// Two threads call, and that which came first is first.
const TWO_THREADS: &[Row] = &[
    (
        "feed 0000003A 00000001 F8 00 96 0000 1B 'com.sun.star.uno.XInterface 04 'echo 0000 01 'T 0000 96 0001 0A 'demo.XEcho",
        "Taken(66)",
    ),
    (
        "feed 00000019 00000002 F0 03 16 0001 03 'S;1 0001 00000015 C8 03 01 'U 0001 00000001",
        "Taken(33)",
    ),
    ("ready 0", "T"),
    ("ready 1", "U"),
    ("ready 2", "-"),
    ("run", "2"),
    (
        "drain",
        "00000019 00000001 88 01 'T 0000 96 0000 0A 'demo.XEcho 03 'S;1 0000 00000005 00000001 80 0000002A 00000009 00000001 88 01 'U 0001 00000002",
    ),
];

/// The peer calls the function that ends the bridge: it is told nothing, and what was said before goes out.
const SHUT: &[Row] = &[
    (
        "feed 0000003A 00000001 F8 00 96 0000 1B 'com.sun.star.uno.XInterface 04 'node 0000 01 'T 0000 96 0001 0A 'demo.XNode",
        "Taken(66)",
    ),
    (
        "feed 0000000B 00000001 F0 06 16 0001 03 'S;2 0001",
        "Taken(19)",
    ),
    ("run", "1"),
    ("end", "Disposed"),
    ("counts", "0 0 2"),
    (
        "drain",
        "00000019 00000001 88 01 'T 0000 96 0000 0A 'demo.XNode 03 'S;2 0000",
    ),
    ("feed 00", "Gone"),
];

const TALKS: &[Talk] = &[
    (
        "the peer asks for the echo and is answered 42",
        ECHO,
        ECHOED,
    ),
    (
        "an object of the peer goes back to it and is kept",
        NODE,
        TURNED,
    ),
    ("two threads are served oldest first", ECHO, TWO_THREADS),
    ("a statement of the plan ends the bridge", NODE, SHUT),
];

#[test]
fn the_peer_is_served(rt: HostRuntime) {
    see_talks(&rt, rt.alloc(), TALKS);
}
