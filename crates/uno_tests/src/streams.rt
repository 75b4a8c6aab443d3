//! That the streams do what they promise where memory is ample, over the readers and writers of std too.
use crate::judging::{see, see_number};
use crate::sources::source_of;
use std::alloc::Global;
use std::process::Abort;
use uno_io::{Failed, MemSink, Sink, Source, StdSink, StdSource, write_all};

const TEXT: &[u8] = b"what is sent in pieces";

/// Sizes, the reads that fail, and what ten reads of at most 8 bytes give: a `!` is a failure.
type Row = (&'static [usize], &'static [u64], &'static [&'static [u8]]);

const ROWS: &[Row] = &[
    (
        &[1, 7],
        &[],
        &[
            b"w", b"hat is ", b"s", b"ent in ", b"p", b"ieces", b"", b"", b"", b"",
        ],
    ),
    (
        &[1, 7],
        &[1, 3],
        &[
            b"w", b"!", b"hat is ", b"!", b"s", b"ent in ", b"p", b"ieces", b"", b"",
        ],
    ),
    (&[], &[], WHOLE),
];

/// What ten reads give where no sizes are set and nothing fails.
const WHOLE: &[&[u8]] = &[
    b"what is ",
    b"sent in ",
    b"pieces",
    b"",
    b"",
    b"",
    b"",
    b"",
    b"",
    b"",
];

/// Whether reads of at most 8 bytes give these pieces.
fn gives<S: Source>(source: &mut S, pieces: &[&[u8]]) -> bool {
    for wanted in pieces {
        let mut piece = [0u8; 8];
        let right = match source.read(&mut piece) {
            Ok(n) => &piece[..n] == *wanted,
            Err(Failed) => *wanted == b"!".as_slice(),
        };
        if !right {
            return false;
        }
    }
    true
}

/// Whether a source of the text gives the pieces of a row.
fn is_right(rt: &impl Abort, alloc: Global, row: &Row) -> bool {
    let (sizes, failing, pieces) = row;
    let text = Vec::from_slice(alloc, TEXT).expect(rt, "no memory");
    let mut source = source_of(rt, alloc, text, sizes, failing);
    gives(&mut source, pieces)
}

#[test]
fn sources_give_all_in_order(rt: HostRuntime) {
    for (number, row) in ROWS.iter().enumerate() {
        see_number(&rt, is_right(&rt, rt.alloc(), row), number);
    }
    see(&rt, gives(&mut StdSource::new(TEXT), WHOLE), "a reader");
}

/// A piece, and what a write of it answers.
type Write = (&'static [u8], Result<usize, Failed>);

const OPEN: &[Write] = &[
    (b"first ", Ok(6)),
    (b"second ", Err(Failed)),
    (b"third", Ok(5)),
];

const CLOSED: &[Write] = &[(b"fourth", Err(Failed))];

/// Whether a sink answers these writes so.
fn answers(sink: &mut MemSink, writes: &[Write]) -> bool {
    for (piece, wanted) in writes {
        if piece.is_empty() {
            return false;
        }
        if sink.write(piece) != *wanted {
            return false;
        }
    }
    true
}

/// Whether a sink of which the second write fails takes pieces until it is closed, and holds them.
fn takes_until_closed(sink: &mut MemSink) -> bool {
    let open = answers(sink, OPEN);
    sink.close();
    open && answers(sink, CLOSED) && sink.as_bytes() == b"first third".as_slice()
}

fn sink_is_right(rt: &impl Abort, alloc: Global) -> bool {
    let failing = Vec::from_slice(alloc, &[1]).expect(rt, "no memory");
    let mut sink = MemSink::with_room(alloc, 64, failing).expect(rt, "no memory");
    takes_until_closed(&mut sink)
}

/// Whether the text is too long for a room.
fn is_full(room: &mut [u8]) -> bool {
    let mut sink = StdSink::new(room);
    write_all(&mut sink, TEXT) == Err(Failed)
}

/// Whether a sink takes the text, and no more once it is closed.
fn takes_all(bytes: &mut Vec<u8>) -> bool {
    let mut sink = StdSink::new(bytes);
    let all = write_all(&mut sink, TEXT) == Ok(());
    sink.close();
    all && sink.write(TEXT) == Err(Failed)
}

/// Whether a writer takes all of the text until its sink is closed.
fn writer_is_right(alloc: Global) -> bool {
    let mut bytes = Vec::new(alloc);
    takes_all(&mut bytes) && bytes.as_slice() == TEXT
}

/// Whether a failure is told by this text.
fn is_told(rt: &impl Abort, alloc: Global, wanted: &str) -> bool {
    let text = format!(in alloc; "{}", Failed).expect(rt, "no memory");
    text.as_str() == wanted
}

#[test]
fn sinks_and_writers_take_what_they_have_room_for_until_they_are_closed(rt: HostRuntime) {
    let mut room = [b'-'; 10];
    see(&rt, is_full(room.as_mut_slice()), "a full writer");
    see(&rt, room.as_slice() == b"what is se".as_slice(), "its room");
    see(&rt, writer_is_right(rt.alloc()), "a writer");
    see(&rt, sink_is_right(&rt, rt.alloc()), "a sink");
    see(
        &rt,
        is_told(&rt, rt.alloc(), "the stream failed"),
        "a failure",
    );
}
