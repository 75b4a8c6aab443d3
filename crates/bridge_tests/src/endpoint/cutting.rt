//! Input in pieces of any length: the same bytes go out, and the journal is the same but for the pieces that came in.
ghost use Rattle.std.specs.Prelude.{◌<◌};

use crate::endpoint::bytes::bytes_of;
use crate::endpoint::calls::run;
use crate::endpoint::ends::{ECHO, end_of};
use crate::endpoint::journals::show_journal;
use crate::shown::{Shown, see};
use bridge_endpoint::{Endpoint, Fed};
use std::alloc::Global;
use std::process::Abort;

/// The peer asks for the echo, calls it with 21 and with 1, the second time on two threads in one block, and lets it go.
const INPUT: &str =
    "0000003A 00000001 F8 00 96 0000 1B 'com.sun.star.uno.XInterface 04 'echo 0000 01 'T 0000 96 0001 0A 'demo.XEcho \
    0000000F 00000001 F0 03 16 0001 03 'S;1 0001 00000015 \
    0000000F 00000002 03 00000001 C8 03 01 'U 0001 00000001 \
    00000008 00000001 C8 02 03 'C;0 0002";

const OUTPUT: &str = "00000019 00000001 88 01 'T 0000 96 0000 0A 'demo.XEcho 03 'S;1 0000 \
    00000005 00000001 80 0000002A \
    00000005 00000001 80 00000002 \
    00000009 00000001 88 01 'U 0001 00000002";

/// What goes out where the input comes in pieces of so many bytes, and then the journal.
fn served(rt: &impl Abort, alloc: Global, size: usize) -> Shown
    requires { 0 < size }
{
    let mut shown = Shown::new(alloc);
    let mut end = end_of(rt, alloc, ECHO);
    for piece in bytes_of(alloc, INPUT).chunks(size) {
        serve(rt, alloc, &mut end, piece, &mut shown);
    }
    show_journal(end.journal(), &mut shown);
    end.close();
    shown
}

/// Feeds a piece, which may have the ends of several blocks, and serves what it begins.
fn serve(rt: &impl Abort, alloc: Global, end: &mut Endpoint, piece: &[u8], output: &mut Shown) {
    let mut rest = piece;
    for _ in 0..piece.len() {
        rest = feed(rt, end, rest);
        run(rt, alloc, end);
        drain(rt, end, output);
        if rest.is_empty() {
            return;
        }
    }
}

/// What is left of a piece behind a block.
fn feed<'a>(rt: &impl Abort, end: &mut Endpoint, piece: &'a [u8]) -> &'a [u8] {
    match end.feed(piece) {
        Fed::Taken(count) => piece.get(count..).unwrap_or(&[]),
        _ => panic!(rt; "not taken"),
    }
}

fn drain(rt: &impl Abort, end: &mut Endpoint, output: &mut Shown) {
    let bytes = end.drain(u32::MAX).expect(rt, "no memory");
    output.bytes(&bytes);
}

/// The journal begins with what came in.
fn see_output(rt: &impl Abort, alloc: Global, whole: &Shown) {
    let mut wanted = Shown::new(alloc);
    wanted.bytes(&bytes_of(alloc, OUTPUT));
    wanted.put(" Fed:");
    assert!(rt; whole.as_str().starts_with(wanted.as_str()));
}

/// Sees that in pieces of so many bytes the same is served.
fn see_cut(rt: &impl Abort, alloc: Global, size: usize, whole: &Shown)
    requires { 0 < size }
{
    let cut = served(rt, alloc, size);
    let mut row = Shown::new(alloc);
    row.tell(&size);
    see(rt, &cut, whole, row.as_str(), "the sizes of pieces");
}

#[test]
fn input_that_is_cut_gives_the_same_output_and_journal(rt: HostRuntime) {
    let whole = served(&rt, rt.alloc(), 1000);
    see_output(&rt, rt.alloc(), &whole);
    for size in 1..130 {
        see_cut(&rt, rt.alloc(), size, &whole);
    }
}
