//! Talks: calls of one end, one a row, and what they answer.

use crate::endpoint::bytes::bytes_of;
use crate::endpoint::calls::show;
use crate::endpoint::ends::end_of;
use crate::shown::{Shown, see};
use bridge_endpoint::Endpoint;
use std::alloc::Global;
use std::process::Abort;

/// A call, and its answer.
pub(crate) type Row = (&'static str, &'static str);

/// What a talk shows, the plan of its end, and its rows.
pub(crate) type Talk = (&'static str, &'static str, &'static [Row]);

/// Sees that new ends answer as the rows of these talks say.
pub(crate) fn see_talks(rt: &impl Abort, alloc: Global, talks: &[Talk]) {
    for talk in talks {
        see_talk(rt, alloc, talk);
    }
}

fn see_talk(rt: &impl Abort, alloc: Global, talk: &Talk) {
    let (what, plan, rows) = talk;
    let mut end = end_of(rt, alloc, plan);
    for row in *rows {
        see_row(rt, alloc, &mut end, row, what);
    }
    end.close();
}

fn see_row(rt: &impl Abort, alloc: Global, end: &mut Endpoint, row: &Row, talk: &str) {
    let (call, answer) = row;
    let mut shown = Shown::new(alloc);
    show(rt, alloc, end, call, &mut shown);
    let mut wanted = Shown::new(alloc);
    show_wanted(alloc, call, answer, &mut wanted);
    see(rt, &shown, &wanted, call, talk);
}

/// Bytes that go out are told by their digits.
fn show_wanted(alloc: Global, call: &str, answer: &str, wanted: &mut Shown) {
    if call.starts_with("drain") && answer != "NoMemory" {
        wanted.bytes(&bytes_of(alloc, answer));
    } else {
        wanted.put(answer);
    }
}
