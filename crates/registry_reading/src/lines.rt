//! The lines of a text.
ghost use Rattle.std.specs.Prelude.{◌≡◌, ◌+◌, ◌≤◌, ◌++◌, ◌∷◌, ◌==◌, ◌<◌, length, not, MatchOption, true, Ok};
ghost use Rattle.std.specs.List.{position, prefix_len};
ghost use Rattle.std.specs.Simd.Lanes.{chunk};
ghost use Rattle.registry_text_model.specs.Reading.{is_one_line};
ghost use Rattle.registry_reading_model.specs.TextLines.{is_plain};
ghost use Rattle.registry_reading.specs.Feeds.{NoFeedBefore};

use std::simd::prelude::*;

/// So many bytes are looked at together.
const RUN: usize = 16;

/// How many of them, from a place on, come before the first line feed.
#[inline(always)]
fn run_without_feed(bytes: &[u8], at: usize) -> usize
    requires { at + RUN ≤ length bytes.now }
    ensures { result ≡ prefix_len (λ b. not (b == 10)) (chunk at RUN bytes.now) }
{
    let feeds = u8x16::from_slice(&bytes[at..])
        .simd_eq(u8x16::splat(b'\n'))
        .to_bitmask();
    if feeds == 0 {
        RUN
    } else {
        feeds.trailing_zeros() as usize
    }
}

fn line_feed(bytes: &[u8]) -> Option<usize>
    ensures { result ≡ position (λ b. b == 10) bytes.now }
{
    let mut at = 0;
    while RUN <= bytes.len() - at {
        let run = run_without_feed(bytes, at);
        if run < RUN {
            return Some(at + run);
        }
        at += RUN;
    }
    line_feed_from(bytes, at)
}

/// The same where none stands before a place.
fn line_feed_from(bytes: &[u8], from: usize) -> Option<usize>
    requires within { from ≤ length bytes.now }
    requires before { NoFeedBefore bytes.now from }
    ensures { result ≡ position (λ b. b == 10) bytes.now }
{
    let mut at = from;
    while at < bytes.len() {
        if bytes[at] == b'\n' {
            return Some(at);
        }
        at += 1;
    }
    None
}

/// The first line, without its line feed, and what stands behind it. A line without one is none.
pub(crate) fn first_line(bytes: &[u8]) -> Option<(&[u8], &[u8])>
    ensures { MatchOption result (is_one_line bytes.now ≡ true) (λ x. (bytes.now ≡ x.0.now ++ 10 ∷ x.1.now) × (is_one_line x.0.now ≡ true)) }
{
    match line_feed(bytes) {
        Some(end) => Some((&bytes[..end], &bytes[end + 1..])),
        None => None,
    }
}

/// A line, or an empty one where it is no text.
pub(crate) fn text_or_empty(line: &[u8]) -> &str
    ensures { is_plain line.now ≡ true → result.now ≡ line.now }
{
    match std::str::from_utf8(line) {
        Ok(text) => text,
        Err(_) => "",
    }
}
