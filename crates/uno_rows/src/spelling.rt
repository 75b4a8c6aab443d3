//! Texts and bytes in a row.
//!
//! ` / ` stands for a line feed. `\n`, `\r`, `\t`, `\\`, `\'`, `\"`, `\0` and `\xFF` are as in Rust, and `\e` is nothing. `«40 ab»` is
//! `ab` 40 times; in it `#` is the number of the time, from 00000 on, and `§` the number behind it.
use std::alloc::Global;
use std::fmt::Write;

/// What stands before the mark, and what behind it; without a mark, nothing.
pub(crate) fn cut<'a>(text: &'a str, mark: &str) -> (&'a str, &'a str) {
    match text.split_once(mark) {
        Some(both) => both,
        None => (text, ""),
    }
}

/// Puts a text behind another, with all that stands in it many times.
pub(crate) fn push_spread(to: &mut String, text: &str) {
    for part in text.split('»') {
        let (front, many) = cut(part, "«");
        let (count, piece) = cut(many, " ");
        to.push_str(front).ok();
        for number in 0..count.parse::<u32>().unwrap_or(0) {
            push_piece(to, piece, number);
        }
    }
}

fn push_piece(to: &mut String, piece: &str, number: u32) {
    for letter in piece.chars() {
        match letter {
            '#' => push_number(to, number),
            '§' => push_number(to, number.saturating_add(1)),
            _ => {
                to.push(letter).ok();
            }
        }
    }
}

fn push_number(to: &mut String, number: u32) {
    write!(to, "{number:05}").ok();
}

/// The bytes that a text stands for.
pub(crate) fn bytes_of(alloc: Global, text: &str) -> Vec<u8> {
    let mut bytes = Vec::new(alloc);
    for line in text.split(" / ") {
        push_line(&mut bytes, line);
        bytes.push(b'\n').ok();
    }
    bytes.pop();
    bytes
}

/// Of the parts between the `\`, every one but the first begins with what was behind a `\`; an empty one stands for a `\`, and the next
/// for itself.
fn push_line(to: &mut Vec<u8>, line: &str) {
    let mut as_it_is = true;
    for part in line.split('\\') {
        let (byte, used) = if as_it_is {
            (None, 0)
        } else {
            meant(part.as_bytes())
        };
        if let Some(byte) = byte {
            to.push(byte).ok();
        }
        let (_, rest) = part.as_bytes().split_at(used.min(part.len()));
        to.extend_from_slice(rest).ok();
        as_it_is = !as_it_is && part.is_empty();
    }
}

/// The byte that the front of a part stands for, and the length of that front.
fn meant(part: &[u8]) -> (Option<u8>, usize) {
    match part.first() {
        Some(b'n') => (Some(b'\n'), 1),
        Some(b'r') => (Some(b'\r'), 1),
        Some(b't') => (Some(b'\t'), 1),
        Some(b'0') => (Some(0), 1),
        Some(b'e') => (None, 1),
        Some(b'x') => (Some(digit(part, 1).wrapping_mul(16) | digit(part, 2)), 3),
        Some(byte) => (Some(*byte), 1),
        None => (Some(b'\\'), 0),
    }
}

fn digit(part: &[u8], place: usize) -> u8 {
    match part.get(place) {
        Some(byte @ b'0'..=b'9') => byte.wrapping_sub(b'0'),
        Some(byte @ b'a'..=b'f') => byte.wrapping_sub(b'a').wrapping_add(10),
        Some(byte @ b'A'..=b'F') => byte.wrapping_sub(b'A').wrapping_add(10),
        _ => 0,
    }
}
