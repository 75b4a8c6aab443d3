//! Bytes as words: digits of base 16, two to a byte, and texts behind a quote, as in `01 'T 0000`.
use std::alloc::Global;

/// The bytes; where there is no memory for some, these are lacking, and the row fails.
pub(crate) fn bytes_of(alloc: Global, words: &str) -> Vec<u8> {
    let mut bytes = Vec::new(alloc);
    for word in words.split(' ') {
        push_word(&mut bytes, word);
    }
    bytes
}

fn push_word(bytes: &mut Vec<u8>, word: &str) {
    match word.strip_prefix('\'') {
        Some(text) => {
            bytes.extend_from_slice(text.as_bytes()).ok();
        }
        None => push_digits(bytes, word),
    }
}

fn push_digits(bytes: &mut Vec<u8>, digits: &str) {
    for pair in digits.as_bytes().chunks(2) {
        bytes.push(byte_of(pair)).ok();
    }
}

fn byte_of(digits: &[u8]) -> u8 {
    u8::from_str_radix(str::from_utf8(digits).unwrap_or("?"), 16).unwrap_or(0)
}
