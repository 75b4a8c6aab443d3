//! Quoted texts.
ghost use Rattle.std.specs.Prelude.{◌≡◌, IfOk, false};
ghost use Rattle.literal_model.specs.Shapes.{string_at, escape_of};
ghost use Rattle.literal_reading.specs.Scanning.{Scans};

use crate::stop::{Scan, Stop};
use std::alloc::Global;
use uno_base::NoMemory;
use uno_types::Text;

/// The text up to the quote at its end, without its escapes.
#[tactic(auto, using(crate::proofs::ScanLemmas::with_all_none, crate::proofs::ScanLemmas::with_all_more), unfolding(literal_model::specs::Shapes::string_at))]
pub fn string_at<'a>(alloc: Global, bytes: &'a [u8]) -> Scan<'a, Vec<u8>>
    ensures { Scans (λ x. (x.0.items, x.1.now)) result (string_at false bytes.now) }
{
    let mut text = Vec::new(alloc);
    let mut rest = bytes;
    let mut escaped = false;
    while let Some((first, behind)) = rest.split_first() {
        if escaped {
            let Some(byte) = escape_of(*first) else {
                return Err(Stop::Bad(rest.len()));
            };
            text.push(byte)?;
            rest = behind;
            escaped = false;
            continue;
        }
        if *first == b'"' {
            return Ok((text, behind));
        }
        if *first == b'\\' {
            rest = behind;
            escaped = true;
            continue;
        }
        if *first == b'\n' {
            return Err(Stop::Bad(rest.len()));
        }
        text.push(*first)?;
        rest = behind;
    }
    Err(Stop::Bad(0))
}

/// What a byte behind a backslash stands for.
fn escape_of(byte: u8) -> Option<u8>
    ensures { result ≡ escape_of byte }
{
    match byte {
        b'n' => Some(b'\n'),
        b'"' | b'\\' => Some(byte),
        _ => None,
    }
}

/// Bytes between two quotes of a text are a text; if they were none, this would say want of memory.
pub(crate) fn text_of(alloc: Global, bytes: &[u8]) -> Result<Text, NoMemory>
    ensures { IfOk result (λ text. text ≡ bytes.now) }
{
    match str::from_utf8(bytes) {
        Ok(text) => Text::of(alloc, text),
        Err(_) => Err(NoMemory),
    }
}
