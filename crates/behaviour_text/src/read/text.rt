//! The lines of a text, one after the other.
ghost use Rattle.std.specs.Prelude.{◌≡◌, ◌==◌, ◌||◌, ◌≢◌, ◌∷◌, [], ◌<◌, drop, length, MatchOption};
ghost use Rattle.std.specs.List.{position};
ghost use Rattle.std.specs.Str.{bytes_eq};
ghost use Rattle.plan_model.specs.PlanText.{lines_of, behind_blanks, is_skipped, first_line};

/// The first line of a plan.
const FIRST_LINE: &[u8] = b"unoplan 1";

fn line_feed(bytes: &[u8]) -> Option<usize>
    ensures { result ≡ position (λ b. b == 10) bytes.now }
{
    bytes.iter().position(|byte| *byte == b'\n')
}

/// The first line, and what stands behind its line feed.
pub(crate) fn split_line(bytes: &[u8]) -> (&[u8], &[u8])
    ensures lines { bytes.now ≢ [] → lines_of bytes.now ≡ result.0.now ∷ lines_of result.1.now }
    ensures none { bytes.now ≡ [] → (result.0.now ≡ []) }
    ensures less { bytes.now ≢ [] → length result.1.now < length bytes.now }
{
    match line_feed(bytes) {
        Some(place) => {
            let (line, rest) = bytes.split_at(place);
            (line, behind_first(rest))
        }
        None => (bytes, &[]),
    }
}

/// The first line of what is left, and what stands behind it.
pub(crate) fn next_line(bytes: &[u8]) -> Option<(&[u8], &[u8])>
    ensures { MatchOption result (bytes.now ≡ []) (λ x. (lines_of bytes.now ≡ x.0.now ∷ lines_of x.1.now) × (length x.1.now < length bytes.now)) }
{
    match bytes.split_first() {
        Some((_, _)) => Some(split_line(bytes)),
        None => None,
    }
}

/// Without the first byte.
fn behind_first(bytes: &[u8]) -> &[u8]
    ensures { result.now ≡ drop 1 bytes.now }
{
    match bytes.split_first() {
        Some((_, behind)) => behind,
        None => bytes,
    }
}

/// A line without the blanks in front of it.
pub(crate) fn behind_blanks(line: &[u8]) -> &[u8]
    ensures { result.now ≡ behind_blanks line.now }
{
    let mut rest = line;
    while let Some((first, behind)) = rest.split_first() {
        if !is_blank(*first) {
            return rest;
        }
        rest = behind;
    }
    rest
}

/// Whether the byte is a blank or a tab.
fn is_blank(byte: u8) -> bool
    ensures { result ≡ ((byte == 32) || (byte == 9)) }
{
    byte == b' ' || byte == b'\t'
}

/// Whether a line, which has no blanks in front, says nothing.
pub(crate) fn is_skipped(line: &[u8]) -> bool
    ensures { result ≡ is_skipped line.now }
{
    match line.first() {
        Some(first) => *first == b'#',
        None => true,
    }
}

/// Whether a line is the first one of a plan.
pub(crate) fn begins_plan(line: &[u8]) -> bool
    ensures { result ≡ bytes_eq (behind_blanks line.now) first_line }
{
    behind_blanks(line) == FIRST_LINE
}
