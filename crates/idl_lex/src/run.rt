//! Runs of bytes of one kind, and what stands in front of bytes.
ghost use Rattle.std.specs.Bool.{OnTrue};
ghost use Rattle.std.specs.Prelude.{◌≡◌, ◌≤◌, take, length, IsTrue};
ghost use Rattle.std.specs.List.{list_all};
ghost use Rattle.std.specs.Str.{bytes_eq};
ghost use Rattle.literal_model.specs.Shapes.{run_of, behind_run};
ghost use Rattle.uno_model.specs.Names.{goes_on_identifier};
ghost use Rattle.idl_text_model.specs.Readings.{start_at};
ghost use Rattle.idl_lex.specs.Runs.{test_of, is_ascii};

use uno_entities::goes_on_identifier;

/// The kinds of bytes that stand in a run.
#[derive(Clone, Copy)]
pub(crate) enum Run {
    /// Spaces and tabs.
    Blank,
    /// Letters, digits and `_`.
    Word,
    /// All that is no line feed.
    Line,
}

/// The longest run at the front, and what is behind it.
pub(crate) fn split_run<'a>(run: Run, bytes: &'a [u8]) -> (&'a [u8], &'a [u8])
    ensures front { result.0.now ≡ run_of (test_of run) bytes.now }
    ensures rest { result.1.now ≡ behind_run (test_of run) bytes.now }
    ensures all { IsTrue (list_all (test_of run) result.0.now) }
{
    for length in 0..bytes.len() {
        if !goes_on(run, bytes[length]) {
            return bytes.split_at(length);
        }
    }
    bytes.split_at(bytes.len())
}

/// Whether a byte stands in a run.
pub(crate) fn goes_on(run: Run, byte: u8) -> bool
    ensures { result ≡ test_of run byte }
{
    match run {
        Run::Blank => byte == b' ' || byte == b'\t',
        Run::Word => goes_on_word(byte),
        Run::Line => byte != b'\n',
    }
}

/// Whether a byte stands in a word; most that do are letters, which are asked for first.
fn goes_on_word(byte: u8) -> bool
    ensures { result ≡ goes_on_identifier byte }
{
    if byte.is_ascii_alphabetic() {
        return true;
    }
    goes_on_identifier(byte)
}

/// Behind what stands before the first word of a line: blanks, and all of the line where a `#` follows them.
pub(crate) fn behind_line_start(text: &[u8]) -> &[u8]
    ensures { result.now ≡ (start_at text.now).1 }
{
    let (_, behind) = split_run(Run::Blank, text);
    if !begins(behind, b"#") {
        return behind;
    }
    let (_, line_end) = split_run(Run::Line, behind);
    line_end
}

/// Whether the front stands in front of a text.
pub(crate) fn begins(text: &[u8], front: &[u8]) -> bool
    ensures is { result ≡ bytes_eq (take (length front.now) text.now) front.now }
    ensures within { OnTrue result (length front.now ≤ length text.now) }
{
    text.starts_with(front)
}

/// Bytes below 128 as a text.
pub(crate) fn as_text(bytes: &[u8]) -> &str
    requires { IsTrue (list_all is_ascii bytes.now) }
    ensures { result.now ≡ bytes.now }
{
    match str::from_utf8(bytes) {
        Ok(text) => text,
        Err(_) => unreachable!(),
    }
}
