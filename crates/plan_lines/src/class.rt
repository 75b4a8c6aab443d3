//! Runs of bytes of one class.
ghost use Rattle.std.specs.Prelude.{◌≡◌, IsTrue};
ghost use Rattle.std.specs.List.{list_all};
ghost use Rattle.literal_model.specs.Shapes.{run_of, behind_run};
ghost use Rattle.plan_lines.specs.Classes.{test_of, is_ascii, IsAscii};

use uno_entities::goes_on_identifier;

/// The bytes of a word are letters, digits and `_`, those of a path also `.`, those of a type also `[` and `]`; those of an exported name are
/// letters, digits, `.`, `_` and `-`; visible is all but a blank.
#[derive(Clone, Copy)]
pub(crate) enum Class {
    Word,
    Path,
    Type,
    Bracket,
    Exported,
    Visible,
}

/// The longest run of a class in front, and what stands behind it.
pub(crate) fn split<'a>(class: Class, bytes: &'a [u8]) -> (&'a [u8], &'a [u8])
    ensures front { result.0.now ≡ run_of (test_of class) bytes.now }
    ensures rest { result.1.now ≡ behind_run (test_of class) bytes.now }
    ensures ascii { IsAscii class result.0.now }
{
    for length in 0..bytes.len() {
        if !is_in(class, bytes[length]) {
            return bytes.split_at(length);
        }
    }
    bytes.split_at(bytes.len())
}

/// Whether a byte is of a class.
pub(crate) fn is_in(class: Class, byte: u8) -> bool
    ensures { result ≡ test_of class byte }
{
    match class {
        Class::Word => goes_on_identifier(byte),
        Class::Path => goes_on_identifier(byte) || byte == b'.',
        Class::Type => goes_on_identifier(byte) || matches!(byte, b'.' | b'[' | b']'),
        Class::Bracket => matches!(byte, b'[' | b']'),
        Class::Exported => byte.is_ascii_alphanumeric() || matches!(byte, b'.' | b'_' | b'-'),
        Class::Visible => byte != b' ',
    }
}

/// Bytes below 128 as a text.
pub(crate) fn as_text(bytes: &[u8]) -> &str
    requires { IsTrue (list_all is_ascii bytes.now) }
    ensures { result.now ≡ bytes.now }
{
    match str::from_utf8(bytes) {
        Ok(text) => text,
        Err(_) => unreachable!(),
    }
}
