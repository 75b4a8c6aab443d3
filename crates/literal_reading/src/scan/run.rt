//! Runs of bytes: those of a word, and those of a type's name.
ghost use Rattle.std.specs.Prelude.{◌≡◌, IsTrue};
ghost use Rattle.std.specs.List.{list_all};
ghost use Rattle.uno_model.specs.Names.{goes_on_identifier};
ghost use Rattle.literal_model.specs.Shapes.{run_of, behind_run};
ghost use Rattle.literal_reading.specs.Scanning.{test_of};

use uno_entities::goes_on_identifier;

/// The bytes of a word are letters, digits and `_`, those of a type's name also `.`, `[`, `]` and blanks.
#[derive(Clone, Copy)]
pub enum Run {
    Word,
    Name,
}

/// The longest run in front, and what stands behind it.
pub fn split_run<'a>(run: Run, bytes: &'a [u8]) -> (&'a [u8], &'a [u8])
    ensures front { result.0.now ≡ run_of (test_of run) bytes.now }
    ensures rest { result.1.now ≡ behind_run (test_of run) bytes.now }
    ensures all { IsTrue (list_all (test_of run) result.0.now) }
{
    for length in 0..bytes.len() {
        if !goes_on(run, bytes[length]) {
            return bytes.split_at(length);
        }
    }
    bytes.split_at(bytes.len())
}

fn goes_on(run: Run, byte: u8) -> bool
    ensures { result ≡ test_of run byte }
{
    match run {
        Run::Word => goes_on_identifier(byte),
        Run::Name => goes_on_identifier(byte) || matches!(byte, b'.' | b'[' | b']' | b' '),
    }
}
