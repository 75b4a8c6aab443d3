//! Files by their names.
ghost use Rattle.std.specs.Prelude.{◌≡◌, ℕ, ◌≤◌, Option, Some, length, IfOk, IfSome, MatchResult, option_map, vec_items};
ghost use Rattle.uno_io.specs.Files.{Stored, read_at, CountAt};

use crate::FileError;

/// A store of files, each under a name.
pub trait Files {
    /// The files, where the store tells them; no real folder does.
    ghost stored: { Self → Option Stored };

    /// How often the store has failed.
    ghost faults: { Self → ℕ };

    /// The bytes of the file of a name, if there is one, of a longer file the first 4,194,305 of them.
    fn read(&mut self, name: &str) -> Result<Option<Vec<u8>>, FileError>
        ensures found { (files : Stored) → stored self.old ≡ Some files
            → IfOk result (λ found. option_map vec_items found ≡ read_at name.now files) }
        ensures bound { IfOk result (λ found. IfSome found (λ bytes. length bytes.items ≤ 4194305)) }
        ensures kept { stored self.new ≡ stored self.old }
        ensures cause { MatchResult result (λ _. faults self.new ≡ faults self.old) (CountAt (faults self.old) (faults self.new)) };
}

/// How many bytes of a file are read at most.
pub(crate) const MOST_READ: usize = 4_194_305;
