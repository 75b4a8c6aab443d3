//! Why a file is not read.
ghost use Rattle.std.specs.Prelude.{◌≡◌};

use std::alloc::AllocError;

/// Memory ran out; or the store failed, whose count of faults rose in this call.
#[derive(Clone, Copy, Debug, PartialEq, Eq)]
pub enum FileError {
    NoMemory,
    Failed,
}

impl From<AllocError> for FileError {
    ghost use Rattle.uno_io.specs.declared.file_error.FileError.TheVariants.{NoMemory};

    ghost from_gives = { λ _ e. e ≡ NoMemory };

    fn from(_: AllocError) -> FileError {
        FileError::NoMemory
    }
}
