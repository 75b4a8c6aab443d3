//! Why a run of two ends stopped while there was more to do.
ghost use Rattle.std.specs.Prelude.{◌≡◌};

use uno_base::NoMemory;

/// Why not all was done.
#[derive(Clone, Copy, Debug, PartialEq, Eq)]
pub enum RunError {
    NoMemory,
    /// An end reached a limit.
    Full,
}

impl From<NoMemory> for RunError {
    ghost use Rattle.bridge_world.specs.declared.error.RunError.TheVariants as error;

    ghost from_gives = { λ _ e. e ≡ error.NoMemory };

    fn from(_: NoMemory) -> RunError {
        RunError::NoMemory
    }
}
