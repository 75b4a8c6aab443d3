//! Why a line is not taken.
ghost use Rattle.std.specs.Prelude.{◌≡◌};
ghost use Rattle.plan_checks.specs.declared.line_error.LineError.TheVariants.{NoMemory};

use plan_types::LineReason;
use std::alloc::AllocFailed;

/// Want of memory, or what is wrong with a line.
#[derive(Clone, Copy)]
pub enum LineError {
    NoMemory,
    Wrong(LineReason),
}

impl<T: Drop> From<AllocFailed<T>> for LineError {
    ghost from_gives = { λ _ e. e ≡ NoMemory };

    fn from(_: AllocFailed<T>) -> LineError {
        LineError::NoMemory
    }
}

impl From<uno_base::NoMemory> for LineError {
    ghost from_gives = { λ _ e. e ≡ NoMemory };

    fn from(_: uno_base::NoMemory) -> LineError {
        LineError::NoMemory
    }
}
