//! Why bytes are not read as a value.
ghost use Rattle.std.specs.Prelude.{◌≡◌};

use std::alloc::{AllocError, AllocFailed};
use uno_base::NoMemory;
use urp_model::Reason;

/// Memory ran out; or the next part is not whole; or a whole part breaks the protocol.
#[derive(Clone, Copy, Debug, PartialEq, Eq)]
pub enum WireError {
    NoMemory,
    Short,
    Bad(Reason),
}

impl From<NoMemory> for WireError {
    ghost use Rattle.urp_wire.specs.declared.error.WireError.TheVariants.{NoMemory};

    ghost from_gives = { λ _ e. e ≡ NoMemory };

    fn from(_: NoMemory) -> WireError {
        WireError::NoMemory
    }
}

impl From<AllocError> for WireError {
    ghost use Rattle.urp_wire.specs.declared.error.WireError.TheVariants.{NoMemory};

    ghost from_gives = { λ _ e. e ≡ NoMemory };

    fn from(_: AllocError) -> WireError {
        WireError::NoMemory
    }
}

impl<T: Drop> From<AllocFailed<T>> for WireError {
    ghost use Rattle.urp_wire.specs.declared.error.WireError.TheVariants.{NoMemory};

    ghost from_gives = { λ _ e. e ≡ NoMemory };

    fn from(_: AllocFailed<T>) -> WireError {
        WireError::NoMemory
    }
}
