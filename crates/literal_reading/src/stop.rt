//! Why a text, or its tokens, are not read further.
ghost use Rattle.std.specs.Prelude.{◌≡◌};
ghost use Rattle.literal_reading.specs.declared.stop.Stop.TheVariants.{NoMemory};

use crate::token::Placed;
use std::alloc::{AllocError, AllocFailed};

/// Want of memory, or the bytes that are left: from the first bad one on, or from the front of the first value that is none of its type.
#[derive(Clone, Copy)]
pub enum Stop {
    NoMemory,
    Bad(usize),
}

/// What was read of a text or of tokens, and what is left of them.
pub type Scan<'a, T> = Result<(T, &'a [u8]), Stop>;

pub(crate) type Read<'a, T> = Result<(T, &'a [Placed]), Stop>;

impl From<AllocError> for Stop {
    ghost from_gives = { λ _ e. e ≡ NoMemory };

    fn from(_: AllocError) -> Stop {
        Stop::NoMemory
    }
}

impl<T: Drop> From<AllocFailed<T>> for Stop {
    ghost from_gives = { λ _ e. e ≡ NoMemory };

    fn from(_: AllocFailed<T>) -> Stop {
        Stop::NoMemory
    }
}

impl From<uno_base::NoMemory> for Stop {
    ghost from_gives = { λ _ e. e ≡ NoMemory };

    fn from(_: uno_base::NoMemory) -> Stop {
        Stop::NoMemory
    }
}
