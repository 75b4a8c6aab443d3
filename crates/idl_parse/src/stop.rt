//! Why a call of the parser goes no further.
ghost use Rattle.std.specs.Prelude.{◌≡◌};
ghost use Rattle.idl_parse.specs.declared.stop.Stop.TheVariants as stop;

use grammar_model::Fault;
use std::alloc::{AllocError, AllocFailed};
use uno_base::NoMemory;

/// Why a call of the parser goes no further: the fault has its place as the number of tokens that are left from there on.
#[derive(Clone, Copy)]
pub(crate) enum Stop {
    NoMemory,
    At(Fault),
}

impl From<NoMemory> for Stop {
    ghost from_gives = { λ _ e. e ≡ stop.NoMemory };

    fn from(_: NoMemory) -> Stop {
        Stop::NoMemory
    }
}

impl From<AllocError> for Stop {
    ghost from_gives = { λ _ e. e ≡ stop.NoMemory };

    fn from(_: AllocError) -> Stop {
        Stop::NoMemory
    }
}

impl<T: Drop> From<AllocFailed<T>> for Stop {
    ghost from_gives = { λ _ e. e ≡ stop.NoMemory };

    fn from(_: AllocFailed<T>) -> Stop {
        Stop::NoMemory
    }
}
