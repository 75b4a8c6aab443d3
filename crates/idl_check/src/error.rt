//! Why files that name what there is have no registry.
ghost use Rattle.std.specs.Prelude.{◌≡◌};
ghost use Rattle.idl_check.specs.declared.error.CheckError.TheVariants as error;

use idl_trees::Place;
use std::alloc::AllocFailed;
use thiserror::Error;
use uno_base::NoMemory;

/// Of all broken rules the one with the least number, at the least place where it is broken.
#[derive(Clone, Copy, Debug, PartialEq, Eq, Error)]
pub enum CheckError {
    #[error("no memory")]
    NoMemory,
    #[error("a rule is broken")]
    Rule(u8, Place),
}

impl From<NoMemory> for CheckError {
    ghost from_gives = { λ _ e. e ≡ error.NoMemory };

    fn from(_: NoMemory) -> CheckError {
        CheckError::NoMemory
    }
}

impl<T: Drop> From<AllocFailed<T>> for CheckError {
    ghost from_gives = { λ _ e. e ≡ error.NoMemory };

    fn from(_: AllocFailed<T>) -> CheckError {
        CheckError::NoMemory
    }
}
