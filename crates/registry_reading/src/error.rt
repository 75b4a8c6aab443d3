//! Why a text is no registry.
ghost use Rattle.std.specs.Prelude.{◌≡◌};
ghost use Rattle.registry_reading.specs.declared.error.RegError.TheVariants as error;

use std::alloc::AllocFailed;
use thiserror::Error;
use uno_base::NoMemory;

/// A line is counted from 1, and a rule by its number; its line is the first of the entity.
#[derive(Clone, Copy, Debug, PartialEq, Eq, Error)]
pub enum RegError {
    #[error("no memory")]
    NoMemory,
    /// No registry's text has such a line there.
    #[error("{0}: BadLine")]
    BadLine(u32),
    /// The name of the entity is not above the one before it.
    #[error("{0}: Order")]
    Order(u32),
    /// The registry breaks this rule, and none before it; the line is that of the first entity that breaks it.
    #[error("{1}: Rule {0}")]
    Rule(u8, u32),
    /// There are more than 4,194,304 bytes.
    #[error("0: TooLong")]
    TooLong,
}

impl From<NoMemory> for RegError {
    ghost from_gives = { λ _ e. e ≡ error.NoMemory };

    fn from(_: NoMemory) -> RegError {
        RegError::NoMemory
    }
}

impl<T: Drop> From<AllocFailed<T>> for RegError {
    ghost from_gives = { λ _ e. e ≡ error.NoMemory };

    fn from(_: AllocFailed<T>) -> RegError {
        RegError::NoMemory
    }
}
