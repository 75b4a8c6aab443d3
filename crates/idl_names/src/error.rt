//! Why names are refused.
ghost use Rattle.std.specs.Prelude.{◌≡◌};
ghost use Rattle.idl_names.specs.declared.error.NameError.TheVariants as error;

use idl_trees::Place;
use std::alloc::AllocFailed;
use thiserror::Error;
use uno_base::NoMemory;

/// The first fault of names in files, at the place of the name or of the type.
#[derive(Clone, Copy, Debug, PartialEq, Eq, Error)]
pub enum NameError {
    #[error("no memory")]
    NoMemory,
    /// The name stands for nothing.
    #[error("a name that is declared nowhere")]
    Unknown(Place),
    /// The name is declared before, at the other place; a built-in entity has none.
    #[error("a name that is declared twice")]
    Twice(Place, Option<Place>),
    /// The types `float` and `double` are not served.
    #[error("float and double are refused")]
    FloatRefused(Place),
}

impl From<NoMemory> for NameError {
    ghost from_gives = { λ _ e. e ≡ error.NoMemory };

    fn from(_: NoMemory) -> NameError {
        NameError::NoMemory
    }
}

impl<T: Drop> From<AllocFailed<T>> for NameError {
    ghost from_gives = { λ _ e. e ≡ error.NoMemory };

    fn from(_: AllocFailed<T>) -> NameError {
        NameError::NoMemory
    }
}
