//! Why a text is not read.
ghost use Rattle.std.specs.Prelude.{◌≡◌};
ghost use Rattle.plan_lines.specs.declared.unread.Unread.TheVariants.{NoMemory};

use std::alloc::{AllocError, AllocFailed};

/// Want of memory, or a text that has not the form.
#[derive(Clone, Copy)]
pub(crate) enum Unread {
    NoMemory,
    Form,
}

/// What was read at the front of a text, and what stands behind it.
pub(crate) type Front<'a, T> = Result<(T, &'a [u8]), Unread>;

impl From<AllocError> for Unread {
    ghost from_gives = { λ _ e. e ≡ NoMemory };

    fn from(_: AllocError) -> Unread {
        Unread::NoMemory
    }
}

impl<T: Drop> From<AllocFailed<T>> for Unread {
    ghost from_gives = { λ _ e. e ≡ NoMemory };

    fn from(_: AllocFailed<T>) -> Unread {
        Unread::NoMemory
    }
}

impl From<uno_base::NoMemory> for Unread {
    ghost from_gives = { λ _ e. e ≡ NoMemory };

    fn from(_: uno_base::NoMemory) -> Unread {
        Unread::NoMemory
    }
}
