//! Why bytes are not taken.
ghost use Rattle.std.specs.Prelude.{◌≡◌};

use std::alloc::AllocError;

/// Memory ran out; or a block has more bytes than are allowed, which are told; or it has no message.
#[derive(Clone, Copy, Debug, PartialEq, Eq)]
pub enum StreamError {
    NoMemory,
    TooLarge(u32),
    NoMessages,
}

impl From<AllocError> for StreamError {
    ghost use Rattle.urp_stream.specs.declared.error.StreamError.TheVariants.{NoMemory};

    ghost from_gives = { λ _ e. e ≡ NoMemory };

    fn from(_: AllocError) -> StreamError {
        StreamError::NoMemory
    }
}
