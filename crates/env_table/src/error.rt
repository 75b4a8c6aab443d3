//! Why nothing is let go.
use thiserror::Error;

/// The holder has no occurrence of the pair.
#[derive(Clone, Copy, Debug, PartialEq, Eq, Error)]
#[error("the holder has no occurrence of the pair")]
pub struct NotHeld;
