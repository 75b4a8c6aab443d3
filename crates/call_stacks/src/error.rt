//! Why an answer is refused.
use thiserror::Error;

/// No call waits for it.
#[derive(Clone, Copy, Debug, PartialEq, Eq, Error)]
#[error("no call waits for an answer")]
pub struct NobodyWaits;
