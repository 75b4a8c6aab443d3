//! Why a release is refused.
use thiserror::Error;

/// The pair has no stub.
#[derive(Clone, Copy, Debug, PartialEq, Eq, Error)]
#[error("the pair has no stub")]
pub struct Unowed;
