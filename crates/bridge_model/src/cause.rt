//! Why a bridge has ended.

use urp_model::Reason;

/// The first thing that ended it; want of memory afterwards takes its place.
#[derive(Clone, Copy, Debug, PartialEq, Eq)]
pub enum Cause {
    /// It was disposed here, by a call or a statement.
    Disposed,
    /// Its input ended.
    Ended,
    /// Its input or its output failed.
    Failed,
    /// The peer broke the protocol: why, and the place in all bytes of the input where what breaks it begins.
    Broken(Reason, u64),
    /// A limit of entries or of bytes was reached.
    Full,
    NoMemory,
}
