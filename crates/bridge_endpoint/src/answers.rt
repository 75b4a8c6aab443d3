//! What the calls of an endpoint answer.

use plan_types::Job;
use uno_types::Text;
use urp_message::Reason;

/// What became of a piece.
#[derive(Clone, Copy, Debug, PartialEq, Eq)]
pub enum Fed {
    /// So many bytes were taken: to the end of a block, or all that the limit of fed bytes leaves.
    Taken(usize),
    /// The peer broke the protocol: why, and the place in all bytes of the input where what breaks it begins.
    Broken(Reason, u64),
    Full,
    /// The bridge has ended before.
    Gone,
    NoMemory,
}

/// What became of a call that a root begins.
#[derive(Clone, Copy, Debug, PartialEq, Eq)]
pub enum Begun {
    /// The root waits.
    Started,
    /// The root has its outcome already.
    Answered,
    /// The root does not hold the target or a reference in the arguments.
    NotHeld,
    Full,
    Gone,
    NoMemory,
}

/// A new object of a root, by its OID.
#[derive(Drop)]
pub enum Made {
    Made(Text),
    Full,
    Gone,
    NoMemory,
}

/// Why nothing was applied.
#[derive(Drop)]
pub enum ApplyError {
    /// The job is no more the one that would be picked, which is given.
    Stale(Option<Job>),
    Full,
    NoMemory,
}
