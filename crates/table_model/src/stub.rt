//! How often a pair was sent, and how often the peer released it.

/// The two numbers of a pair, from the sending that made its stub on.
#[derive(Clone, Copy, Debug, PartialEq, Eq)]
pub struct Stub {
    pub sent: u64,
    pub released: u64,
}
