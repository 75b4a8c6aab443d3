//! Whether a sender's cache held a name already.

/// Whether a name was held, or is written out with the slot that it takes now.
#[derive(Clone, Copy, Debug, PartialEq, Eq)]
pub enum Known {
    Old,
    New,
}
