//! How the input of a bridge ends.

/// Whether no more bytes come, or they could not be read.
#[derive(Clone, Copy, Debug, PartialEq, Eq)]
pub enum InputEnd {
    Ended,
    Failed,
}
