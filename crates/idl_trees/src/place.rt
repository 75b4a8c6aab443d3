//! Places in the files that are compiled together.

/// A byte of a file: the number of the file, and that of the byte in it, both counted from 0.
#[derive(Clone, Copy, Debug, PartialEq, Eq, PartialOrd, Ord)]
pub struct Place {
    pub file: u32,
    pub byte: u32,
}
