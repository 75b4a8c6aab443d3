//! How a row is judged.
use std::process::Abort;

/// Sees that a row is right, and names it where it is not.
pub(crate) fn see(rt: &impl Abort, right: bool, row: &str) {
    assert!(rt; right, "at {row}");
}

/// The same of a row by its number, from 0 on.
pub(crate) fn see_number(rt: &impl Abort, right: bool, row: usize) {
    assert!(rt; right, "at {row}");
}
