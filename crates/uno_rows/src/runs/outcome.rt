//! What came of a run.

/// The status, how many bytes a read of at most 100 gave behind the run, and what was written.
#[derive(Clone, Copy)]
pub(crate) struct Outcome<'a> {
    pub status: u8,
    pub left: usize,
    pub errors: &'a [u8],
    pub output: &'a [u8],
}
