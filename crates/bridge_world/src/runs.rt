//! The roots of both ends.
use behaviour::RootRun;

/// The roots of each end, in order.
#[derive(Drop)]
pub struct Runs {
    pub a: Vec<RootRun>,
    pub b: Vec<RootRun>,
}
