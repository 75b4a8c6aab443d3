//! Which way a parameter's value goes.

/// The way of a parameter's value: into the call, out of it, or both.
#[derive(Clone, Copy, PartialEq, Eq)]
pub enum Way {
    Into,
    Out,
    Both,
}
