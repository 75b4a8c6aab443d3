//! Why the service manager creates nothing.

/// Why nothing is created.
#[derive(Clone, Copy, Debug, PartialEq, Eq)]
pub enum Refusal {
    /// The plan has no service and no singleton of that name.
    UnknownService,
    /// No constructor takes the arguments.
    BadArguments,
}
