//! Why the text of a registry is refused.
ghost use Rattle.std.specs.Prelude.{◌≡◌};

/// The reason alone; its line stands beside it.
#[derive(Clone, Copy, Debug, PartialEq, Eq)]
pub enum RegistryReason {
    BadLine,
    Order,
    /// The number of the rule.
    Rule(u8),
    TooLong,
}
