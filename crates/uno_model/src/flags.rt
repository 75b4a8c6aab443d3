//! The flags of a property.

/// What a service says of a property, in the order of the grammar.
#[derive(Clone, Copy, PartialEq, Eq)]
pub struct Flags {
    pub bound: bool,
    pub constrained: bool,
    pub maybeambiguous: bool,
    pub maybedefault: bool,
    pub maybevoid: bool,
    pub optional: bool,
    pub readonly: bool,
    pub removable: bool,
    pub transient: bool,
}
