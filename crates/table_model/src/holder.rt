//! Who holds a pair.

/// A frame by its number, an object, or a thread of the plan.
#[derive(Clone, Copy, Debug, PartialEq, Eq, Hash)]
pub enum Holder {
    Frame(u64),
    Object(u32),
    Root(u32),
}
