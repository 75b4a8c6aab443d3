//! What a lock keeps: a book of items, to which each turn may add one.
ghost use Rattle.std.specs.Prelude.{◌≡◌, List, length};

/// A book of items.
pub trait Book {
    type Item;

    /// What no turn changes.
    type Fixed;

    ghost items: { Self → List Self.Item };

    ghost fixed: { Self → Self.Fixed };

    /// How many items the book has.
    fn count(&self) -> u64
        ensures { result ≡ length (items self.now) };
}
