//! What a slot can mean.

use uno_entities::{Text, Tid};

/// A name that a slot can mean; what it says are its bytes.
pub trait SlotName: Drop {
    ghost use Rattle.std.specs.Prelude.{ℕ, List};

    ghost bytes: { Self → List ℕ };
}

impl SlotName for Text {
    ghost bytes = { λ text. text };
}

impl SlotName for Tid {
    ghost bytes = { λ tid. tid };
}
