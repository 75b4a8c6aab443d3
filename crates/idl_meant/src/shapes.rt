//! Types before they are made.
ghost use Rattle.std.specs.Prelude.{◌≡◌};
ghost use Rattle.idl_meant.specs.Shaping as plain;

use idl_trees::Simple;

/// More sequences than 64 stand as so many, which is one past the limit.
const MOST: u32 = 65;

/// The type below all sequences: a simple one, or that of the path of this number, at which a chain of typedefs ends. One without an end
/// stands for itself.
#[derive(Clone, Copy)]
pub(crate) enum Leaf {
    Simple(Simple),
    End(u32),
    Endless(u32),
}

/// A type: how many sequences stand round another.
#[derive(Clone, Copy)]
pub(crate) struct Shape {
    pub sequences: u32,
    pub leaf: Leaf,
}

/// The shape of a sequence of these.
pub(crate) fn sequence_of(shape: Shape) -> Shape
    ensures { result ≡ plain.sequence_of shape }
{
    let sequences = if shape.sequences < MOST {
        shape.sequences + 1
    } else {
        MOST
    };
    Shape {
        sequences,
        leaf: shape.leaf,
    }
}
