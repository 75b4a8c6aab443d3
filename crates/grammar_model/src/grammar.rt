//! A grammar, as the laws speak of it.
ghost use Rattle.std.specs.Prelude.{Bool, List};

/// Which tokens spell a tree, which trees keep the limits, and which tokens open something of which only so many may be open.
pub trait Grammar {
    type Token;

    type Tree;

    ghost spells: { Self.Tree → List Self.Token → Type 0 };

    ghost fits: { Self.Tree → Bool };

    ghost opens: { Self.Token → Bool };
}
