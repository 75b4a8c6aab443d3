//! Laws of blocks: each function has an empty body, and its clause is the law.
ghost use Rattle.std.specs.Prelude.{◌≡◌, ℕ, List, ◌++◌, ◌↔◌};
ghost use Rattle.urp_model.specs.Blocks.{spell_block, IsBlock, BeginsWhole, BeginsWithBlock, AreBytes};

/// Where bytes begin with a block, they begin with no other one, and what stands behind it is the same.
pub fn one_block_stands_at_the_front()
    ensures { (c d : ℕ) (x y r t : List ℕ) → IsBlock c x → IsBlock d y
        → spell_block c x ++ r ≡ spell_block d y ++ t → (c ≡ d) × (x ≡ y) × (r ≡ t) }
{}

/// A whole block stands at the front exactly where the bytes are some block and what stands behind it.
pub fn whole_blocks_are_what_blocks_begin()
    ensures { (s : List ℕ) → AreBytes s → (BeginsWhole s ↔ BeginsWithBlock s) }
{}
