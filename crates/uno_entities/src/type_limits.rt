//! The limits of a type's name: its bytes, and the sequences in it.
ghost use Rattle.std.specs.Prelude.{◌≡◌, ◌↔◌, ◌-◌, ◌^◌, IsTrue, length, min};
ghost use Rattle.uno_model.specs.Kinds.{nesting, name_of, IsNamable};
ghost use Rattle.uno_model.specs.Sound.{is_namable};
ghost use Rattle.uno_entities.specs.TypeNames.{kind_of};

use crate::TypeName;

/// The most bytes of a type's name, and of an object's identity.
pub const MOST_BYTES: usize = 4_096;

/// The most `[]` of a type's name, modules round an entity, and parameters of a function.
pub const MOST_LEVELS: usize = 64;

impl TypeName {
    /// How many sequences stand round the innermost type, or 2^64 - 1 where there are more.
    pub fn nesting(&self) -> u64
        ensures { result ≡ min (nesting (kind_of self.now)) (2 ^ 64 - 1) }
    {
        let mut kind = self;
        let mut count = 0u64;
        while let TypeName::Sequence(inner) = kind {
            kind = inner;
            count = count.saturating_add(1);
        }
        count
    }

    /// How many bytes its name has, or 2^64 - 1 where there are more.
    pub fn name_len(&self) -> u64
        ensures { result ≡ min (length (name_of (kind_of self.now))) (2 ^ 64 - 1) }
    {
        let innermost = self.innermost().front().len() as u64;
        self.nesting().saturating_mul(2).saturating_add(innermost)
    }

    /// Whether its name has at most 4,096 bytes and at most 64 sequences.
    pub fn is_namable(&self) -> bool
        ensures limits { IsTrue result ↔ IsNamable (kind_of self.now) }
        ensures test { result ≡ is_namable (kind_of self.now) }
    {
        if self.nesting() > MOST_LEVELS as u64 {
            return false;
        }
        self.name_len() <= MOST_BYTES as u64
    }
}
