//! A text, the value of the type `string`.
ghost use Rattle.std.specs.Prelude.{◌≡◌, ◌↔◌, IfOk, IsTrue, string_bytes};
ghost use Rattle.uno_model.specs.Fits.{IsIdentity};

use crate::MOST_BYTES;
use std::alloc::Global;
use std::hash::{Hash, Hasher};
use std::marker::Model;
use std::sync::ArcStr;
use uno_base::NoMemory;

/// A text, as the bytes of its UTF-8, which its copies share.
#[derive(Drop)]
pub struct Text {
    text: ArcStr<Global>,
}

impl Model for Text {
    ghost use Rattle.std.specs.Prelude.{ℕ, List};
    ghost use Rattle.std.specs.Arc.{arc_str_bytes};

    ghost Value = { List ℕ };

    ghost view = { λ t. arc_str_bytes t.text };
}

impl PartialEq for Text {
    ghost use Rattle.std.specs.Prelude.{nat_eq};
    ghost use Rattle.std.specs.Cmp.{partial_equiv_from_equiv};
    ghost use Rattle.std.specs.Cmp.Lexicographic.{pointwise, nat_list_eq_equiv};

    ghost eq = { pointwise nat_eq };

    ghost laws = { partial_equiv_from_equiv nat_list_eq_equiv };

    fn eq(&self, other: &Text) -> bool {
        self.as_str() == other.as_str()
    }
}

impl Eq for Text {
    ghost use Rattle.std.specs.Cmp.Lexicographic.{nat_list_eq_equiv};

    ghost laws = { nat_list_eq_equiv };
}

impl Hash for Text {
    ghost use Rattle.std.specs.Hash as fed;
    ghost use Rattle.uno_entities.specs.Hashing.{hashed_alike};

    ghost hash_input = { fed.str };

    ghost respects_eq = { hashed_alike };

    fn hash<H: Hasher>(&self, state: &mut H) {
        self.as_str().hash(state);
    }
}

impl Text {
    /// The text of just these bytes.
    pub fn of(alloc: Global, text: &str) -> Result<Text, NoMemory>
        ensures { IfOk result (λ copy. copy ≡ text.now) }
    {
        let text = ArcStr::from_str(alloc, text)?;
        Ok(Text { text })
    }

    /// The text that a string holds.
    pub fn from_string(text: String) -> Result<Text, NoMemory>
        ensures { IfOk result (λ it. it ≡ string_bytes text) }
    {
        let text = ArcStr::from_string(text)?;
        Ok(Text { text })
    }

    /// Its text.
    pub fn as_str(&self) -> &str
        ensures { result.now ≡ self.now }
    {
        self.text.as_str()
    }

    /// An equal text, which shares its bytes; refused only if that has too many owners.
    pub fn copy(&self) -> Result<Text, NoMemory>
        ensures { IfOk result (λ copy. copy ≡ self.now) }
    {
        let text = self.text.clone()?;
        Ok(Text { text })
    }

    /// Whether it may be the identity of an object: 1 to 4,096 bytes.
    pub fn is_identity(&self) -> bool
        ensures { IsTrue result ↔ IsIdentity self.now }
    {
        is_identity(self.as_str())
    }
}

/// Whether it has 1 to 4,096 bytes.
pub fn is_identity(oid: &str) -> bool
    ensures { IsTrue result ↔ IsIdentity oid.now }
{
    if oid.is_empty() {
        return false;
    }
    oid.len() <= MOST_BYTES
}
