//! A tag, which tells the ends of a bridge apart: the OIDs of an end's own objects begin with it.
ghost use Rattle.std.specs.Prelude.{◌≡◌, ◌↔◌, IfOk, IsTrue};
ghost use Rattle.uno_entities.specs.Tag.{IsTag};
ghost use Rattle.uno_entities.specs.declared.tag.TagError.TheVariants.{NoMemory};

use std::alloc::{AllocError, Global};
use std::error::Error;
use std::fmt;
use std::marker::Model;
use uno_base::NoMemory;

/// Why a text is no tag.
#[derive(Clone, Copy, Debug, PartialEq, Eq)]
pub enum TagError {
    NoMemory,
    /// The text is not 1 to 32 of 0-9A-Za-z.
    BadTag,
}

impl fmt::Display for TagError {
    ghost use Rattle.std.specs.Prelude.{Some};
    ghost use Rattle.uno_entities.specs.ErrorTexts.{tag_error_text};

    ghost output = { λ e. Some (tag_error_text e) };

    fn fmt<W: fmt::Write>(&self, f: &mut fmt::Formatter<W>) -> fmt::Result {
        match self {
            TagError::NoMemory => write!(f, "no memory"),
            TagError::BadTag => write!(f, "a tag is 1 to 32 letters and digits"),
        }
    }
}

impl Error for TagError {}

impl From<AllocError> for TagError {
    ghost from_gives = { λ _ e. e ≡ NoMemory };

    fn from(_: AllocError) -> TagError {
        TagError::NoMemory
    }
}

/// The tag of one end of a bridge; who makes the two ends gives them different ones.
#[derive(Drop)]
pub struct Tag {
    text: String,
}

impl Model for Tag {
    ghost use Rattle.std.specs.Prelude.{ℕ, List, string_bytes};
    ghost use Rattle.uno_entities.specs.Tag.{IsTag};

    ghost Value = { List ℕ };

    ghost view = { λ t. string_bytes t.text };

    ghost invariant = { λ t. IsTag (string_bytes t.text) };
}

impl Tag {
    /// The tag of just these letters and digits.
    pub fn read(alloc: Global, text: &str) -> Result<Tag, TagError>
        ensures same { IfOk result (λ tag. (tag ≡ text.now) × IsTag text.now) }
        ensures bad { (result ≡ Err TagError.BadTag) ↔ (IsTag text.now → ⊥) }
    {
        if !is_tag(text) {
            return Err(TagError::BadTag);
        }
        let text = String::from_str(alloc, text)?;
        Ok(Tag { text })
    }

    /// Its letters and digits.
    pub fn as_str(&self) -> &str
        ensures same { result.now ≡ self.now }
        ensures is { IsTag self.now }
    {
        self.text.as_str()
    }

    /// Their bytes.
    pub fn as_bytes(&self) -> &[u8]
        ensures same { result.now ≡ self.now }
        ensures is { IsTag self.now }
    {
        self.as_str().as_bytes()
    }

    /// An equal tag.
    pub fn copy(&self, alloc: Global) -> Result<Tag, NoMemory>
        ensures same { IfOk result (λ tag. tag ≡ self.now) }
        ensures is { IsTag self.now }
    {
        let text = String::from_str(alloc, self.text.as_str())?;
        Ok(Tag { text })
    }
}

/// Whether the text is 1 to 32 letters and digits.
fn is_tag(text: &str) -> bool
    ensures { IsTrue result ↔ IsTag text.now }
{
    if text.is_empty() {
        return false;
    }
    if text.len() > LONGEST {
        return false;
    }
    text.bytes().all(|byte| byte.is_ascii_alphanumeric())
}

/// The most letters and digits of a tag.
const LONGEST: usize = 32;
