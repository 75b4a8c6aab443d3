//! Copies and tags.
use crate::copies::{are_copied, kind_is_copied};
use std::alloc::Global;
use uno_base::NoMemory;
use uno_model::the_built_in_entities_are_sound;
use uno_types::{Registry, Tag, TagError};

fn type_is_copied(alloc: Global) -> Result<bool, NoMemory> {
    the_built_in_entities_are_sound();
    match &Registry::new(alloc) {
        Ok(registry) => kind_is_copied(alloc, registry, "[][]com.sun.star.uno.XInterface"),
        Err(NoMemory) => Err(NoMemory),
    }
}

pub(super) fn are_right(alloc: Global) -> Result<bool, NoMemory> {
    Ok(are_copied(alloc, "[][]interface/t.X")? && type_is_copied(alloc)?)
}

/// Whether the text is a tag, which then has just its letters, and so has a copy.
fn is_tag(alloc: Global, text: &str) -> Result<bool, NoMemory> {
    match &Tag::read(alloc, text) {
        Ok(tag) => tag_copy(alloc, tag, text),
        Err(TagError::NoMemory) => Err(NoMemory),
        Err(TagError::BadTag) => Ok(false),
    }
}

fn tag_copy(alloc: Global, tag: &Tag, text: &str) -> Result<bool, NoMemory> {
    let copy = tag.copy(alloc)?;
    Ok(copy.as_str() == text && tag.as_bytes() == text.as_bytes())
}

/// A text that is no tag takes no memory.
pub(super) fn are_tags(alloc: Global) -> Result<bool, NoMemory> {
    if is_tag(alloc, "a;b") != Ok(false) {
        return Ok(false);
    }
    is_tag(alloc, "S")
}
