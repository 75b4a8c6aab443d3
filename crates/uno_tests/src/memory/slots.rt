//! Caches.
use crate::slots::means;
use std::alloc::Global;
use uno_base::NoMemory;
use uno_types::Text;
use urp_cache::{Known, ReadCache, SendCache};

/// Whether a name is held at this slot.
fn is_held(cache: &mut SendCache, name: &[u8], slot: u16) -> bool {
    cache.slot_of(name) == Ok((slot, Known::Old))
}

/// Whether the name `b` is new, or there is no memory for it.
fn is_new(cache: &mut SendCache) -> bool {
    matches!(cache.slot_of(b"b"), Ok((_, Known::New)) | Err(NoMemory))
}

/// Whether the name `b` takes this slot and is held there. Where there is no memory for it, it is still new.
fn is_taken(cache: &mut SendCache, slot: u16) -> bool {
    match cache.slot_of(b"b") {
        Ok(answer) => answer == (slot, Known::New) && is_held(cache, b"b", slot),
        Err(NoMemory) => is_new(cache),
    }
}

/// Whether the names `a` and `b` take slots, and the first is still held behind the second.
fn are_taken(cache: &mut SendCache) -> bool {
    match cache.slot_of(b"a") {
        Ok(answer) => { answer == (0, Known::New) && is_taken(cache, 1) && is_held(cache, b"a", 0) }
        Err(NoMemory) => is_taken(cache, 0),
    }
}

pub(super) fn sends(alloc: Global) -> Result<bool, NoMemory> {
    let mut cache = SendCache::new(alloc)?;
    Ok(are_taken(&mut cache))
}

/// Announces a name at the slot 3, and tells whether the slot then means it.
fn announced(alloc: Global, cache: &mut ReadCache<Text>, name: &str) -> Result<bool, NoMemory> {
    let text = Text::of(alloc, name)?;
    cache.announce(3, text);
    Ok(means(cache, 3, Some(name)))
}

/// Whether the slot means the name that was announced last, of those for which there was memory, and another slot nothing.
fn are_meant(alloc: Global, cache: &mut ReadCache<Text>) -> bool {
    let first = announced(alloc, cache, "a");
    let second = announced(alloc, cache, "b");
    if second == Err(NoMemory) && means(cache, 3, Some("a")) != first.is_ok() {
        return false;
    }
    first != Ok(false) && second != Ok(false) && means(cache, 4, None)
}

pub(super) fn reads(alloc: Global) -> Result<bool, NoMemory> {
    let mut cache = ReadCache::new(alloc)?;
    Ok(are_meant(alloc, &mut cache))
}
