//! That the caches do what they are said to do where memory is ample, and leave what they say where it is not.
use crate::judging::see;
use std::alloc::Global;
use uno_base::NoMemory;
use uno_types::Text;
use urp_cache::{Known, ReadCache, ReadCaches, SendCache, SendCaches};

/// Whether a use of the name that is this number takes this slot, and finds it old or new there.
fn takes(cache: &mut SendCache, number: u16, slot: u16, known: Known) -> bool {
    cache.slot_of(&number.to_be_bytes()) == Ok((slot, known))
}

/// Whether the names 0 to 255 take these slots in one cache, four names after them the slots of those used least recently,
/// and a name of them the first slot in each other cache.
fn take_slots(caches: &mut SendCaches) -> bool {
    for number in 0..256u16 {
        if !takes(&mut caches.tids, number, number, Known::New) {
            return false;
        }
    }
    takes(&mut caches.tids, 0, 0, Known::Old)
        && takes(&mut caches.tids, 256, 1, Known::New)
        && takes(&mut caches.tids, 1, 2, Known::New)
        && takes(&mut caches.tids, 0, 0, Known::Old)
        && takes(&mut caches.types, 1, 0, Known::New)
        && takes(&mut caches.oids, 2, 0, Known::New)
}

/// Whether a slot means this name, or nothing.
pub(crate) fn means(cache: &ReadCache<Text>, slot: u8, name: Option<&str>) -> bool {
    let meaning = cache.meaning(slot.into());
    let Some(name) = name else {
        return meaning.is_none();
    };
    match meaning {
        Some(meaning) => meaning.as_str() == name,
        None => false,
    }
}

/// Slots, and names that are announced there, some of them twice.
const ANNOUNCED: &[(u8, &str)] = &[(3, "a"), (255, "b"), (0, "c"), (5, ""), (255, "d")];

/// What slots then mean.
const MEANT: &[(u8, Option<&str>)] = &[
    (3, Some("a")),
    (255, Some("d")),
    (0, Some("c")),
    (5, Some("")),
    (1, None),
    (4, None),
    (254, None),
];

/// Announces names in a cache, and tells whether slots mean them there, and nothing in the other caches.
fn are_meant(alloc: Global, caches: &mut ReadCaches) -> Result<bool, NoMemory> {
    for (slot, name) in ANNOUNCED {
        let name = Text::of(alloc, *name)?;
        caches.oids.announce((*slot).into(), name);
    }
    for (slot, name) in MEANT {
        if !means(&caches.oids, *slot, *name) {
            return Ok(false);
        }
    }
    Ok(means(&caches.types, 3, None) && caches.tids.meaning(3).is_none())
}

#[test]
fn the_least_recent_gives_up_its_slot_and_slots_mean_what_was_announced_last(rt: HostRuntime) {
    let mut sent = SendCaches::new(rt.alloc()).expect(&rt, "no memory");
    let right = take_slots(&mut sent);
    drop(sent);
    see(&rt, right, "what is sent");
    let mut read = ReadCaches::new(rt.alloc()).expect(&rt, "no memory");
    let right = are_meant(rt.alloc(), &mut read);
    drop(read);
    see(&rt, right == Ok(true), "what is read");
}
