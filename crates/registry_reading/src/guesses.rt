//! Guesses where the header of a name stands: each is tried, so that nothing rests on it.

use crate::head::Head;
use std::alloc::Global;
use uno_base::NoMemory;

/// What mixes the bytes of a name.
const SPREAD: u64 = 0x9e37_79b9_7f4a_7c15;

const MIX: u64 = 0xff51_afd7_ed55_8ccd;

/// For each slot, of a power of two, the place of a header whose name has this slot, or 0.
#[derive(Drop)]
pub(crate) struct Guesses {
    places: Vec<u32>,
}

impl Guesses {
    pub(crate) fn none(alloc: Global) -> Guesses {
        Guesses {
            places: Vec::new(alloc),
        }
    }

    /// Four slots for each header.
    pub(crate) fn of(alloc: Global, heads: &[Head<'_>]) -> Result<Guesses, NoMemory> {
        let slots = heads.len().saturating_mul(4).checked_next_power_of_two();
        let mut places = vec![in alloc; 0u32; slots.unwrap_or(0)]?;
        let mut place = 0u32;
        for head in heads {
            put(places.as_mut_slice(), head.name, place);
            place = place.saturating_add(1);
        }
        Ok(Guesses { places })
    }

    /// Where the header of this name may stand.
    pub(crate) fn place(&self, name: &str) -> Option<usize> {
        let place = self.places.get(slot(name.as_bytes(), self.places.len()))?;
        Some(*place as usize)
    }
}

fn put(places: &mut [u32], name: &str, place: u32) {
    let slot = slot(name.as_bytes(), places.len());
    if slot < places.len() {
        places[slot] = place;
    }
}

/// The slot of a name among so many: by its last 16 bytes.
fn slot(name: &[u8], slots: usize) -> usize {
    let Some((front, last)) = name.split_last_chunk::<8>() else {
        return 0;
    };
    let both = u64::from_le_bytes(*last) ^ last_word(front).wrapping_mul(SPREAD);
    let mixed = (both ^ (both >> 32)).wrapping_mul(MIX);
    (mixed >> 32) as usize & slots.wrapping_sub(1)
}

/// The last eight bytes as a number.
fn last_word(bytes: &[u8]) -> u64 {
    match bytes.split_last_chunk::<8>() {
        Some((_, last)) => u64::from_le_bytes(*last),
        None => 0,
    }
}
