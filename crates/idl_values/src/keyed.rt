//! Numbers beside keys of places.
ghost use Rattle.std.specs.Prelude.{◌≡◌, ◌==◌, ◌&&◌, IfOk, slice_get, true};
ghost use Rattle.idl_model.specs.Places as plain;
ghost use Rattle.idl_trees.specs.Names.{place_of};
ghost use Rattle.idl_values.specs.Keys.{AreKeys, do_rise, has_key, number_beside};

use idl_trees::Place;
use std::alloc::Global;
use uno_base::NoMemory;

/// One more than the greatest number of a byte.
const BYTES: u64 = 4_294_967_296;

/// Keys of places, each below those behind it, and the number of each.
#[derive(Drop)]
pub(crate) struct Keyed {
    pub keys: Vec<u64>,
    pub numbers: Vec<u32>,
    pub ghost rise: { do_rise keys.items ≡ true },
}

impl Keyed {
    /// The number at the key of a place.
    pub(crate) fn at(&self, place: Place) -> Option<u32>
        ensures { result ≡ number_beside self.now.keys.items self.now.numbers.items (place_of place) }
    {
        let key = key_of(place.file, place.byte);
        match self.keys.as_slice().binary_search(&key) {
            Ok(index) => self.number(index),
            Err(_) => None,
        }
    }

    fn number(&self, index: usize) -> Option<u32>
        ensures { result ≡ slice_get self.now.numbers.items index }
    {
        match self.numbers.get(index) {
            Some(number) => Some(*number),
            None => None,
        }
    }
}

/// A place as one number.
fn key_of(file: u32, byte: u32) -> u64
    ensures { (p : plain.Place) → has_key p result ≡ ((file == p.file) && (byte == p.byte)) }
{
    file as u64 * BYTES + byte as u64
}

/// The keys of the places of these names.
pub(crate) fn keys_of(alloc: Global, names: &[(Place, u32)]) -> Result<Vec<u64>, NoMemory>
    ensures { IfOk result (λ keys. AreKeys names.now keys.items) }
{
    let mut keys = Vec::with_capacity(alloc, names.len())?;
    for name in names {
        keys.push(key_of(name.0.file, name.0.byte))?;
    }
    Ok(keys)
}

/// Whether each is below those behind it; the greatest number of all is not looked at.
pub(crate) fn do_rise(keys: &[u64]) -> bool
    ensures { result ≡ true → do_rise keys.now ≡ true }
{
    let mut low = 0;
    for key in keys {
        if *key < low {
            return false;
        }
        if *key == u64::MAX {
            return false;
        }
        low = *key + 1;
    }
    true
}
