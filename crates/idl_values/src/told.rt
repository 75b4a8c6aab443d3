//! What the names that are used stand for, by the places where they are used.
ghost use Rattle.std.specs.Prelude.{◌≡◌, IfOk, None, OnOk, Some, cond, map, true};
ghost use Rattle.idl_model.specs.Places as plain;
ghost use Rattle.idl_model.specs.Places.{is_at};
ghost use Rattle.idl_trees.specs.Names.{path_of, place_of};
ghost use Rattle.idl_values.specs.Keys.{AreKeys, do_rise};
ghost use Rattle.idl_values.specs.Places.{known_by};
ghost use Rattle.idl_values.specs.Told.{mapped_at, number_at, number_told};

use crate::keyed::{Keyed, do_rise, keys_of};
use idl_trees::{Path, Place};
use std::alloc::Global;
use std::collections::BTreeMap;
use uno_base::NoMemory;

/// Numbers of paths, by the files and bytes of places.
#[derive(Drop)]
pub struct Told {
    numbers: Numbers,
}

/// Numbers beside the keys of their places, where these rise, as those of names do that are told in their order; or else in a map.
#[derive(Drop)]
enum Numbers {
    Keyed(Keyed),
    Mapped(BTreeMap<(u32, u32), u32>),
}

/// The numbers that are told at these places.
pub fn places_told(alloc: Global, names: &[(Place, u32)]) -> Result<Told, NoMemory>
    ensures { IfOk result (λ told. (p : plain.Place) → number_at told.numbers p ≡ number_told names.now p) }
{
    let keys = keys_of(alloc, names)?;
    if do_rise(keys.as_slice()) {
        return told_by_keys(alloc, names, keys);
    }
    told_by_map(alloc, names)
}

// ---- by keys

fn told_by_keys(alloc: Global, names: &[(Place, u32)], keys: Vec<u64>) -> Result<Told, NoMemory>
    requires keys { AreKeys names.now keys.items }
    requires rise { do_rise keys.items ≡ true }
    ensures { IfOk result (λ told. (p : plain.Place) → number_at told.numbers p ≡ number_told names.now p) }
{
    let numbers = numbers_of(alloc, names)?;
    Ok(Told {
        numbers: Numbers::Keyed(Keyed { keys, numbers }),
    })
}

fn numbers_of(alloc: Global, names: &[(Place, u32)]) -> Result<Vec<u32>, NoMemory>
    ensures { IfOk result (λ numbers. numbers.items ≡ map (λ name. name.1) names.now) }
{
    let mut numbers = Vec::with_capacity(alloc, names.len())?;
    for name in names {
        numbers.push(name.1)?;
    }
    Ok(numbers)
}

// ---- by a map

fn told_by_map(alloc: Global, names: &[(Place, u32)]) -> Result<Told, NoMemory>
    ensures { IfOk result (λ told. (p : plain.Place) → number_at told.numbers p ≡ number_told names.now p) }
{
    let mut numbers = BTreeMap::new(alloc);
    for name in names {
        note(&mut numbers, name.0, name.1)?;
    }
    Ok(Told {
        numbers: Numbers::Mapped(numbers),
    })
}

fn note(numbers: &mut BTreeMap<(u32, u32), u32>, place: Place, number: u32) -> Result<(), NoMemory>
    ensures { OnOk result ((p : plain.Place) → mapped_at numbers.new p ≡ cond (is_at (place_of place) p) (Some number) (mapped_at numbers.old p)) }
{
    numbers.insert((place.file, place.byte), number)?;
    Ok(())
}

impl Told {
    /// The number that is told at a place.
    pub fn at(&self, place: Place) -> Option<u32>
        ensures { result ≡ number_at self.now.numbers (place_of place) }
    {
        match &self.numbers {
            Numbers::Keyed(keyed) => keyed.at(place),
            Numbers::Mapped(numbers) => numbers.get(&(place.file, place.byte)).copied(),
        }
    }
}

/// What a table has for the number of a path.
pub(crate) fn known(told: &Told, table: &[Option<u32>], path: &Path) -> Option<u32>
    ensures { result ≡ known_by (number_at told.now.numbers) table.now (path_of path.now) }
{
    let Some(number) = told.at(path.place) else {
        return None;
    };
    match table.get(number as usize) {
        Some(place) => *place,
        None => None,
    }
}
