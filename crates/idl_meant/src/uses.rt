//! Which names declarations use to name entities.
ghost use Rattle.std.specs.Cmp.Lexicographic.{pointwise};
ghost use Rattle.std.specs.List.{flat_map};
ghost use Rattle.std.specs.Prelude.{◌≡◌, ◌==◌, ◌&&◌, ◌∷◌, [], IfOk, List, OnOk, map, slice_get, true};
ghost use Rattle.std.specs.Str.{bytes_eq};
ghost use Rattle.idl_meaning_model.specs.FromFiles.{are_apart};
ghost use Rattle.idl_meant.specs.Using.{AddsUses, AreHeld, AreUses, IsUsed, entity_use, entity_uses, numbered_from, use_at, use_place};
ghost use Rattle.idl_meant.specs.Matching.{same_path, same_truth};
ghost use Rattle.idl_model.specs.Places as plain;
ghost use Rattle.idl_names.specs.Used.{all_used_of, used_of};
ghost use Rattle.idl_names.specs.declared.declaration.Declared as names;
ghost use Rattle.idl_trees.specs.Names.{path_of, place_of};
ghost use Rattle.idl_values.specs.Told.{number_at, number_told};

use idl_names::{Declared, Used, used_in};
use idl_trees::{Path, Place};
use idl_values::{Told, places_told};
use std::alloc::Global;
use uno_base::NoMemory;
use uno_entities::Name;

/// A path, and the number of the path of the modules in which a declaration uses it.
#[derive(Clone, Copy)]
pub(crate) struct Use<'a> {
    pub modules: u32,
    pub path: &'a Path,
}

/// All uses, and for each place the number of the one there.
#[derive(Drop)]
pub(crate) struct Uses<'a> {
    pub places: Told,
    pub all: Vec<Use<'a>>,
}

impl<'a> Uses<'a> {
    /// Whether a declaration in these modules uses the path.
    pub(crate) fn hold(&self, modules: u32, path: &Path) -> bool
        ensures used { (all : List names.Declared) → AreHeld all self.now → result ≡ true → IsUsed all modules (path_of path.now) }
        ensures whole { (all : List names.Declared) → AreHeld all self.now → are_apart (map use_place (flat_map entity_uses all)) ≡ true → IsUsed all modules (path_of path.now) → result ≡ true }
    {
        match self.at(path.place) {
            Some(found) => is_use(&found, modules, path),
            None => false,
        }
    }

    fn at(&self, place: Place) -> Option<Use<'a>>
        ensures { result ≡ use_at self.now (place_of place) }
    {
        match self.places.at(place) {
            Some(number) => numbered_use(self.all.as_slice(), number),
            None => None,
        }
    }
}

fn numbered_use<'a>(uses: &[Use<'a>], number: u32) -> Option<Use<'a>>
    ensures { result ≡ slice_get uses.now number }
{
    match uses.get(number as usize) {
        Some(found) => Some(*found),
        None => None,
    }
}

fn is_use(found: &Use<'_>, modules: u32, path: &Path) -> bool
    ensures { result ≡ ((found.now.modules == modules) && same_path (path_of found.now.path.now) (path_of path.now)) }
{
    found.modules == modules && is_same(found.path, path)
}

fn is_same(one: &Path, other: &Path) -> bool
    ensures { result ≡ same_path (path_of one.now) (path_of other.now) }
{
    one.place.file == other.place.file
        && one.place.byte == other.place.byte
        && same_truth(one.absolute, other.absolute)
        && are_same(one.parts.as_slice(), other.parts.as_slice())
}

fn same_truth(one: bool, other: bool) -> bool
    ensures { result ≡ same_truth one other }
{
    if one {
        return other;
    }
    !other
}

fn are_same(one: &[Name], other: &[Name]) -> bool
    ensures { result ≡ pointwise bytes_eq one.now other.now }
{
    one == other
}

/// The names of entities that these declarations use.
pub(crate) fn uses_of<'a>(alloc: Global, all: &[Declared<'a>]) -> Result<Uses<'a>, NoMemory>
    ensures { IfOk result (AreHeld all.now) }
{
    let uses = all_uses(alloc, all)?;
    let places = places(alloc, uses.as_slice())?;
    Ok(Uses { places, all: uses })
}

fn all_uses<'a>(alloc: Global, all: &[Declared<'a>]) -> Result<Vec<Use<'a>>, NoMemory>
    ensures { IfOk result (λ uses. AreUses all.now uses.items) }
{
    let mut uses = Vec::new(alloc);
    for declared in all {
        add_uses(alloc, &mut uses, declared)?;
    }
    Ok(uses)
}

fn add_uses<'a>(
    alloc: Global,
    uses: &mut Vec<Use<'a>>,
    declared: &Declared<'a>,
) -> Result<(), NoMemory>
    ensures { OnOk result (AddsUses uses.old.items (entity_uses declared.now) uses.new.items) }
{
    let used = used_in(alloc, declared.body)?;
    add_all(uses, declared.modules, used.as_slice())?;
    Ok(())
}

fn add_all<'a>(uses: &mut Vec<Use<'a>>, modules: u32, used: &[Used<'a>]) -> Result<(), NoMemory>
    ensures { OnOk result (AddsUses uses.old.items (flat_map (entity_use modules) (all_used_of used.now)) uses.new.items) }
{
    for one in used {
        add_use(uses, modules, one)?;
    }
    Ok(())
}

fn add_use<'a>(uses: &mut Vec<Use<'a>>, modules: u32, used: &Used<'a>) -> Result<(), NoMemory>
    ensures { OnOk result (AddsUses uses.old.items (entity_use modules (used_of used.now)) uses.new.items) }
{
    match used {
        Used::Entity(path) => add_path(uses, modules, *path),
        Used::Value(_) => Ok(()),
    }
}

fn add_path<'a>(uses: &mut Vec<Use<'a>>, modules: u32, path: &'a Path) -> Result<(), NoMemory>
    ensures { OnOk result (AddsUses uses.old.items ((modules, path_of path.now) ∷ []) uses.new.items) }
{
    uses.push(Use { modules, path })?;
    Ok(())
}

/// For each place of a use its number among these.
fn places(alloc: Global, uses: &[Use<'_>]) -> Result<Told, NoMemory>
    ensures { IfOk result (λ told. (p : plain.Place) → number_at told.numbers p ≡ number_told (numbered_from 0 uses.now) p) }
{
    let numbered = numbered(alloc, uses)?;
    places_told(alloc, numbered.as_slice())
}

fn numbered(alloc: Global, uses: &[Use<'_>]) -> Result<Vec<(Place, u32)>, NoMemory>
    ensures { IfOk result (λ places. places.items ≡ numbered_from 0 uses.now) }
{
    let mut places = Vec::new(alloc);
    let mut number: u32 = 0;
    for found in uses {
        places.push((found.path.place, number))?;
        let Some(next) = number.checked_add(1) else {
            return Err(NoMemory);
        };
        number = next;
    }
    Ok(places)
}
