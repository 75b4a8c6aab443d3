//! What each name that is used stands for, and the names that stand for nothing.
ghost use Rattle.std.specs.List.{AllByRecursion, list_all};
ghost use Rattle.std.specs.Prelude.{◌≡◌, [], List, OnOk, map, slice_get, Some, true};
ghost use Rattle.idl_meaning_model.specs.Declarations as model;
ghost use Rattle.idl_meaning_model.specs.Declarations.{scope_of};
ghost use Rattle.idl_meaning_model.specs.FromFiles.{are_identifiers, has_identifiers, is_spelled_use};
ghost use Rattle.idl_meaning_model.specs.Uses.{path_of, used_meant, uses, uses_of};
ghost use Rattle.idl_names.specs.Collected.{HasNumbers, declared_of};
ghost use Rattle.idl_names.specs.Standing.{Finds};
ghost use Rattle.idl_names.specs.Telling.{Tells, TellsOne, TellsUses, uses_there};
ghost use Rattle.idl_names.specs.Used.{used_of};
ghost use Rattle.idl_trees.specs.Names as plain;

use crate::declaration::Declared;
use crate::fault::{Fault, NameFault};
use crate::lookup::{named, value_named};
use crate::paths::Paths;
use crate::used::{Used, used_in};
use idl_trees::Place;
use std::alloc::Global;
use uno_base::NoMemory;

/// Which numbers of paths are those of entities, and which those of constants and items.
#[derive(Drop)]
pub(crate) struct Marked {
    pub entities: Vec<bool>,
    pub values: Vec<bool>,
}

/// Names, each at its place with the number of the path for which it stands, and the faults of those that stand for nothing.
#[derive(Drop)]
pub(crate) struct Told {
    pub names: Vec<(Place, u32)>,
    pub faults: Vec<Fault>,
}

/// Tells the names that these declarations use.
pub(crate) fn tell_all<'a>(
    alloc: Global,
    paths: &Paths<'a>,
    marked: &Marked,
    all: &[Declared<'a>],
    told: &mut Told,
) -> Result<(), NoMemory>
    requires numbers { AllByRecursion (HasNumbers paths.now) all.now }
    requires outermost { slice_get paths.now 0 ≡ Some [] }
    ensures { (ds : List model.Declared) → Tells paths.now marked.now ds → list_all has_identifiers (map (declared_of paths.now) all.now) ≡ true → list_all is_spelled_use (uses (map (declared_of paths.now) all.now)) ≡ true → OnOk result (TellsUses paths.now ds told.old (uses (map (declared_of paths.now) all.now)) told.new) }
{
    for declared in all {
        tell_in(alloc, paths, marked, declared, told)?;
    }
    Ok(())
}

fn tell_in<'a>(
    alloc: Global,
    paths: &Paths<'a>,
    marked: &Marked,
    declared: &Declared<'a>,
    told: &mut Told,
) -> Result<(), NoMemory>
    requires numbers { HasNumbers paths.now declared.now }
    requires outermost { slice_get paths.now 0 ≡ Some [] }
    ensures { (ds : List model.Declared) → Tells paths.now marked.now ds → has_identifiers (declared_of paths.now declared.now) ≡ true → list_all is_spelled_use (uses_of (declared_of paths.now declared.now)) ≡ true → OnOk result (TellsUses paths.now ds told.old (uses_of (declared_of paths.now declared.now)) told.new) }
{
    let used = used_in(alloc, declared.body)?;
    tell_used(paths, marked, declared, used.as_slice(), told)?;
    Ok(())
}

fn tell_used<'a>(
    paths: &Paths<'a>,
    marked: &Marked,
    declared: &Declared<'a>,
    all: &[Used<'a>],
    told: &mut Told,
) -> Result<(), NoMemory>
    requires numbers { HasNumbers paths.now declared.now }
    requires outermost { slice_get paths.now 0 ≡ Some [] }
    ensures { (ds : List model.Declared) → Tells paths.now marked.now ds → has_identifiers (declared_of paths.now declared.now) ≡ true → list_all is_spelled_use (uses_there (scope_of (declared_of paths.now declared.now)) all.now) ≡ true → OnOk result (TellsUses paths.now ds told.old (uses_there (scope_of (declared_of paths.now declared.now)) all.now) told.new) }
{
    for used in all {
        tell(
            told,
            place_of(used),
            stands_for(paths, marked, declared, used),
        )?;
    }
    Ok(())
}

fn tell(told: &mut Told, place: Place, found: Option<u32>) -> Result<(), NoMemory>
    ensures { OnOk result (TellsOne told.old place found told.new) }
{
    match found {
        Some(number) => {
            told.names.push((place, number))?;
            Ok(())
        }
        None => {
            told.faults.push(Fault {
                place,
                why: NameFault::Unknown,
            })?;
            Ok(())
        }
    }
}

fn place_of(used: &Used<'_>) -> Place
    ensures { plain.place_of result ≡ (path_of (used_of used.now)).place }
{
    match used {
        Used::Entity(path) => path.place,
        Used::Value(path) => path.place,
    }
}

/// What a name stands for, by the number of its path.
fn stands_for<'a>(
    paths: &Paths<'a>,
    marked: &Marked,
    declared: &Declared<'a>,
    used: &Used<'a>,
) -> Option<u32>
    requires numbers { HasNumbers paths.now declared.now }
    requires outermost { slice_get paths.now 0 ≡ Some [] }
    ensures { (ds : List model.Declared) → Tells paths.now marked.now ds → has_identifiers (declared_of paths.now declared.now) ≡ true → are_identifiers (path_of (used_of used.now)).parts ≡ true → Finds paths.now result (used_meant ds (scope_of (declared_of paths.now declared.now)) (used_of used.now)) }
{
    match used {
        Used::Entity(path) => named(paths, marked.entities.as_slice(), declared.modules, path),
        Used::Value(path) => value_named(paths, marked.values.as_slice(), declared, path),
    }
}
