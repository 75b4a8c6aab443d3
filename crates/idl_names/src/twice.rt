//! Entities that are built in, or declared at a place before.
ghost use Rattle.std.specs.List.{AllByRecursion, list_all};
ghost use Rattle.std.specs.Prelude.{◌≡◌, ◌∷◌, [], List, None, OnOk, get_or, map, option_map, true};
ghost use Rattle.idl_meaning_model.specs.Declarations as model;
ghost use Rattle.idl_meaning_model.specs.FromFiles.{has_identifiers};
ghost use Rattle.idl_meaning_model.specs.Scopes.{is_built_in};
ghost use Rattle.idl_names.specs.Alone.{HasLeasts, if_before, twice_among};
ghost use Rattle.idl_names.specs.Collected.{HasNumbers, declared_of};
ghost use Rattle.idl_names.specs.Faults.{AddsFaults};
ghost use Rattle.idl_names.specs.Paths.{Parts};
ghost use Rattle.idl_names.specs.Standing.{Answers};
ghost use Rattle.idl_names.specs.Tables.{place_at};
ghost use Rattle.idl_trees.specs.Names.{place_of};

use crate::declaration::Declared;
use crate::fault::{Fault, NameFault, comes_before};
use crate::marks::{is_entity, is_marked};
use idl_trees::Place;
use uno_base::NoMemory;

/// Adds a fault for each entity that is built in, or declared at a place before. Marks tell which paths are those of what is built in, and
/// places where the entity of each path is declared first.
pub(crate) fn add_declared_twice(
    faults: &mut Vec<Fault>,
    built_in: &[bool],
    leasts: &[Option<Place>],
    all: &[Declared<'_>],
) -> Result<(), NoMemory>
    ensures { (paths : List Parts) (ds : List model.Declared) → Answers paths built_in.now is_built_in → HasLeasts paths leasts.now ds → AllByRecursion (HasNumbers paths) all.now → list_all has_identifiers (map (declared_of paths) all.now) ≡ true → OnOk result (AddsFaults faults.old.items (twice_among ds (map (declared_of paths) all.now)) faults.new.items) }
{
    for declared in all {
        add_twice(faults, built_in, leasts, declared)?;
    }
    Ok(())
}

fn add_twice(
    faults: &mut Vec<Fault>,
    built_in: &[bool],
    leasts: &[Option<Place>],
    declared: &Declared<'_>,
) -> Result<(), NoMemory>
    ensures { (paths : List Parts) (ds : List model.Declared) → Answers paths built_in.now is_built_in → HasLeasts paths leasts.now ds → HasNumbers paths declared.now → has_identifiers (declared_of paths declared.now) ≡ true → OnOk result (AddsFaults faults.old.items (twice_among ds (declared_of paths declared.now ∷ [])) faults.new.items) }
{
    if !is_entity(declared.body) {
        return Ok(());
    }
    if is_marked(built_in, declared.path) {
        faults.push(Fault {
            place: declared.name.place,
            why: NameFault::Twice(None),
        })?;
        return Ok(());
    }
    let Some(first) = noted_before(leasts, declared.path, declared.name.place) else {
        return Ok(());
    };
    faults.push(Fault {
        place: declared.name.place,
        why: NameFault::Twice(Some(first)),
    })?;
    Ok(())
}

/// The place that is noted for a number, if it comes before this one.
fn noted_before(leasts: &[Option<Place>], number: u32, place: Place) -> Option<Place>
    ensures { option_map place_of result ≡ if_before (place_of place) (place_at leasts.now number) }
{
    let Some(first) = noted(leasts, number) else {
        return None;
    };
    if !comes_before(first, place) {
        return None;
    }
    Some(first)
}

fn noted(leasts: &[Option<Place>], number: u32) -> Option<Place>
    ensures { result ≡ get_or leasts.now number None }
{
    match leasts.get(number as usize) {
        Some(first) => *first,
        None => None,
    }
}
