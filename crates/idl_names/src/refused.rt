//! Types that are refused: a fault for each place where one is written.
ghost use Rattle.std.specs.List.{flat_map};
ghost use Rattle.std.specs.Prelude.{◌≡◌, List, OnOk, map};
ghost use Rattle.idl_meaning_model.specs.NameFaults as model;
ghost use Rattle.idl_meaning_model.specs.Uses.{floats, types_in};
ghost use Rattle.idl_names.specs.Collected.{declared_of};
ghost use Rattle.idl_names.specs.Faults.{AddsFaults, fault_of, refused_at};
ghost use Rattle.idl_names.specs.Floats.{places_of};
ghost use Rattle.idl_names.specs.Paths.{Parts};
ghost use Rattle.idl_trees.specs.Names.{place_of};
ghost use Rattle.idl_trees.specs.Trees.{declaration_of};

use crate::declaration::Declared;
use crate::fault::{Fault, NameFault};
use crate::floats::floats_in;
use idl_trees::{Declaration, Place};
use std::alloc::Global;
use uno_base::NoMemory;

/// Adds a fault for each place where one of these declarations writes `float` or `double`.
pub fn add_refused_types(
    alloc: Global,
    faults: &mut Vec<Fault>,
    all: &[Declared<'_>],
) -> Result<(), NoMemory>
    ensures { (paths : List Parts) → OnOk result (AddsFaults faults.old.items (model.refused_types (map (declared_of paths) all.now)) faults.new.items) }
{
    for declared in all {
        add_refused_in(alloc, faults, declared.body)?;
    }
    Ok(())
}

fn add_refused_in(
    alloc: Global,
    faults: &mut Vec<Fault>,
    body: &Declaration,
) -> Result<(), NoMemory>
    ensures { OnOk result (AddsFaults faults.old.items (map refused_at (flat_map floats (types_in (declaration_of body.now)))) faults.new.items) }
{
    let places = floats_in(alloc, body)?;
    add_refused(faults, places.as_slice())?;
    Ok(())
}

fn add_refused(faults: &mut Vec<Fault>, places: &[Place]) -> Result<(), NoMemory>
    ensures { OnOk result (AddsFaults faults.old.items (map refused_at (places_of places.now)) faults.new.items) }
{
    for place in places {
        faults.push(refused_fault(place))?;
    }
    Ok(())
}

fn refused_fault(place: &Place) -> Fault
    ensures { fault_of result ≡ refused_at (place_of place.now) }
{
    Fault {
        place: *place,
        why: NameFault::FloatRefused,
    }
}
