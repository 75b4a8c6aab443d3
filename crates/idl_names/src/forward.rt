//! Forward declarations: the interface has to be declared, or built in.
ghost use Rattle.std.specs.List.{AllByRecursion, list_all};
ghost use Rattle.std.specs.Prelude.{◌≡◌, ◌∷◌, [], List, OnOk, map, true};
ghost use Rattle.idl_meaning_model.specs.Declarations as model;
ghost use Rattle.idl_meaning_model.specs.FromFiles.{has_identifiers};
ghost use Rattle.idl_meaning_model.specs.NameFaults.{has_interface};
ghost use Rattle.idl_names.specs.Collected.{HasNumbers, declared_of};
ghost use Rattle.idl_names.specs.Faults.{AddsFaults};
ghost use Rattle.idl_names.specs.Paths.{Parts};
ghost use Rattle.idl_names.specs.Standing.{Answers};
ghost use Rattle.idl_names.specs.Alone.{alone_among};

use crate::declaration::Declared;
use crate::fault::{Fault, NameFault};
use crate::marks::{is_entity, is_marked};
use uno_base::NoMemory;

/// Adds a fault for each forward declaration of an interface that there is not. Marks tell which paths are those of interfaces.
pub(crate) fn add_forward_alone(
    faults: &mut Vec<Fault>,
    interfaces: &[bool],
    all: &[Declared<'_>],
) -> Result<(), NoMemory>
    ensures { (paths : List Parts) (ds : List model.Declared) → Answers paths interfaces.now (has_interface ds) → AllByRecursion (HasNumbers paths) all.now → list_all has_identifiers (map (declared_of paths) all.now) ≡ true → OnOk result (AddsFaults faults.old.items (alone_among ds (map (declared_of paths) all.now)) faults.new.items) }
{
    for declared in all {
        add_alone(faults, interfaces, declared)?;
    }
    Ok(())
}

fn add_alone(
    faults: &mut Vec<Fault>,
    interfaces: &[bool],
    declared: &Declared<'_>,
) -> Result<(), NoMemory>
    ensures { (paths : List Parts) (ds : List model.Declared) → Answers paths interfaces.now (has_interface ds) → HasNumbers paths declared.now → has_identifiers (declared_of paths declared.now) ≡ true → OnOk result (AddsFaults faults.old.items (alone_among ds (declared_of paths declared.now ∷ [])) faults.new.items) }
{
    if is_entity(declared.body) {
        return Ok(());
    }
    if is_marked(interfaces, declared.path) {
        return Ok(());
    }
    faults.push(Fault {
        place: declared.name.place,
        why: NameFault::Unknown,
    })?;
    Ok(())
}
