//! The names of files, resolved or refused.
ghost use Rattle.std.specs.List.{AllByRecursion, list_all};
ghost use Rattle.std.specs.Prelude.{◌≡◌, [], Err, IfErr, IfOk, List, Ok, OnOk, map, slice_get, Some, true};
ghost use Rattle.idl_meaning_model.specs.Declarations as model;
ghost use Rattle.idl_meaning_model.specs.FromFiles.{AreOfFiles, has_identifiers, is_spelled_use};
ghost use Rattle.idl_meaning_model.specs.NameFaults.{IsResolved, declared_twice, forward_alone};
ghost use Rattle.idl_meaning_model.specs.Uses.{uses};
ghost use Rattle.idl_names.specs.Collected.{HasNumbers, IsCollected, declared_of};
ghost use Rattle.idl_names.specs.Faults.{AddsFaults, fault_of};
ghost use Rattle.idl_names.specs.Resolving.{IsMadeOf, IsRefused, TellsAll};
ghost use Rattle.idl_model.specs.Trees as tree;
ghost use Rattle.idl_names.specs.Opened.{HasOpened};
ghost use Rattle.idl_names.specs.Telling.{AreRight, Tells, named_of};
ghost use Rattle.idl_trees.specs.Trees.{trees_of};

use crate::collecting::{Collected, collect};
use crate::declaration::Declared;
use crate::error::NameError;
use crate::fault::{Fault, NameFault, earliest};
use crate::forward::add_forward_alone;
use crate::opening::{Opened, open_others};
use crate::paths::Paths;
use crate::refused::add_refused_types;
use crate::tables::{built_in_marks, entity_marks, interface_marks, least_places, value_marks};
use crate::telling::{Marked, Told, tell_all};
use crate::twice::add_declared_twice;
use idl_trees::{Place, Tree};
use std::alloc::Global;
use uno_base::NoMemory;

/// What files declare, and what each name that they use stands for: the place of its first token, and the number of a path.
#[derive(Drop)]
pub struct Resolved<'a> {
    pub paths: Paths<'a>,
    pub declared: Vec<Declared<'a>>,
    pub names: Vec<(Place, u32)>,
    pub opened: Opened,
}

/// Tells what each name in these files stands for, or the fault that comes first of all.
pub fn resolve<'a>(alloc: Global, trees: &'a [Tree]) -> Result<Resolved<'a>, NameError>
    requires { AreOfFiles (trees_of trees.now) }
    ensures resolved { IfOk result (λ resolved. IsResolved (trees_of trees.now) (Ok (named_of resolved.paths resolved.names.items))) }
    ensures right { IfOk result (λ resolved. AreRight resolved.paths resolved.names.items) }
    ensures made { IfOk result (λ resolved. IsMadeOf (model.declarations (trees_of trees.now)) resolved) }
    ensures refused { IfErr result (IsRefused (trees_of trees.now)) }
{
    let collected = collect(alloc, trees)?;
    let Collected {
        mut paths,
        declared,
    } = collected;
    let opened = open_others(alloc, &mut paths, declared.as_slice())?;
    let marked = marks(alloc, &paths, declared.as_slice(), &opened)?;
    let told = tell_names(alloc, &paths, declared.as_slice(), &opened, &marked)?;
    if let Some(fault) = earliest(told.faults.as_slice()) {
        return Err(refusal(fault));
    }
    Ok(Resolved {
        paths,
        declared,
        names: told.names,
        opened,
    })
}

fn refusal(fault: Fault) -> NameError
    ensures { (plain : List tree.Tree) → IsResolved plain (Err (fault_of fault)) → IsRefused plain result }
{
    match fault.why {
        NameFault::Unknown => NameError::Unknown(fault.place),
        NameFault::Twice(first) => NameError::Twice(fault.place, first),
        NameFault::FloatRefused => NameError::FloatRefused(fault.place),
    }
}

/// Marks which numbers are those of entities, and which those of constants and items.
fn marks(
    alloc: Global,
    paths: &Paths<'_>,
    all: &[Declared<'_>],
    opened: &Opened,
) -> Result<Marked, NoMemory>
    requires numbers { AllByRecursion (HasNumbers paths.now) all.now }
    requires opened { HasOpened paths.now (map (declared_of paths.now) all.now) opened.now }
    requires identifiers { list_all has_identifiers (map (declared_of paths.now) all.now) ≡ true }
    ensures { IfOk result (λ marked. Tells paths.now marked (map (declared_of paths.now) all.now)) }
{
    let count = paths.len();
    let entities = entity_marks(alloc, count, opened, all)?;
    let values = value_marks(alloc, count, opened)?;
    Ok(Marked { entities, values })
}

/// Tells all names that these declarations use, with all faults.
fn tell_names<'a>(
    alloc: Global,
    paths: &Paths<'a>,
    all: &[Declared<'a>],
    opened: &Opened,
    marked: &Marked,
) -> Result<Told, NoMemory>
    requires numbers { AllByRecursion (HasNumbers paths.now) all.now }
    requires opened { HasOpened paths.now (map (declared_of paths.now) all.now) opened.now }
    requires identifiers { list_all has_identifiers (map (declared_of paths.now) all.now) ≡ true }
    requires outermost { slice_get paths.now 0 ≡ Some [] }
    requires spelled { list_all is_spelled_use (uses (map (declared_of paths.now) all.now)) ≡ true }
    requires marked { Tells paths.now marked.now (map (declared_of paths.now) all.now) }
    ensures { IfOk result (TellsAll paths.now (map (declared_of paths.now) all.now)) }
{
    let mut told = Told {
        names: Vec::new(alloc),
        faults: Vec::new(alloc),
    };
    tell_all(alloc, paths, marked, all, &mut told)?;
    add_alone(alloc, paths, all, opened, &mut told.faults)?;
    add_twice(alloc, paths, all, opened, &mut told.faults)?;
    add_refused_types(alloc, &mut told.faults, all)?;
    Ok(told)
}

fn add_alone(
    alloc: Global,
    paths: &Paths<'_>,
    all: &[Declared<'_>],
    opened: &Opened,
    faults: &mut Vec<Fault>,
) -> Result<(), NoMemory>
    requires numbers { AllByRecursion (HasNumbers paths.now) all.now }
    requires opened { HasOpened paths.now (map (declared_of paths.now) all.now) opened.now }
    requires identifiers { list_all has_identifiers (map (declared_of paths.now) all.now) ≡ true }
    ensures { OnOk result (AddsFaults faults.old.items (forward_alone (map (declared_of paths.now) all.now)) faults.new.items) }
{
    let interfaces = interface_marks(alloc, paths.len(), opened, all)?;
    add_forward_alone(faults, interfaces.as_slice(), all)?;
    Ok(())
}

fn add_twice(
    alloc: Global,
    paths: &Paths<'_>,
    all: &[Declared<'_>],
    opened: &Opened,
    faults: &mut Vec<Fault>,
) -> Result<(), NoMemory>
    requires numbers { AllByRecursion (HasNumbers paths.now) all.now }
    requires opened { HasOpened paths.now (map (declared_of paths.now) all.now) opened.now }
    requires identifiers { list_all has_identifiers (map (declared_of paths.now) all.now) ≡ true }
    ensures { OnOk result (AddsFaults faults.old.items (declared_twice (map (declared_of paths.now) all.now)) faults.new.items) }
{
    let count = paths.len();
    let built_in = built_in_marks(alloc, count, opened)?;
    let leasts = least_places(alloc, count, all)?;
    add_declared_twice(faults, built_in.as_slice(), leasts.as_slice(), all)?;
    Ok(())
}
