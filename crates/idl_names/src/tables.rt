//! Tables by number of path: what is built in, entities, interfaces, constants and items, and where entities are declared first.
ghost use Rattle.std.specs.List.{AllByRecursion, list_any};
ghost use Rattle.std.specs.Prelude.{◌≡◌, ◌<◌, ◌||◌, IfOk, None, false, replicate};
ghost use Rattle.idl_names.specs.Tables.{MarksOf, PlacesOf, is_among, is_entity_at, is_interface_at};

use crate::declaration::Declared;
use crate::least::note_entities;
use crate::marks::{mark_entities, mark_interfaces, mark_numbers};
use crate::opening::Opened;
use idl_trees::Place;
use std::alloc::Global;
use uno_base::NoMemory;

/// What is built in.
pub(crate) fn built_in_marks(
    alloc: Global,
    count: usize,
    opened: &Opened,
) -> Result<Vec<bool>, NoMemory>
    requires interfaces { AllByRecursion (λ n. n < count) opened.now.interfaces.items }
    requires exceptions { AllByRecursion (λ n. n < count) opened.now.exceptions.items }
    ensures { IfOk result (λ marks. MarksOf count (λ n. is_among opened.now.interfaces.items n || is_among opened.now.exceptions.items n) marks.items) }
{
    let mut marks = no_marks(alloc, count)?;
    mark_numbers(&mut marks, opened.interfaces.as_slice());
    mark_numbers(&mut marks, opened.exceptions.as_slice());
    Ok(marks)
}

/// Entities, built in or declared.
pub(crate) fn entity_marks(
    alloc: Global,
    count: usize,
    opened: &Opened,
    all: &[Declared<'_>],
) -> Result<Vec<bool>, NoMemory>
    requires interfaces { AllByRecursion (λ n. n < count) opened.now.interfaces.items }
    requires exceptions { AllByRecursion (λ n. n < count) opened.now.exceptions.items }
    requires declared { AllByRecursion (λ d. d.path < count) all.now }
    ensures { IfOk result (λ marks. MarksOf count (λ n. (is_among opened.now.interfaces.items n || is_among opened.now.exceptions.items n) || list_any (is_entity_at n) all.now) marks.items) }
{
    let mut marks = built_in_marks(alloc, count, opened)?;
    mark_entities(&mut marks, all);
    Ok(marks)
}

/// Interfaces, built in or declared.
pub(crate) fn interface_marks(
    alloc: Global,
    count: usize,
    opened: &Opened,
    all: &[Declared<'_>],
) -> Result<Vec<bool>, NoMemory>
    requires interfaces { AllByRecursion (λ n. n < count) opened.now.interfaces.items }
    requires declared { AllByRecursion (λ d. d.path < count) all.now }
    ensures { IfOk result (λ marks. MarksOf count (λ n. is_among opened.now.interfaces.items n || list_any (is_interface_at n) all.now) marks.items) }
{
    let mut marks = no_marks(alloc, count)?;
    mark_numbers(&mut marks, opened.interfaces.as_slice());
    mark_interfaces(&mut marks, all);
    Ok(marks)
}

/// Constants and items.
pub(crate) fn value_marks(
    alloc: Global,
    count: usize,
    opened: &Opened,
) -> Result<Vec<bool>, NoMemory>
    requires { AllByRecursion (λ n. n < count) opened.now.values.items }
    ensures { IfOk result (λ marks. MarksOf count (is_among opened.now.values.items) marks.items) }
{
    let mut marks = no_marks(alloc, count)?;
    mark_numbers(&mut marks, opened.values.as_slice());
    Ok(marks)
}

fn no_marks(alloc: Global, count: usize) -> Result<Vec<bool>, NoMemory>
    ensures { IfOk result (λ marks. MarksOf count (λ n. false) marks.items) }
{
    let marks = vec![in alloc; false; count]?;
    Ok(marks)
}

/// Where entities are declared first.
pub(crate) fn least_places(
    alloc: Global,
    count: usize,
    all: &[Declared<'_>],
) -> Result<Vec<Option<Place>>, NoMemory>
    requires { AllByRecursion (λ d. d.path < count) all.now }
    ensures { IfOk result (λ leasts. PlacesOf all.now leasts.items) }
{
    let mut leasts = no_places(alloc, count)?;
    note_entities(&mut leasts, all);
    Ok(leasts)
}

fn no_places(alloc: Global, count: usize) -> Result<Vec<Option<Place>>, NoMemory>
    ensures { IfOk result (λ places. places.items ≡ replicate count None) }
{
    let places = vec![in alloc; None; count]?;
    Ok(places)
}
