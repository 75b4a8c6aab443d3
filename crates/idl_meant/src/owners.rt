//! The declarations of entities, by the numbers of their paths.
ghost use Rattle.std.specs.List.{AllByRecursion};
ghost use Rattle.std.specs.Prelude.{◌≡◌, ◌<◌, IfOk, None, get_or, map};
ghost use Rattle.idl_meaning_model.specs.Declarations.{is_forward};
ghost use Rattle.idl_meant.specs.Owning.{AreOwners, entity_number, owner_at};
ghost use Rattle.idl_trees.specs.Trees.{declaration_of};

use idl_names::{Declared, OUTERMOST};
use idl_trees::Declaration;
use idl_values::first_places;
use std::alloc::Global;
use uno_base::NoMemory;

/// For each number of a path the first declaration of the entity with that path.
pub(crate) fn owners(
    alloc: Global,
    count: usize,
    all: &[Declared<'_>],
) -> Result<Vec<Option<u32>>, NoMemory>
    requires some { 0 < count }
    requires low { AllByRecursion (λ d. d.path < count) all.now }
    ensures { IfOk result (λ owners. AreOwners all.now owners.items) }
{
    let numbers = entity_numbers(alloc, all)?;
    first_places(alloc, count, numbers.as_slice())
}

fn entity_numbers(alloc: Global, all: &[Declared<'_>]) -> Result<Vec<u32>, NoMemory>
    ensures { IfOk result (λ numbers. numbers.items ≡ map entity_number all.now) }
{
    let mut numbers = Vec::new(alloc);
    for declared in all {
        numbers.push(entity_number(declared))?;
    }
    Ok(numbers)
}

fn entity_number(declared: &Declared<'_>) -> u32
    ensures { result ≡ entity_number declared.now }
{
    if is_forward(declared.body) {
        return OUTERMOST;
    }
    declared.path
}

fn is_forward(body: &Declaration) -> bool
    ensures { result ≡ is_forward (declaration_of body.now) }
{
    matches!(body, Declaration::Forward)
}

/// The declaration that a table has for a number.
pub(crate) fn owner<'a>(
    all: &[Declared<'a>],
    owners: &[Option<u32>],
    number: u32,
) -> Option<Declared<'a>>
    ensures { result ≡ owner_at all.now owners.now number }
{
    let Some(place) = noted(owners, number) else {
        return None;
    };
    match all.get(place as usize) {
        Some(declared) => Some(*declared),
        None => None,
    }
}

fn noted(owners: &[Option<u32>], number: u32) -> Option<u32>
    ensures { result ≡ get_or owners.now number None }
{
    match owners.get(number as usize) {
        Some(place) => *place,
        None => None,
    }
}
