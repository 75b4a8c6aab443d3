//! The full names of paths, each made once.
ghost use Rattle.std.specs.Prelude.{◌≡◌, ◌<◌, IfOk, IfSome, None, get_or, length, option_map};
ghost use Rattle.idl_meant.specs.FullNames.{AreFullNames};
ghost use Rattle.idl_names.specs.Standing.{name_at};

use idl_names::{Paths, Resolved};
use std::alloc::Global;
use uno_base::NoMemory;
use uno_entities::Name;

/// By their numbers the names of paths that are declared, or for which a name stands; the others have none here.
pub(crate) fn full_names(
    alloc: Global,
    resolved: &Resolved<'_>,
) -> Result<Vec<Option<Name>>, NoMemory>
    ensures { IfOk result (λ names. AreFullNames resolved.now.paths names.items) }
{
    let marks = marks(alloc, resolved)?;
    names_of_marked(alloc, &resolved.paths, marks.as_slice())
}

/// Marks the paths that are declared, and those for which a name stands.
fn marks(alloc: Global, resolved: &Resolved<'_>) -> Result<Vec<bool>, NoMemory> {
    let mut marks = vec![in alloc; false; resolved.paths.len()]?;
    for declared in resolved.declared.as_slice() {
        mark(&mut marks, declared.path);
    }
    for name in resolved.names.as_slice() {
        mark(&mut marks, name.1);
    }
    Ok(marks)
}

fn mark(marks: &mut Vec<bool>, number: u32) {
    if number as usize >= marks.len() {
        return;
    }
    marks[number as usize] = true;
}

fn is_marked(marks: &[bool], number: u32) -> bool {
    match marks.get(number as usize) {
        Some(mark) => *mark,
        None => false,
    }
}

fn names_of_marked(
    alloc: Global,
    paths: &Paths<'_>,
    marks: &[bool],
) -> Result<Vec<Option<Name>>, NoMemory>
    ensures { IfOk result (λ names. AreFullNames paths.now names.items) }
{
    let Ok(count) = u32::try_from(paths.len()) else {
        return Err(NoMemory);
    };
    let mut names = Vec::new(alloc);
    for number in 0..count {
        let name = name_if(alloc, paths, number, is_marked(marks, number))?;
        names.push(name)?;
    }
    Ok(names)
}

fn name_if(
    alloc: Global,
    paths: &Paths<'_>,
    number: u32,
    marked: bool,
) -> Result<Option<Name>, NoMemory>
    requires { number < length paths.now }
    ensures { IfOk result (λ name. IfSome name (λ text. text ≡ name_at paths.now number)) }
{
    if !marked {
        return Ok(None);
    }
    let name = paths.full_name(alloc, number)?;
    Ok(Some(name))
}

/// The name of a path: a copy of the one that is there, or else one that is made.
pub(crate) fn full_name(
    alloc: Global,
    paths: &Paths<'_>,
    names: &[Option<Name>],
    number: u32,
) -> Result<Name, NoMemory>
    requires { number < length paths.now }
    ensures { AreFullNames paths.now names.now → IfOk result (λ name. name ≡ name_at paths.now number) }
{
    match name_there(names, number) {
        Some(name) => name.copy(),
        None => paths.full_name(alloc, number),
    }
}

fn name_there(names: &[Option<Name>], number: u32) -> Option<&Name>
    ensures { option_map (λ name. name.now) result ≡ get_or names.now number None }
{
    match names.get(number as usize) {
        Some(Some(name)) => Some(name),
        Some(None) => None,
        None => None,
    }
}
