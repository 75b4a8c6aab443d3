//! The names of types.
ghost use Rattle.std.specs.Prelude.{◌≡◌, length, IfOk, IsTrue, option_map};
ghost use Rattle.std.specs.List.{list_all};
ghost use Rattle.literal_model.specs.Shapes.{is_misnamed, is_name_byte, name_stop, type_at};
ghost use Rattle.uno_model.specs.NamedTypes.{type_of_text};
ghost use Rattle.uno_model.specs.Sound.{IsSound};
ghost use Rattle.uno_entities.specs.TypeNames.{kind_of};
ghost use Rattle.literal_reading.specs.Scanning.{Scans, test_of};

use crate::scan::name::behind_name;
use crate::scan::run::{Run, split_run};
use crate::stop::{Scan, Stop};
use std::alloc::Global;
use uno_base::NoMemory;
use uno_entities::goes_on_identifier;
use uno_types::{Registry, TypeName};

/// A type of the registry; where the mark stands behind another name, the name is bad from its first byte on.
pub(crate) fn type_at<'a>(
    alloc: Global,
    registry: &Registry,
    mark: u8,
    bytes: &'a [u8],
) -> Scan<'a, TypeName>
    requires { IsSound registry.now }
    ensures { Scans (λ x. (kind_of x.0, x.1.now)) result (type_at registry.now mark bytes.now) }
{
    let (run, rest) = split_run(Run::Name, bytes);
    let Some((first, behind)) = rest.split_first() else {
        return Err(Stop::Bad(name_stop(alloc, registry, run, rest)?));
    };
    if *first != mark {
        return Err(Stop::Bad(name_stop(alloc, registry, run, rest)?));
    }
    let Some(kind) = type_named(alloc, registry, as_text(Run::Name, run))? else {
        return Err(Stop::Bad(bytes.len()));
    };
    Ok((kind, behind))
}

/// How many bytes are left from the first at which the name of no type goes on, where a run and what is behind it are left.
fn name_stop(alloc: Global, registry: &Registry, run: &[u8], rest: &[u8]) -> Result<usize, NoMemory>
    requires sound { IsSound registry.now }
    requires bytes { IsTrue (list_all is_name_byte run.now) }
    ensures { IfOk result (λ left. left ≡ name_stop registry.now run.now (length rest.now)) }
{
    let behind = behind_name(run);
    let left = behind.len() + rest.len();
    if left == 0 {
        return Ok(0);
    }
    let (name, _) = run.split_at(run.len().saturating_sub(behind.len()));
    if is_misnamed(alloc, registry, name)? {
        return Ok(run.len() + rest.len());
    }
    Ok(left)
}

fn is_misnamed(alloc: Global, registry: &Registry, name: &[u8]) -> Result<bool, NoMemory>
    requires sound { IsSound registry.now }
    requires bytes { IsTrue (list_all is_name_byte name.now) }
    ensures { IfOk result (λ is. is ≡ is_misnamed registry.now name.now) }
{
    let Some(last) = name.last() else {
        return Ok(false);
    };
    if !goes_on_identifier(*last) {
        return Ok(false);
    }
    match type_named(alloc, registry, as_text(Run::Name, name))? {
        Some(_) => Ok(false),
        None => Ok(true),
    }
}

fn type_named(alloc: Global, registry: &Registry, name: &str) -> Result<Option<TypeName>, NoMemory>
    requires { IsSound registry.now }
    ensures { IfOk result (λ found. option_map kind_of found ≡ type_of_text registry.now name.now) }
{
    registry.type_named(alloc, name)
}

/// A run as a text: its bytes are ASCII.
pub fn as_text(run: Run, bytes: &[u8]) -> &str
    requires { IsTrue (list_all (test_of run) bytes.now) }
    ensures { result.now ≡ bytes.now }
{
    match str::from_utf8(bytes) {
        Ok(text) => text,
        Err(_) => unreachable!(),
    }
}
