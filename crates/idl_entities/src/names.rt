//! The names of the entities that paths name.
ghost use Rattle.std.specs.Prelude.{◌≡◌, IfOk, map, option_map};
ghost use Rattle.idl_entities.specs.Telling.{name_told, names_told};
ghost use Rattle.idl_meaning_model.specs.Uses.{accessor_raises};
ghost use Rattle.idl_trees.specs.Members.{paths_of};
ghost use Rattle.idl_trees.specs.Names.{path_of};

use crate::meanings::Meanings;
use idl_trees::Path;
use std::alloc::Global;
use uno_base::NoMemory;
use uno_entities::Name;

/// What the paths name, in their order.
pub(crate) fn names_meant<M: Meanings>(
    alloc: Global,
    meanings: &M,
    paths: &[Path],
) -> Result<Vec<Name>, NoMemory>
    ensures { IfOk result (λ names. names.items ≡ names_told (M.telling meanings.now) (map path_of paths.now)) }
{
    let mut names = Vec::new(alloc);
    for path in paths {
        let name = meanings.name(path)?;
        names.push(name)?;
    }
    Ok(names)
}

/// What `get` or `set` raises, where it is written.
pub(crate) fn raised_meant<M: Meanings>(
    alloc: Global,
    meanings: &M,
    raised: &Option<Vec<Path>>,
) -> Result<Vec<Name>, NoMemory>
    ensures { IfOk result (λ names. names.items ≡ names_told (M.telling meanings.now) (accessor_raises (option_map paths_of raised.now))) }
{
    match raised {
        Some(paths) => names_meant(alloc, meanings, paths.as_slice()),
        None => Ok(Vec::new(alloc)),
    }
}

/// What the path names, if there is one.
pub(crate) fn name_if_any<M: Meanings>(
    meanings: &M,
    path: &Option<Path>,
) -> Result<Option<Name>, NoMemory>
    ensures { IfOk result (λ name. name ≡ option_map (name_told (M.telling meanings.now)) (option_map path_of path.now)) }
{
    match path {
        Some(path) => {
            let name = meanings.name(path)?;
            Ok(Some(name))
        }
        None => Ok(None),
    }
}
