//! Paths that name no entity of the kind that their place asks.
ghost use Rattle.std.specs.Prelude.{◌∷◌, [], OnOk, map, option_map};
ghost use Rattle.std.specs.Option.{option_to_list};
ghost use Rattle.entity_rules.specs.Wanted.{is_wanted};
ghost use Rattle.idl_places.specs.Places.{AddsPlaces, wrong_paths};
ghost use Rattle.idl_trees.specs.Names.{path_of};
ghost use Rattle.uno_entities.specs.Entities.{entities_of};
ghost use Rattle.uno_model.specs.Registry.{IsRising};

use crate::places::add_unless;
use entity_rules::{Wanted, is_there};
use idl_entities::Meanings;
use idl_trees::{Path, Place};
use uno_base::NoMemory;
use uno_entities::Entity;

/// The place of a path, unless it names an entity of this kind.
pub(crate) fn add_unnamed<M: Meanings>(
    meanings: &M,
    entities: &[Entity],
    wanted: Wanted,
    path: &Path,
    places: &mut Vec<Place>,
) -> Result<(), NoMemory>
    requires rising { IsRising (entities_of entities.now) }
    ensures { OnOk result (AddsPlaces places.old.items (wrong_paths (M.telling meanings.now) (entities_of entities.now) (is_wanted wanted) (path_of path.now ∷ [])) places.new.items) }
{
    let name = meanings.name(path)?;
    let right = is_there(entities, wanted, name.as_str());
    add_unless(places, right, path.place)
}

/// The same of each of these paths.
pub(crate) fn add_all_unnamed<M: Meanings>(
    meanings: &M,
    entities: &[Entity],
    wanted: Wanted,
    paths: &[Path],
    places: &mut Vec<Place>,
) -> Result<(), NoMemory>
    requires rising { IsRising (entities_of entities.now) }
    ensures { OnOk result (AddsPlaces places.old.items (wrong_paths (M.telling meanings.now) (entities_of entities.now) (is_wanted wanted) (map path_of paths.now)) places.new.items) }
{
    for path in paths {
        add_unnamed(meanings, entities, wanted, path, places)?;
    }
    Ok(())
}

/// The same of a path, if there is one.
pub(crate) fn add_unnamed_if_any<M: Meanings>(
    meanings: &M,
    entities: &[Entity],
    wanted: Wanted,
    path: &Option<Path>,
    places: &mut Vec<Place>,
) -> Result<(), NoMemory>
    requires rising { IsRising (entities_of entities.now) }
    ensures { OnOk result (AddsPlaces places.old.items (wrong_paths (M.telling meanings.now) (entities_of entities.now) (is_wanted wanted) (option_to_list (option_map path_of path.now))) places.new.items) }
{
    match path {
        Some(path) => add_unnamed(meanings, entities, wanted, path, places),
        None => Ok(()),
    }
}
