//! Declarations and their entities.
ghost use Rattle.std.specs.Prelude.{◌≡◌, IfOk};
ghost use Rattle.idl_joint_places.specs.There.{FindsPlace};
ghost use Rattle.idl_meaning_model.specs.Declarations.{full_name, is_forward};
ghost use Rattle.idl_names.specs.Collected.{HasNumbers, declared_of};
ghost use Rattle.idl_trees.specs.Trees.{declaration_of};
ghost use Rattle.uno_entities.specs.Entities.{entities_of};
ghost use Rattle.uno_model.specs.Registry.{IsRising};

use idl_names::{Declared, Paths};
use idl_trees::Declaration;
use std::alloc::Global;
use uno_base::NoMemory;
use uno_entities::{Entity, place_in};

pub(crate) fn is_forward(body: &Declaration) -> bool
    ensures { result ≡ is_forward (declaration_of body.now) }
{
    matches!(body, Declaration::Forward)
}

/// The place of the entity of a declaration, if it is there.
pub(crate) fn place_there(
    alloc: Global,
    paths: &Paths<'_>,
    declared: &Declared<'_>,
    entities: &[Entity],
) -> Result<Option<usize>, NoMemory>
    requires rising { IsRising (entities_of entities.now) }
    requires numbers { HasNumbers paths.now declared.now }
    ensures { IfOk result (FindsPlace (entities_of entities.now) (full_name (declared_of paths.now declared.now))) }
{
    let name = paths.full_name(alloc, declared.path)?;
    Ok(place_named(entities, name.as_str()))
}

/// The place of the entity of this name, if it is there.
fn place_named(entities: &[Entity], name: &str) -> Option<usize>
    requires { IsRising (entities_of entities.now) }
    ensures { FindsPlace (entities_of entities.now) name.now result }
{
    match place_in(entities, name) {
        Ok(place) => Some(place),
        Err(_) => None,
    }
}
