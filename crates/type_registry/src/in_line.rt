//! One function of an interface whose bases lie in a line: where none has two bases, none can be met twice.
ghost use Rattle.std.specs.Prelude.{◌≡◌, ◌∷◌, [], ◌+◌, Some, IfSome, length};
ghost use Rattle.uno_model.specs.BuiltIn.{HasBuiltIn, x_interface_name};
ghost use Rattle.uno_model.specs.Functions.{root_functions};
ghost use Rattle.uno_model.specs.Registry.{find_entity, stands_on_body};
ghost use Rattle.uno_entities.specs.Entities.{entity_of};
ghost use Rattle.type_registry.specs.Own.{SeeksOver};

use crate::bases::{bases_in, is_root_alone, last_of};
use crate::own::{Sought, seek_declared};
use uno_entities::X_INTERFACE;
use uno_types::{Body, Entity, Registry};

/// How many functions the root interface has.
const ROOT_FUNCTIONS: usize = 3;

/// The function of an interface at a number, or how far the number lies past them. There is no answer where the interface, or one below it in the line, has two
/// bases that are not optional, and none where the line has more levels than these.
#[cycle(in_line)]
fn seek_in_line<'a>(
    registry: &'a Registry,
    name: &str,
    levels: usize,
    number: usize,
) -> Option<Sought<'a>>
    requires { HasBuiltIn registry.now }
    ensures { IfSome result (λ sought. SeeksOver registry.now name.now levels number sought) }
{
    if levels == 0 {
        return None;
    }
    if let Some(left) = past_root(name, number) {
        return Some(Sought::Past(left));
    }
    let Some(entity) = registry.find(name) else {
        return Some(Sought::Past(number));
    };
    seek_from(registry, name, entity, levels, number)
}

/// The same from the interface's entity on.
#[cycle(in_line)]
pub(crate) fn seek_from<'a>(
    registry: &'a Registry,
    name: &str,
    entity: &'a Entity,
    levels: usize,
    number: usize,
) -> Option<Sought<'a>>
    requires built_in { HasBuiltIn registry.now }
    requires found { find_entity name.now registry.now ≡ Some (entity_of entity.now) }
    ensures { IfSome result (λ sought. SeeksOver registry.now name.now levels number sought) }
{
    let less = levels.checked_sub(1)?;
    let Some((base, others)) = last_of(bases_in(entity)) else {
        return Some(seek_declared(entity, number));
    };
    let None = last_of(others) else {
        return None;
    };
    match seek_in_line(registry, base, less, number)? {
        Sought::Found(function) => Some(Sought::Found(function)),
        Sought::Past(left) => Some(seek_declared(entity, left)),
    }
}

/// How far a number lies past the functions of the root interface, which has the same ones in every registry, where the name is that interface's.
fn past_root(name: &str, number: usize) -> Option<usize>
    ensures { IfSome result (λ left. (name.now ≡ x_interface_name) × (number ≡ length root_functions + left)) }
{
    if name != X_INTERFACE {
        return None;
    }
    number.checked_sub(ROOT_FUNCTIONS)
}

/// How far a number lies past the functions of the root interface, where that is the only one on which an interface stands.
pub(crate) fn past_root_below(entity: &Entity, number: usize) -> Option<usize>
    ensures { IfSome result (λ left. (stands_on_body (Some (entity_of entity.now)) ≡ x_interface_name ∷ []) × (number ≡ length root_functions + left)) }
{
    let Body::Interface { bases, .. } = &entity.body else {
        return None;
    };
    if !is_root_alone(bases) {
        return None;
    }
    number.checked_sub(ROOT_FUNCTIONS)
}
