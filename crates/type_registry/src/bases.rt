//! The names on which an entity stands, taken from the last to the first.
ghost use Rattle.std.specs.Prelude.{◌≡◌, ◌++◌, ◌∷◌, [], map, Some, MatchOption, IsTrue};
ghost use Rattle.uno_model.specs.BuiltIn.{x_interface_name};
ghost use Rattle.uno_model.specs.Registry.{mandatory_bases, stands_on, stands_on_body};
ghost use Rattle.uno_entities.specs.Entities.{base_of, entity_of};
ghost use Rattle.type_registry.specs.Bases.{names_left};

use uno_entities::X_INTERFACE;
use uno_types::{Base, Body, Entity, Name, Registry};

/// Names that are left: those of the bases that are not optional, one name, or none.
#[derive(Clone, Copy)]
pub(crate) enum Bases<'a> {
    Nothing,
    Single(&'a Name),
    Listed(&'a [Base]),
}

/// The names on which the entity of a name stands.
pub(crate) fn bases_of<'a>(registry: &'a Registry, name: &str) -> Bases<'a>
    ensures { names_left result ≡ stands_on registry.now name.now }
{
    match registry.find(name) {
        Some(entity) => bases_in(entity),
        None => Bases::Nothing,
    }
}

/// The names on which an entity stands.
pub(crate) fn bases_in(entity: &Entity) -> Bases<'_>
    ensures { names_left result ≡ stands_on_body (Some (entity_of entity.now)) }
{
    match &entity.body {
        Body::Interface { bases, .. } => Bases::Listed(bases),
        Body::Struct {
            base: Some(base),
            ..
        }
        | Body::Exception {
            base: Some(base),
            ..
        } => { Bases::Single(base) }
        _ => Bases::Nothing,
    }
}

/// The last name, and the names before it.
pub(crate) fn last_of(bases: Bases<'_>) -> Option<(&str, Bases<'_>)>
    ensures { MatchOption result (names_left bases.entry ≡ []) (λ x. names_left bases.entry ≡ names_left x.1 ++ x.0.now ∷ []) }
{
    match bases {
        Bases::Nothing => None,
        Bases::Single(name) => Some((name.as_str(), Bases::Nothing)),
        Bases::Listed(bases) => {
            let (name, others) = last_required(bases)?;
            Some((name, Bases::Listed(others)))
        }
    }
}

fn last_required(bases: &[Base]) -> Option<(&str, &[Base])>
    ensures { MatchOption result (mandatory_bases (map base_of bases.now) ≡ []) (λ x. mandatory_bases (map base_of bases.now) ≡ mandatory_bases (map base_of x.1.now) ++ x.0.now ∷ []) }
{
    let mut rest = bases;
    while let Some((last, others)) = rest.split_last() {
        if !last.optional {
            return Some((last.name.as_str(), others));
        }
        rest = others;
    }
    None
}

/// Whether the root interface is the only base that is not optional.
pub(crate) fn is_root_alone(bases: &[Base]) -> bool
    ensures { IsTrue result → mandatory_bases (map base_of bases.now) ≡ x_interface_name ∷ [] }
{
    let Some((name, others)) = last_required(bases) else {
        return false;
    };
    let None = last_required(others) else {
        return false;
    };
    if name != X_INTERFACE {
        return false;
    }
    true
}
