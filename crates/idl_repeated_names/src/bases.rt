//! The one base from which an entity has names.
ghost use Rattle.std.specs.Prelude.{◌≡◌, ◌∷◌, ℕ, [], List, IfSome, slice_get};
ghost use Rattle.std.specs.Option.{option_map};
ghost use Rattle.idl_repeated_names.specs.Over.{bases_at};
ghost use Rattle.uno_entities.specs.Entities.{entities_of, entity_of};
ghost use Rattle.uno_entities.specs.Finding.{IsPlaceOf};
ghost use Rattle.uno_model.specs.Registry.{stands_on};

use crate::chain::base_of;
use crate::over::Kind;
use rules_over_bases::{Standing, standing_of};
use uno_types::{Entity, Registry};

/// The base from which an entity has names of a kind, where there is but one.
pub(crate) fn only_base<'a>(registry: &'a Registry, kind: Kind, name: &str) -> Option<&'a str>
    ensures { IfSome result (λ base. bases_at kind registry.now name.now ≡ base.now ∷ []) }
{
    match kind {
        Kind::Functions => only_stand(registry, name),
        Kind::Fields => base_of(registry, name),
    }
}

/// The one on which an entity stands alone.
fn only_stand<'a>(registry: &'a Registry, name: &str) -> Option<&'a str>
    ensures { IfSome result (λ base. stands_on registry.now name.now ≡ base.now ∷ []) }
{
    let entities = registry.entities();
    let Some(entity) = registry.find(name) else {
        return None;
    };
    let Standing::OnOne(place) = standing_of(entities, entity) else {
        return None;
    };
    name_at(entities, place)
}

fn name_at(entities: &[Entity], place: usize) -> Option<&str>
    ensures { IfSome result (λ found. (name : List ℕ) → IsPlaceOf name (entities_of entities.now) place → found.now ≡ name) }
{
    let Some(entity) = entity_at(entities, place) else {
        return None;
    };
    Some(entity.name.as_str())
}

fn entity_at(entities: &[Entity], place: usize) -> Option<&Entity>
    ensures { option_map (λ e. entity_of e.now) result ≡ slice_get (entities_of entities.now) place }
{
    entities.get(place)
}
