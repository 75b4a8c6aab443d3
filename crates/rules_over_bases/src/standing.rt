//! Whether an entity stands on one other alone.
ghost use Rattle.std.specs.Prelude.{◌≡◌, false, [], ◌∷◌, map, Some};
ghost use Rattle.std.specs.List.{list_all};
ghost use Rattle.uno_model.specs.Registry.{IsRising, at_most_one, mandatory_bases, stands_on_body};
ghost use Rattle.uno_entities.specs.Entities.{base_of, entities_of, entity_of};
ghost use Rattle.rules_over_bases.specs.Standing.{IsStanding};

use uno_entities::{Base, Body, Entity, Name, place_in};

/// On what an entity stands, its optional bases left out.
#[derive(Clone, Copy)]
pub enum Standing {
    OnNone,
    /// On the one at this place alone.
    OnOne(usize),
    /// On several, or on one that is not there, or it is of a kind that has no bases.
    Otherwise,
}

pub fn standing_of(entities: &[Entity], entity: &Entity) -> Standing
    requires { IsRising (entities_of entities.now) }
    ensures { IsStanding (entities_of entities.now) (stands_on_body (Some (entity_of entity.now))) result }
{
    match &entity.body {
        Body::Interface { bases, .. } => standing_on_required(entities, bases.as_slice()),
        Body::Struct { base, .. } | Body::Exception { base, .. } => {
            standing_on_base(entities, base)
        }
        _ => Standing::Otherwise,
    }
}

fn standing_on_required(entities: &[Entity], bases: &[Base]) -> Standing
    requires { IsRising (entities_of entities.now) }
    ensures { IsStanding (entities_of entities.now) (mandatory_bases (map base_of bases.now)) result }
{
    let mut rest = bases;
    while let Some((base, behind)) = rest.split_first() {
        if !base.optional {
            return standing_on_first(entities, base, behind);
        }
        rest = behind;
    }
    Standing::OnNone
}

fn standing_on_first(entities: &[Entity], base: &Base, behind: &[Base]) -> Standing
    requires rising { IsRising (entities_of entities.now) }
    requires required { base.now.optional ≡ false }
    ensures { IsStanding (entities_of entities.now) (mandatory_bases (base_of base.now ∷ map base_of behind.now)) result }
{
    if !all_optional(behind) {
        return Standing::Otherwise;
    }
    standing_on(entities, base.name.as_str())
}

fn all_optional(bases: &[Base]) -> bool
    ensures { result ≡ list_all (λ b. b.optional) bases.now }
{
    bases.iter().all(|base| base.optional)
}

fn standing_on_base(entities: &[Entity], base: &Option<Name>) -> Standing
    requires { IsRising (entities_of entities.now) }
    ensures { IsStanding (entities_of entities.now) (at_most_one base.now) result }
{
    match base {
        Some(name) => standing_on(entities, name.as_str()),
        None => Standing::OnNone,
    }
}

fn standing_on(entities: &[Entity], name: &str) -> Standing
    requires { IsRising (entities_of entities.now) }
    ensures { IsStanding (entities_of entities.now) (name.now ∷ []) result }
{
    match place_in(entities, name) {
        Ok(place) => Standing::OnOne(place),
        Err(_) => Standing::Otherwise,
    }
}
