//! Where a name stands among entities in rising order of their names.
ghost use Rattle.std.specs.Prelude.{IfOk, IfErr};
ghost use Rattle.uno_model.specs.Registry.{IsRising};
ghost use Rattle.uno_entities.specs.Entities.{entities_of};
ghost use Rattle.uno_entities.specs.Finding.{IsPlaceOf, IsGapOf};

use crate::Entity;

/// The place of the entity of this name, or the gap where one would go.
pub fn place_in(entities: &[Entity], name: &str) -> Result<usize, usize>
    requires { IsRising (entities_of entities.now) }
    ensures place { IfOk result (λ i. IsPlaceOf name.now (entities_of entities.now) i) }
    ensures gap { IfErr result (λ i. IsGapOf name.now (entities_of entities.now) i) }
{
    entities.binary_search_by(|entity| entity.name.as_str().cmp(name))
}
