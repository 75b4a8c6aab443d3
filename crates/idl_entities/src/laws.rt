//! Laws of entities that are told: each function has an empty body, and its clause is the law.
ghost use Rattle.std.specs.Prelude.{◌≡◌};
ghost use Rattle.idl_entities.specs.Telling.{Telling, entity_told};
ghost use Rattle.idl_meaning_model.specs.Meaning.{entity_meant};
ghost use Rattle.registry_reading_model.specs.Changes.{entity_changed, same};
ghost use Rattle.uno_model.specs.Entities as uno;

/// Where types and numbers are kept as they are, an entity is the one that is meant.
pub fn what_is_kept_the_same_is_meant()
    ensures entity { (e : uno.Entity) → entity_changed same e ≡ e }
    ensures told { (t : Telling) → t.kept ≡ same → entity_told t ≡ entity_meant t.all t.declared }
{}
