//! A registry: the entities of a type system, each under its name.
ghost use Rattle.std.specs.Prelude.{◌≡◌, ◌≢◌, ◌+◌, ◌<◌, ◌≤◌, ◌↔◌, length, take, drop, IfOk, OnOk, OnErr, IfErr, IfSome, IsNone, IsTrue, MatchOption, MatchResult, Some, None, option_map, slice_get, insert};
ghost use Rattle.uno_model.specs.BuiltIn.{built_in, HasBuiltIn};
ghost use Rattle.uno_model.specs.Registry.{find_entity, Adds, IsRising};
ghost use Rattle.uno_model.specs.Sound.{IsSound};
ghost use Rattle.uno_entities.specs.Entities.{entity_of, entities_of};
ghost use Rattle.uno_entities.specs.Finding.{IsPlaceOf, IsGapOf};
ghost use Rattle.uno_types.specs.declared.registry.AddError.TheVariants.{NoMemory, Twice};

use crate::Entity;
use entity_rules::is_sound;
use std::alloc::{AllocFailed, Global};
use std::marker::Model;
use uno_base::NoMemory;
use uno_entities::{built_in_entities, copy_entities, place_in};

/// Why an entity was not added.
#[derive(Clone, Copy, Debug, PartialEq, Eq)]
pub enum AddError {
    NoMemory,
    /// The name is there already.
    Twice,
}

impl<T: Drop> From<AllocFailed<T>> for AddError {
    ghost from_gives = { λ _ e. e ≡ NoMemory };

    fn from(_: AllocFailed<T>) -> AddError {
        AddError::NoMemory
    }
}

/// The entities that two ends, or a program and its plans, agree on.
#[derive(Drop)]
pub struct Registry {
    alloc: Global,
    entities: Vec<Entity>,
}

impl Model for Registry {
    ghost use Rattle.std.specs.Prelude.{List};
    ghost use Rattle.uno_model.specs.Entities.{Entity as Plain};

    ghost Value = { List Plain };

    ghost use Rattle.std.specs.Coded.{codes};
    ghost use Rattle.uno_model.specs.Codes.{kind_code};

    ghost coded = { Prim.hlevel (codes, kind_code) };

    ghost use Rattle.uno_entities.specs.Entities.{entities_of};
    ghost use Rattle.uno_model.specs.BuiltIn.{HasBuiltIn};
    ghost use Rattle.uno_model.specs.Registry.{IsRising};

    ghost view = { λ r. entities_of r.entities.items };

    ghost invariant = { λ r. IsRising (entities_of r.entities.items) × HasBuiltIn (entities_of r.entities.items) };
}

impl Registry {
    /// The registry that has the built-in entities alone.
    pub fn new(alloc: Global) -> Result<Registry, NoMemory>
        ensures { IfOk result (λ registry. registry ≡ built_in) }
    {
        let entities = built_in_entities(alloc)?;
        Ok(Registry { alloc, entities })
    }

    /// An equal registry.
    pub fn copy(&self) -> Result<Registry, NoMemory>
        ensures { IfOk result (λ copy. copy ≡ self.now) }
    {
        let alloc = self.alloc;
        let entities = copy_entities(alloc, self.entities())?;
        Ok(Registry { alloc, entities })
    }

    /// Where its memory comes from.
    pub fn allocator(&self) -> Global {
        self.alloc
    }

    /// Adds an entity under its name; a name that is there keeps what it has.
    pub fn add(&mut self, entity: Entity) -> Result<(), AddError>
        ensures added { OnOk result (Adds self.old self.new (entity_of entity)) }
        ensures twice { (result ≡ Err AddError.Twice) ↔ (find_entity entity.name self.old ≢ None) }
        ensures refused { OnErr result (self.new ≡ self.old) }
    {
        insert_in(&mut self.entities, entity)
    }

    /// The entity of this name.
    pub fn find(&self, name: &str) -> Option<&Entity>
        ensures absent { IsNone result ↔ (find_entity name.now self.now ≡ None) }
        ensures found { IfSome result (λ e. find_entity name.now self.now ≡ Some (entity_of e.now)) }
    {
        match place_in(self.entities.as_slice(), name) {
            Ok(place) => entity_at(self.entities.as_slice(), place),
            Err(_) => None,
        }
    }

    /// Whether the registry is sound. Built-in entities are asked as all others are.
    pub fn is_sound(&self) -> Result<bool, NoMemory>
        ensures { IfOk result (λ sound. IsTrue sound ↔ IsSound self.now) }
    {
        is_sound(self.alloc, self.entities.as_slice())
    }

    /// All entities, in rising order of their names' bytes.
    pub fn entities(&self) -> &[Entity]
        ensures all { entities_of result.now ≡ self.now }
        ensures rising { IsRising self.now }
        ensures built_in { HasBuiltIn self.now }
    {
        self.entities.as_slice()
    }
}

/// The entity at a place.
fn entity_at(entities: &[Entity], place: usize) -> Option<&Entity>
    ensures { option_map (λ e. entity_of e.now) result ≡ slice_get (entities_of entities.now) place }
{
    entities.get(place)
}

/// The gap where an entity of this name would go, unless one is there.
#[tactic(auto, using(uno_entities::proofs::FindingLemmas::place_there))]
fn gap_in(entities: &[Entity], name: &str) -> Option<usize>
    requires { IsRising (entities_of entities.now) }
    ensures { MatchOption result (find_entity name.now (entities_of entities.now) ≢ None) (λ i. IsGapOf name.now (entities_of entities.now) i) }
{
    match place_in(entities, name) {
        Ok(_) => None,
        Err(gap) => Some(gap),
    }
}

/// Puts an entity where its name belongs, unless the name is there.
fn insert_in(entities: &mut Vec<Entity>, entity: Entity) -> Result<(), AddError>
    requires { IsRising (entities_of entities.old.items) }
    ensures rising { IsRising (entities_of entities.new.items) }
    ensures built_in { HasBuiltIn (entities_of entities.old.items) → HasBuiltIn (entities_of entities.new.items) }
    ensures added { OnOk result (Adds (entities_of entities.old.items) (entities_of entities.new.items) (entity_of entity)) }
    ensures twice { (result ≡ Err AddError.Twice) ↔ (find_entity entity.name (entities_of entities.old.items) ≢ None) }
    ensures refused { OnErr result (entities.new.items ≡ entities.old.items) }
{
    let Some(gap) = gap_in(entities.as_slice(), entity.name.as_str()) else {
        drop(entity);
        return Err(AddError::Twice);
    };
    entities.insert(gap, entity)?;
    Ok(())
}
