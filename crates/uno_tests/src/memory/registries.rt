//! Registries.
ghost use Rattle.uno_model.specs.Sound.{IsSound};

use registry_reading::{RegError, read_registry};
use std::alloc::Global;
use uno_base::NoMemory;
use uno_entities::copy_entities;
use uno_types::{AddError, Entity, Registry, TypeName};

/// Entities whose names stand before, between and behind the built-in ones.
const TYPES: &str = "unoreg 1\n\
    enum a.A\nvalue A 0\nend\n\
    enum a.B\nvalue A 0\nend\n\
    struct b.B\nmember A t.D\nend\n\
    enum com.sun.star.m.M\nvalue A 0\nend\n\
    enum t.B\nvalue A 0\nvalue B 0\nend\n\
    struct t.D\nmember A long\nend\n\
    interface t.X\nbase com.sun.star.uno.XInterface\nend\n\
    interface t.Y\nbase t.X\nend\n\
    enum z.Z\nvalue A 0\nend\n";

/// Adds an entity, and answers whether the registry then has one more, or as many where it has the name; what finds no memory leaves as many as there were.
fn add(registry: &mut Registry, entity: Entity) -> Result<bool, NoMemory> {
    let before = registry.entities().len();
    let had = registry.find(entity.name.as_str()).is_some();
    let added = registry.add(entity);
    let now = registry.entities().len();
    match added {
        Ok(()) => Ok(!had && now == before.saturating_add(1)),
        Err(AddError::Twice) => Ok(had && now == before),
        Err(AddError::NoMemory) if now == before => Err(NoMemory),
        Err(AddError::NoMemory) => Ok(false),
    }
}

/// Adds the entities, the last one first.
fn add_all(registry: &mut Registry, entities: &mut Vec<Entity>) -> Result<bool, NoMemory> {
    for _ in 0..entities.len() {
        let Some(entity) = entities.pop() else {
            return Ok(false);
        };
        if !add(registry, entity)? {
            return Ok(false);
        }
    }
    Ok(true)
}

/// Adds copies of the entities of another registry.
fn fill(alloc: Global, registry: &mut Registry, from: &Registry) -> Result<bool, NoMemory> {
    let mut entities = copy_entities(alloc, from.entities())?;
    let added = add_all(registry, &mut entities);
    drop(entities);
    added
}

const ROOT: &str = "com.sun.star.uno.XInterface";

/// Whether the registry is sound, asked again where there was no memory for the answer, and `assignable`, which needs none,
/// answers right both ways.
fn judge(alloc: Global, registry: &Registry) -> Result<bool, NoMemory> {
    match registry.is_sound() {
        Ok(true) => Ok(
            stands(alloc, registry, ROOT, "t.Y")? && !stands(alloc, registry, "t.Y", ROOT)?,
        ),
        Ok(false) => Ok(false),
        Err(NoMemory) => Ok(registry.is_sound() == Ok(true)),
    }
}

/// What a name stands for, where there was memory to tell.
type Found = Result<Option<TypeName>, NoMemory>;

/// Whether one type may stand for the other.
fn stands(alloc: Global, registry: &Registry, to: &str, from: &str) -> Result<bool, NoMemory>
    requires { IsSound registry.now }
{
    let to = registry.type_named(alloc, to);
    let from = registry.type_named(alloc, from);
    let right = stands_for(registry, &to, &from);
    drop(from);
    drop(to);
    right
}

fn stands_for(registry: &Registry, to: &Found, from: &Found) -> Result<bool, NoMemory>
    requires { IsSound registry.now }
{
    match (to, from) {
        (Ok(Some(to)), Ok(Some(from))) => Ok(registry.assignable(to, from)),
        (Err(NoMemory), _) | (_, Err(NoMemory)) => Err(NoMemory),
        _ => Ok(false),
    }
}

fn fill_and_judge(
    alloc: Global,
    registry: &mut Registry,
    from: &Registry,
) -> Result<bool, NoMemory> {
    if !fill(alloc, registry, from)? {
        return Ok(false);
    }
    Ok(registry.entities().len() == from.entities().len() && judge(alloc, registry)?)
}

fn run_from(alloc: Global, from: &Registry) -> Result<bool, NoMemory> {
    let mut registry = Registry::new(alloc)?;
    let right = fill_and_judge(alloc, &mut registry, from);
    drop(registry);
    right
}

/// All of it, as far as there is memory.
pub(super) fn run(alloc: Global) -> Result<bool, NoMemory> {
    match &read_registry(alloc, TYPES.as_bytes()) {
        Ok(registry) => run_from(alloc, registry),
        Err(RegError::NoMemory) => Err(NoMemory),
        Err(_) => Ok(false),
    }
}
