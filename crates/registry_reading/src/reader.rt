//! What was read of a text, and one line more.
ghost use Rattle.std.specs.Prelude.{◌≡◌, ◌≢◌, ◌++◌, ◌∷◌, [], true, Ok, Err, IfOk, IfErr, OnOk, option_map, Some, None};
ghost use Rattle.uno_model.specs.BuiltIn.{HasBuiltIn};
ghost use Rattle.uno_model.specs.Registry.{IsRising};
ghost use Rattle.uno_entities.specs.Entities.{entity_of};
ghost use Rattle.registry_text_model.specs.Lines.{written};
ghost use Rattle.registry_reading_model.specs.Headers.{is_free_name};
ghost use Rattle.registry_reading_model.specs.Heads.{named_in};
ghost use Rattle.registry_reading_model.specs.Kept.{kept};
ghost use Rattle.registry_reading_model.specs.States as model;
ghost use Rattle.registry_reading.specs.Readers.{state_of, IsRead};
ghost use Rattle.registry_reading.specs.declared.reader.Wrong.TheVariants as wrong;

use crate::body::body_line;
use crate::header::header;
use crate::heads::Heads;
use std::alloc::{AllocFailed, Global};
use uno_base::NoMemory;
use uno_types::{AddError, Entity, Name, Registry};

/// Why a line is not taken.
#[derive(Clone, Copy)]
pub(crate) enum Wrong {
    NoMemory,
    /// It may not stand there.
    Bad,
    /// Its name is not above the one before it.
    OutOfOrder,
}

impl From<NoMemory> for Wrong {
    ghost from_gives = { λ _ e. e ≡ wrong.NoMemory };

    fn from(_: NoMemory) -> Wrong {
        Wrong::NoMemory
    }
}

impl<T: Drop> From<AllocFailed<T>> for Wrong {
    ghost from_gives = { λ _ e. e ≡ wrong.NoMemory };

    fn from(_: AllocFailed<T>) -> Wrong {
        Wrong::NoMemory
    }
}

/// The entities that were read, the name of the last of them, and the one of which lines are read.
#[derive(Drop)]
pub(crate) struct Reader {
    pub registry: Registry,
    pub last: Option<Name>,
    pub entity: Option<Entity>,
}

impl Reader {
    /// Behind the first line.
    pub(crate) fn new(alloc: Global) -> Result<Reader, NoMemory>
        ensures state { IfOk result (λ reader. state_of reader ≡ model.between []) }
        ensures read { IfOk result IsRead }
    {
        let registry = Registry::new(alloc)?;
        Ok(Reader {
            registry,
            last: None,
            entity: None,
        })
    }

    /// One line more.
    pub(crate) fn line(self, alloc: Global, heads: &Heads<'_>, line: &str) -> Result<Reader, Wrong>
        requires { IsRead self }
        ensures next { IfOk result (λ next. model.step true (kept (named_in heads.now)) (state_of self) line.now ≡ Ok (state_of next)) }
        ensures read { IfOk result IsRead }
        ensures bad { result ≡ Err Wrong.Bad → model.step true (kept (named_in heads.now)) (state_of self) line.now ≡ Err model.bad }
        ensures order { result ≡ Err Wrong.OutOfOrder → model.step true (kept (named_in heads.now)) (state_of self) line.now ≡ Err model.out_of_order }
    {
        let Reader {
            registry,
            last,
            entity,
        } = self;
        match entity {
            None => begun(alloc, heads, registry, last, line),
            Some(entity) => gone_on(alloc, heads, registry, last, entity, line),
        }
    }
}

/// A header, whose name is above the last.
#[tactic(auto, unfolding(registry_reading_model::specs::States::step))]
fn begun(
    alloc: Global,
    heads: &Heads<'_>,
    registry: Registry,
    last: Option<Name>,
    line: &str,
) -> Result<Reader, Wrong>
    requires { last ≡ model.last_name (written registry) }
    ensures next { IfOk result (λ next. model.step true (kept (named_in heads.now)) (model.between (written registry)) line.now ≡ Ok (state_of next)) }
    ensures read { IfOk result IsRead }
    ensures bad { result ≡ Err Wrong.Bad → model.step true (kept (named_in heads.now)) (model.between (written registry)) line.now ≡ Err model.bad }
    ensures order { result ≡ Err Wrong.OutOfOrder → model.step true (kept (named_in heads.now)) (model.between (written registry)) line.now ≡ Err model.out_of_order }
{
    match header(alloc, heads, line) {
        Ok(Some(entity)) => {
            if !is_above(&last, entity.name.as_str()) {
                drop(entity);
                drop(last);
                drop(registry);
                return Err(Wrong::OutOfOrder);
            }
            Ok(Reader {
                registry,
                last,
                entity: Some(entity),
            })
        }
        Ok(None) => {
            drop(last);
            drop(registry);
            Err(Wrong::Bad)
        }
        Err(_) => {
            drop(last);
            drop(registry);
            Err(Wrong::NoMemory)
        }
    }
}

fn is_above(last: &Option<Name>, name: &str) -> bool
    ensures { result ≡ model.is_above_name last.now name.now }
{
    match last {
        Some(last) => last.as_str() < name,
        None => true,
    }
}

/// A line under a header, or the end of the entity.
#[tactic(auto, unfolding(registry_reading_model::specs::States::step))]
fn gone_on(
    alloc: Global,
    heads: &Heads<'_>,
    registry: Registry,
    last: Option<Name>,
    entity: Entity,
    line: &str,
) -> Result<Reader, Wrong>
    requires last { last ≡ model.last_name (written registry) }
    requires above { model.is_above (written registry) entity.name ≡ true }
    requires free { is_free_name entity.name ≡ true }
    ensures next { IfOk result (λ next. model.step true (kept (named_in heads.now)) (model.within (written registry) (entity_of entity)) line.now ≡ Ok (state_of next)) }
    ensures read { IfOk result IsRead }
    ensures bad { result ≡ Err Wrong.Bad → model.step true (kept (named_in heads.now)) (model.within (written registry) (entity_of entity)) line.now ≡ Err model.bad }
    ensures order { result ≢ Err Wrong.OutOfOrder }
{
    if line == "end" {
        drop(last);
        return ended(registry, entity);
    }
    let mut entity = entity;
    let Ok(taken) = body_line(alloc, heads, &mut entity.body, line) else {
        drop(entity);
        drop(last);
        drop(registry);
        return Err(Wrong::NoMemory);
    };
    if !taken {
        drop(entity);
        drop(last);
        drop(registry);
        return Err(Wrong::Bad);
    }
    Ok(Reader {
        registry,
        last,
        entity: Some(entity),
    })
}

/// Behind the end of an entity.
fn ended(registry: Registry, entity: Entity) -> Result<Reader, Wrong>
    requires above { model.is_above (written registry) entity.name ≡ true }
    requires free { is_free_name entity.name ≡ true }
    ensures next { IfOk result (λ next. state_of next ≡ model.between (written registry ++ entity_of entity ∷ [])) }
    ensures read { IfOk result IsRead }
    ensures error { IfErr result (λ e. e ≡ Wrong.NoMemory) }
{
    let Ok(name) = entity.name.copy() else {
        drop(entity);
        drop(registry);
        return Err(Wrong::NoMemory);
    };
    say_what_is_kept(&registry);
    let mut registry = registry;
    match registry.add(entity) {
        Ok(()) => Ok(between(registry, name)),
        Err(AddError::NoMemory) => {
            drop(name);
            drop(registry);
            Err(Wrong::NoMemory)
        }
        Err(AddError::Twice) => unreachable!(),
    }
}

/// Between entities, behind the one of this name.
fn between(registry: Registry, last: Name) -> Reader
    ensures state { state_of result ≡ model.between (written registry) }
    ensures last { result.last ≡ Some last }
    ensures same { result.registry ≡ registry }
    ensures entity { result.entity ≡ None }
    ensures rising { IsRising registry }
{
    say_what_is_kept(&registry);
    Reader {
        registry,
        last: Some(last),
        entity: None,
    }
}

/// Does nothing: the clauses say what each registry keeps, where a proof asks for it.
pub(crate) fn say_what_is_kept(registry: &Registry)
    ensures rising { IsRising registry.now }
    ensures built_in { HasBuiltIn registry.now }
{
    registry.entities();
}
