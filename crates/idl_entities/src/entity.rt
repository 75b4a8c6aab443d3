//! The entity that a declaration means.
ghost use Rattle.std.specs.Prelude.{◌≡◌, IfOk};
ghost use Rattle.idl_entities.specs.Telling.{body_told, entity_told, name_told, type_told};
ghost use Rattle.idl_trees.specs.Names.{path_of};
ghost use Rattle.idl_trees.specs.Trees.{declaration_of};
ghost use Rattle.idl_trees.specs.Types.{type_of};
ghost use Rattle.uno_entities.specs.Entities.{body_of, entity_of};
ghost use Rattle.uno_model.specs.Entities as uno;

use crate::fields::{exception_body, struct_body};
use crate::interface::interface_body;
use crate::meanings::Meanings;
use crate::numbers::{constants_body, enum_body};
use crate::service::{new_service_body, old_service_body};
use idl_trees::{Declaration, Path, WrittenType};
use std::alloc::Global;
use uno_base::NoMemory;
use uno_entities::{Body, Entity, Singleton};

/// The entity that a declaration means.
pub fn entity_of<M: Meanings>(alloc: Global, meanings: &M) -> Result<Entity, NoMemory>
    ensures { IfOk result (λ entity. entity_of entity ≡ entity_told (M.telling meanings.now)) }
{
    let body = body_meant(alloc, meanings, meanings.body())?;
    let name = meanings.full_name()?;
    Ok(Entity {
        name,
        published: meanings.is_published(),
        body,
    })
}

#[tactic(auto, unfolding(idl_meaning_model::specs::Meaning::body_meant))]
fn body_meant<M: Meanings>(
    alloc: Global,
    meanings: &M,
    body: &Declaration,
) -> Result<Body, NoMemory>
    requires { declaration_of body.now ≡ (M.telling meanings.now).declared.body }
    ensures { IfOk result (λ meant. body_of meant ≡ body_told (M.telling meanings.now) (declaration_of body.now)) }
{
    match body {
        Declaration::Forward => Ok(Body::Interface {
            bases: Vec::new(alloc),
            members: Vec::new(alloc),
        }),
        Declaration::Interface(base, members) => {
            interface_body(alloc, meanings, base, members.as_slice())
        }
        Declaration::Struct(base, fields) => struct_body(alloc, meanings, base, fields.as_slice()),
        Declaration::Exception(base, fields) => {
            exception_body(alloc, meanings, base, fields.as_slice())
        }
        Declaration::Enum(items) => enum_body(alloc, meanings, items.as_slice()),
        Declaration::Constants(constants) => {
            constants_body(alloc, meanings, constants.as_slice())
        }
        Declaration::Typedef(target) => typedef_body(meanings, target),
        Declaration::NewService(base, constructors) => {
            new_service_body(alloc, meanings, base, constructors.as_slice())
        }
        Declaration::OldService(members) => old_service_body(alloc, meanings, members.as_slice()),
        Declaration::NewSingleton(base) => new_singleton_body(meanings, base),
        Declaration::OldSingleton(service) => old_singleton_body(meanings, service),
    }
}

fn typedef_body<M: Meanings>(meanings: &M, target: &WrittenType) -> Result<Body, NoMemory>
    ensures { IfOk result (λ meant. body_of meant ≡ uno.typedef (type_told (M.telling meanings.now) (type_of target.now))) }
{
    let kind = meanings.kind(target)?;
    Ok(Body::Typedef { kind })
}

fn new_singleton_body<M: Meanings>(meanings: &M, base: &Path) -> Result<Body, NoMemory>
    ensures { IfOk result (λ meant. body_of meant ≡ uno.new_singleton (name_told (M.telling meanings.now) (path_of base.now))) }
{
    let base = meanings.name(base)?;
    Ok(Body::Singleton(Singleton::New { base }))
}

fn old_singleton_body<M: Meanings>(meanings: &M, service: &Path) -> Result<Body, NoMemory>
    ensures { IfOk result (λ meant. body_of meant ≡ uno.old_singleton (name_told (M.telling meanings.now) (path_of service.now))) }
{
    let service = meanings.name(service)?;
    Ok(Body::Singleton(Singleton::Old { service }))
}
