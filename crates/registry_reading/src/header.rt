//! The first line of an entity.
ghost use Rattle.std.specs.Prelude.{◌≡◌, ℕ, List, [], IfOk, Some, None, option_map, codes};
ghost use Rattle.uno_model.specs.Entities as plain;
ghost use Rattle.uno_entities.specs.Entities.{body_of, entity_of, service_of, singleton_of};
ghost use Rattle.registry_reading_model.specs.Headers as model;
ghost use Rattle.registry_reading_model.specs.Bodies.{changed_kind};
ghost use Rattle.registry_reading_model.specs.Heads.{named_in};
ghost use Rattle.registry_reading_model.specs.Kept.{kept};
ghost use Rattle.registry_reading_model.specs.Words.{on_some, where_, behind, entity_name_of, word_of};
ghost use Rattle.registry_reading.specs.Views.{both, one};

use crate::heads::Heads;
use crate::kind::kind;
use crate::names::entity_name;
use crate::words::{behind, word};
use reg_text::is_built_in_name;
use std::alloc::Global;
use uno_base::NoMemory;
use uno_types::{Body, Entity, Name, Service, Singleton};

/// The entity that a header opens, perhaps behind `published`.
#[tactic(auto, unfolding(registry_reading_model::specs::Headers::header_of))]
pub(crate) fn header(
    alloc: Global,
    heads: &Heads<'_>,
    line: &str,
) -> Result<Option<Entity>, NoMemory>
    ensures { IfOk result (λ e. option_map entity_of e ≡ model.header_of (kept (named_in heads.now)) line.now) }
{
    match behind(line, "published ") {
        Some(words) => opened(alloc, heads, true, words),
        None => opened(alloc, heads, false, line),
    }
}

#[tactic(auto, unfolding(registry_reading_model::specs::Headers::words_opened))]
fn opened(
    alloc: Global,
    heads: &Heads<'_>,
    published: bool,
    text: &str,
) -> Result<Option<Entity>, NoMemory>
    ensures { IfOk result (λ e. option_map entity_of e ≡ model.words_opened (kept (named_in heads.now)) published text.now) }
{
    let Some((first, behind)) = word(text) else {
        return Ok(None);
    };
    match word(behind) {
        Some((name, rest)) => with_rest(alloc, heads, published, first, name, rest),
        None => alone(alloc, heads, published, first, behind),
    }
}

/// Whether an entity of a text may have this name.
fn is_free_name(heads: &Heads<'_>, name: &str) -> bool
    ensures { result ≡ model.is_free_name name.now }
{
    heads.is_entity_name(name) && !is_built_in_name(name)
}

/// A header with nothing behind its name.
fn alone(
    alloc: Global,
    heads: &Heads<'_>,
    published: bool,
    first: &str,
    name: &str,
) -> Result<Option<Entity>, NoMemory>
    ensures { IfOk result (λ e. option_map entity_of e ≡ where_ (model.is_free_name name.now) (on_some (model.opened_alone first.now) (λ body. Some (record { name = name.now; published = published; body = body })))) }
{
    if !is_free_name(heads, name) {
        return Ok(None);
    }
    let name = Name::of(alloc, name)?;
    match opened_alone(alloc, first) {
        Some(body) => Ok(Some(Entity {
            name,
            published,
            body,
        })),
        None => Ok(None),
    }
}

#[tactic(auto, unfolding(registry_reading_model::specs::Headers::opened_alone))]
fn opened_alone(alloc: Global, first: &str) -> Option<Body>
    ensures { option_map body_of result ≡ model.opened_alone first.now }
{
    match first {
        "interface" => Some(Body::Interface {
            bases: Vec::new(alloc),
            members: Vec::new(alloc),
        }),
        "struct" => Some(Body::Struct {
            base: None,
            members: Vec::new(alloc),
        }),
        "exception" => Some(Body::Exception {
            base: None,
            members: Vec::new(alloc),
        }),
        "enum" => Some(Body::Enum {
            items: Vec::new(alloc),
        }),
        "constants" => Some(Body::Constants {
            constants: Vec::new(alloc),
        }),
        _ => None,
    }
}

/// A header with something behind its name.
fn with_rest(
    alloc: Global,
    heads: &Heads<'_>,
    published: bool,
    first: &str,
    name: &str,
    rest: &str,
) -> Result<Option<Entity>, NoMemory>
    ensures { IfOk result (λ e. option_map entity_of e ≡ where_ (model.is_free_name name.now) (on_some (model.opened_with (kept (named_in heads.now)) first.now rest.now) (λ body. Some (record { name = name.now; published = published; body = body })))) }
{
    if !is_free_name(heads, name) {
        return Ok(None);
    }
    let name = Name::of(alloc, name)?;
    match opened_with(alloc, heads, first, rest)? {
        Some(body) => Ok(Some(Entity {
            name,
            published,
            body,
        })),
        None => Ok(None),
    }
}

#[tactic(auto, unfolding(registry_reading_model::specs::Headers::opened_with))]
fn opened_with(
    alloc: Global,
    heads: &Heads<'_>,
    first: &str,
    rest: &str,
) -> Result<Option<Body>, NoMemory>
    ensures { IfOk result (λ body. option_map body_of body ≡ model.opened_with (kept (named_in heads.now)) first.now rest.now) }
{
    match first {
        "struct" => struct_over(alloc, heads, rest),
        "exception" => exception_over(alloc, heads, rest),
        "typedef" => typedef(alloc, heads, rest),
        "service" => service(alloc, heads, rest),
        "singleton" => singleton(alloc, heads, rest),
        _ => Ok(None),
    }
}

fn struct_over(alloc: Global, heads: &Heads<'_>, base: &str) -> Result<Option<Body>, NoMemory>
    ensures { IfOk result (λ body. option_map body_of body ≡ on_some (entity_name_of base.now) (λ name. Some (plain.struct (Some name) []))) }
{
    let Some(base) = entity_name(alloc, heads, base)? else {
        return Ok(None);
    };
    Ok(Some(Body::Struct {
        base: Some(base),
        members: Vec::new(alloc),
    }))
}

fn exception_over(alloc: Global, heads: &Heads<'_>, base: &str) -> Result<Option<Body>, NoMemory>
    ensures { IfOk result (λ body. option_map body_of body ≡ on_some (entity_name_of base.now) (λ name. Some (plain.exception (Some name) []))) }
{
    let Some(base) = entity_name(alloc, heads, base)? else {
        return Ok(None);
    };
    Ok(Some(Body::Exception {
        base: Some(base),
        members: Vec::new(alloc),
    }))
}

fn typedef(alloc: Global, heads: &Heads<'_>, text: &str) -> Result<Option<Body>, NoMemory>
    ensures { IfOk result (λ body. option_map body_of body ≡ on_some (changed_kind (kept (named_in heads.now)) text.now) (λ k. Some (plain.typedef k))) }
{
    match kind(alloc, heads, text)? {
        Some(kind) => Ok(Some(Body::Typedef { kind })),
        None => Ok(None),
    }
}

fn service(alloc: Global, heads: &Heads<'_>, rest: &str) -> Result<Option<Body>, NoMemory>
    ensures { IfOk result (λ body. option_map body_of body ≡ model.service_opened rest.now) }
{
    if rest == "old" {
        return Ok(Some(Body::Service(Service::Old {
            parts: Vec::new(alloc),
        })));
    }
    let Some(base) = behind(rest, "new ") else {
        return Ok(None);
    };
    let Some(base) = entity_name(alloc, heads, base)? else {
        return Ok(None);
    };
    Ok(Some(Body::Service(Service::New {
        base,
        constructors: Vec::new(alloc),
    })))
}

fn singleton(alloc: Global, heads: &Heads<'_>, rest: &str) -> Result<Option<Body>, NoMemory>
    ensures { IfOk result (λ body. option_map body_of body ≡ on_some (word_of rest.now) (λ x. on_some (entity_name_of x.1) (model.singleton_of x.0))) }
{
    let Some((form, of)) = word(rest) else {
        return Ok(None);
    };
    let Some(name) = entity_name(alloc, heads, of)? else {
        return Ok(None);
    };
    Ok(singleton_of_form(form, name))
}

fn singleton_of_form(form: &str, name: Name) -> Option<Body>
    ensures { option_map body_of result ≡ model.singleton_of form.now name }
{
    match form {
        "new" => Some(Body::Singleton(Singleton::New { base: name })),
        "old" => Some(Body::Singleton(Singleton::Old { service: name })),
        _ => None,
    }
}
