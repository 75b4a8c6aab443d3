//! The text of a registry: the first line, and the lines of each entity that is not built in.
ghost use Rattle.std.specs.Prelude.{◌≡◌, ◌++◌, ◌∷◌, [], map, OnOk, IfOk, codes};
ghost use Rattle.std.specs.List.{flat_map, list_any};
ghost use Rattle.std.specs.Str.{bytes_eq};
ghost use Rattle.uno_entities.specs.Entities.{body_of, entity_of, entities_of, service_of, singleton_of};
ghost use Rattle.uno_entities.specs.TypeNames.{kind_of};
ghost use Rattle.uno_entities.specs.declared.entity.Body.TheVariants as body;
ghost use Rattle.registry_text_model.specs.Lines.{spaced, text_of, name_and_base, header_words, header_line, body_lines, entity_lines, is_built_in_name, written, registry_lines, registry_text};

use crate::line::{push_last, push_named, push_type, push_word};
use crate::members::{push_bases, push_members};
use crate::parts::{push_constants, push_constructors, push_fields, push_items};
use crate::properties::push_parts;
use std::alloc::Global;
use uno_base::NoMemory;
use uno_types::{Body, Entity, Name, Registry, Service, Singleton, TypeName};

/// The names of the entities that are in every registry, and are not written.
const BUILT_IN: [&str; 5] = [
    "com.sun.star.lang.DisposedException",
    "com.sun.star.lang.XMultiServiceFactory",
    "com.sun.star.uno.Exception",
    "com.sun.star.uno.RuntimeException",
    "com.sun.star.uno.XInterface",
];

/// So many bytes are as a rule enough for the lines of an entity.
const USUAL_ROOM: usize = 384;

fn is_among(name: &str, words: &[&str]) -> bool
    ensures { result ≡ list_any (λ word. bytes_eq name.now word.now) words.now }
{
    words.iter().any(|word| name == *word)
}

/// Whether an entity of this name is built in.
#[tactic(auto, unfolding(registry_text_model::specs::Lines::is_built_in_name))]
pub fn is_built_in_name(name: &str) -> bool
    ensures { result ≡ is_built_in_name name.now }
{
    is_among(name, &BUILT_IN)
}

/// A name, and the base behind it where there is one.
#[tactic(auto, using(crate::proofs::TextLemmas::spaced_line))]
fn push_name_and_base(text: &mut Vec<u8>, name: &str, base: &Option<Name>) -> Result<(), NoMemory>
    ensures { OnOk result (text.new.items ≡ text.old.items ++ text_of (name_and_base name.now base.now ∷ [])) }
{
    match base {
        Some(base) => push_named(text, name, base.as_str()),
        None => push_last(text, name),
    }
}

#[tactic(auto, using(crate::proofs::TextLemmas::spaced_line))]
fn push_derived(
    text: &mut Vec<u8>,
    word: &str,
    name: &str,
    base: &Option<Name>,
) -> Result<(), NoMemory>
    ensures { OnOk result (text.new.items ≡ text.old.items ++ text_of (spaced word.now (name_and_base name.now base.now) ∷ [])) }
{
    push_word(text, word)?;
    push_name_and_base(text, name, base)
}

#[tactic(auto, using(crate::proofs::TextLemmas::spaced_line))]
fn push_typedef(text: &mut Vec<u8>, name: &str, kind: &TypeName) -> Result<(), NoMemory>
    ensures { OnOk result (text.new.items ≡ text.old.items ++ text_of (header_words name.now (body_of (body.Typedef kind.now)) ∷ [])) }
{
    push_word(text, "typedef")?;
    push_word(text, name)?;
    push_type(text, kind)
}

/// Two words, a name and another one behind them.
#[tactic(auto, using(crate::proofs::TextLemmas::spaced_line))]
fn push_of_form(
    text: &mut Vec<u8>,
    word: &str,
    name: &str,
    form: &str,
    of: &str,
) -> Result<(), NoMemory>
    ensures { OnOk result (text.new.items ≡ text.old.items ++ text_of (spaced word.now (spaced name.now (spaced form.now of.now)) ∷ [])) }
{
    push_word(text, word)?;
    push_word(text, name)?;
    push_named(text, form, of)
}

#[tactic(auto, using(crate::proofs::TextLemmas::spaced_line))]
fn push_service(text: &mut Vec<u8>, name: &str, service: &Service) -> Result<(), NoMemory>
    ensures { OnOk result (text.new.items ≡ text.old.items ++ text_of (header_words name.now (service_of service.now) ∷ [])) }
{
    match service {
        Service::New { base, .. } => push_of_form(text, "service", name, "new", base.as_str()),
        Service::Old { .. } => {
            push_word(text, "service")?;
            push_named(text, name, "old")
        }
    }
}

fn push_singleton(text: &mut Vec<u8>, name: &str, singleton: &Singleton) -> Result<(), NoMemory>
    ensures { OnOk result (text.new.items ≡ text.old.items ++ text_of (header_words name.now (singleton_of singleton.now) ∷ [])) }
{
    match singleton {
        Singleton::New { base } => push_of_form(text, "singleton", name, "new", base.as_str()),
        Singleton::Old { service } => {
            push_of_form(text, "singleton", name, "old", service.as_str())
        }
    }
}

fn push_header_words(text: &mut Vec<u8>, name: &str, body: &Body) -> Result<(), NoMemory>
    ensures { OnOk result (text.new.items ≡ text.old.items ++ text_of (header_words name.now (body_of body.now) ∷ [])) }
{
    match body {
        Body::Interface { .. } => push_named(text, "interface", name),
        Body::Struct { base, .. } => push_derived(text, "struct", name, base),
        Body::Exception { base, .. } => push_derived(text, "exception", name, base),
        Body::Enum { .. } => push_named(text, "enum", name),
        Body::Constants { .. } => push_named(text, "constants", name),
        Body::Typedef { kind } => push_typedef(text, name, kind),
        Body::Service(service) => push_service(text, name, service),
        Body::Singleton(singleton) => push_singleton(text, name, singleton),
    }
}

#[tactic(auto, using(crate::proofs::TextLemmas::spaced_line))]
fn push_header(text: &mut Vec<u8>, entity: &Entity) -> Result<(), NoMemory>
    ensures { OnOk result (text.new.items ≡ text.old.items ++ text_of (header_line (entity_of entity.now) ∷ [])) }
{
    if entity.published {
        push_word(text, "published")?;
        return push_header_words(text, entity.name.as_str(), &entity.body);
    }
    push_header_words(text, entity.name.as_str(), &entity.body)
}

#[tactic(auto, using(crate::proofs::TextLemmas::lines_more, crate::proofs::TextLemmas::no_lines))]
fn push_body(alloc: Global, text: &mut Vec<u8>, body: &Body) -> Result<(), NoMemory>
    ensures { OnOk result (text.new.items ≡ text.old.items ++ text_of (body_lines (body_of body.now))) }
{
    match body {
        Body::Interface { bases, members } => {
            push_bases(text, bases)?;
            push_members(text, members)
        }
        Body::Struct { members, .. } | Body::Exception { members, .. } => {
            push_fields(text, members)
        }
        Body::Enum { items } => push_items(alloc, text, items),
        Body::Constants { constants } => push_constants(alloc, text, constants),
        Body::Service(Service::New { constructors, .. }) => push_constructors(text, constructors),
        Body::Service(Service::Old { parts }) => push_parts(alloc, text, parts),
        Body::Typedef { .. } | Body::Singleton(_) => Ok(()),
    }
}

#[tactic(auto, using(crate::proofs::TextLemmas::lines_more))]
fn push_entity(alloc: Global, text: &mut Vec<u8>, entity: &Entity) -> Result<(), NoMemory>
    ensures { OnOk result (text.new.items ≡ text.old.items ++ text_of (entity_lines (entity_of entity.now))) }
{
    push_header(text, entity)?;
    push_body(alloc, text, &entity.body)?;
    push_last(text, "end")
}

/// The lines of an entity that is not built in.
#[tactic(auto, using(crate::proofs::TextLemmas::no_lines, crate::proofs::TextLemmas::one_written, crate::proofs::TextLemmas::one_left_out))]
fn push_unless_built_in(alloc: Global, text: &mut Vec<u8>, entity: &Entity) -> Result<(), NoMemory>
    ensures { OnOk result (text.new.items ≡ text.old.items ++ text_of (flat_map entity_lines (written (entity_of entity.now ∷ [])))) }
{
    if is_built_in_name(entity.name.as_str()) {
        return Ok(());
    }
    push_entity(alloc, text, entity)
}

fn push_entities(alloc: Global, text: &mut Vec<u8>, entities: &[Entity]) -> Result<(), NoMemory>
    ensures { OnOk result (text.new.items ≡ text.old.items ++ text_of (flat_map entity_lines (written (entities_of entities.now)))) }
{
    for entity in entities {
        push_unless_built_in(alloc, text, entity)?;
    }
    Ok(())
}

/// The text of a registry. Built-in entities are in every registry, and are not written.
#[tactic(auto, using(crate::proofs::TextLemmas::lines_more))]
pub fn write_registry(alloc: Global, registry: &Registry) -> Result<Vec<u8>, NoMemory>
    ensures { IfOk result (λ text. text.items ≡ registry_text registry.now) }
{
    let entities = registry.entities();
    let mut text = Vec::with_capacity(alloc, entities.len().saturating_mul(USUAL_ROOM))?;
    push_last(&mut text, "unoreg 1")?;
    push_entities(alloc, &mut text, entities)?;
    Ok(text)
}
