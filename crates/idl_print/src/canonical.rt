//! Canonical UNOIDL: a line for each entity that is not built in.
ghost use Rattle.std.specs.Prelude.{◌≡◌, ◌++◌, ◌∷◌, [], map, OnOk, IfOk, codes};
ghost use Rattle.std.specs.List.{flat_map};
ghost use Rattle.uno_model.specs.Names.{parts_of};
ghost use Rattle.uno_entities.specs.Entities.{body_of, entity_of, entities_of};
ghost use Rattle.registry_text_model.specs.Canonical.{published_flag, declaration, in_modules, canonical_line, canonical_unoidl};
ghost use Rattle.registry_text_model.specs.Lines.{written};
ghost use Rattle.idl_print.specs.Tokens.{followed, opened, closed, last_part};

use crate::entity::push_declaration;
use crate::token::{push_token, push_tokens};
use reg_text::is_built_in_name;
use std::alloc::Global;
use uno_base::NoMemory;
use uno_types::{Body, Entity, Registry};

/// The modules of a name, opened; what is left is its last part.
fn push_opened<'a>(text: &mut Vec<u8>, name: &'a str) -> Result<&'a str, NoMemory>
    ensures opened { OnOk result (text.new.items ≡ text.old.items ++ followed (opened (parts_of name.now))) }
    ensures last { IfOk result (λ id. id.now ≡ last_part (parts_of name.now)) }
{
    let mut rest = name;
    while let Some((module, behind)) = rest.split_once('.') {
        push_tokens(text, &["module", module, "{"])?;
        rest = behind;
    }
    Ok(rest)
}

/// The modules of a name, closed.
fn push_closed(text: &mut Vec<u8>, name: &str) -> Result<(), NoMemory>
    ensures { OnOk result (text.new.items ≡ text.old.items ++ followed (closed (parts_of name.now))) }
{
    let mut rest = name;
    while let Some((_, behind)) = rest.split_once('.') {
        push_tokens(text, &[";", "}"])?;
        rest = behind;
    }
    Ok(())
}

#[tactic(auto, using(crate::proofs::TokenLemmas::tokens_more, crate::proofs::TokenLemmas::no_tokens))]
fn push_published(text: &mut Vec<u8>, published: bool) -> Result<(), NoMemory>
    ensures { OnOk result (text.new.items ≡ text.old.items ++ followed (published_flag published)) }
{
    if published {
        return push_token(text, "published");
    }
    Ok(())
}

/// A declaration in its modules, but for the last `;`.
fn push_in_modules(
    alloc: Global,
    text: &mut Vec<u8>,
    published: bool,
    name: &str,
    body: &Body,
) -> Result<(), NoMemory>
    ensures { OnOk result (text.new.items ≡ text.old.items ++ followed (in_modules published (body_of body.now) (parts_of name.now))) }
{
    let id = push_opened(text, name)?;
    push_published(text, published)?;
    push_declaration(alloc, text, id, body)?;
    push_closed(text, name)
}

fn push_line(alloc: Global, text: &mut Vec<u8>, entity: &Entity) -> Result<(), NoMemory>
    ensures { OnOk result (text.new.items ≡ text.old.items ++ (canonical_line (entity_of entity.now) ++ 10 ∷ [])) }
{
    push_in_modules(
        alloc,
        text,
        entity.published,
        entity.name.as_str(),
        &entity.body,
    )?;
    text.extend_from_slice(b";\n")?;
    Ok(())
}

fn push_unless_built_in(alloc: Global, text: &mut Vec<u8>, entity: &Entity) -> Result<(), NoMemory>
    ensures { OnOk result (text.new.items ≡ text.old.items ++ canonical_unoidl (entity_of entity.now ∷ [])) }
{
    if is_built_in_name(entity.name.as_str()) {
        return Ok(());
    }
    push_line(alloc, text, entity)
}

/// Canonical UNOIDL of a registry. Built-in entities are in every registry, and are not written.
pub fn print(alloc: Global, registry: &Registry) -> Result<Vec<u8>, NoMemory>
    ensures { IfOk result (λ text. text.items ≡ canonical_unoidl registry.now) }
{
    let mut text = Vec::new(alloc);
    push_entities(alloc, &mut text, registry.entities())?;
    Ok(text)
}

fn push_entities(alloc: Global, text: &mut Vec<u8>, entities: &[Entity]) -> Result<(), NoMemory>
    ensures { OnOk result (text.new.items ≡ text.old.items ++ canonical_unoidl (entities_of entities.now)) }
{
    for entity in entities {
        push_unless_built_in(alloc, text, entity)?;
    }
    Ok(())
}
