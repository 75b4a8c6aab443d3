//! The tokens of a declaration, but for the `;` at its end.
ghost use Rattle.std.specs.Prelude.{◌≡◌, ◌++◌, ◌∷◌, [], map, OnOk, codes, None};
ghost use Rattle.std.specs.List.{flat_map};
ghost use Rattle.uno_model.specs.Entities as plain;
ghost use Rattle.uno_entities.specs.Entities.{body_of, base_of, member_of, field_of, item_of, constant_of, service_of, singleton_of};
ghost use Rattle.uno_entities.specs.TypeNames.{kind_of};
ghost use Rattle.registry_text_model.specs.Canonical.{absolute, kind_tokens, declaration, base_tokens, field_tokens, published_flag, behind_colon};
ghost use Rattle.idl_print.specs.Tokens.{followed, tokens_at};

use crate::interface::{push_bases, push_members, push_named, push_only_base};
use crate::service::{push_constructors, push_parts};
use crate::token::{push_behind_colon, push_kind, push_token, push_tokens};
use crate::value::{push_base, push_constants, push_fields, push_items};
use std::alloc::Global;
use uno_base::NoMemory;
use uno_types::{Base, Body, Constant, Field, Item, Member, Name, Service, Singleton, TypeName};

#[tactic(auto, using(crate::proofs::TokenLemmas::tokens_more, crate::proofs::TokenLemmas::no_tokens))]
fn push_interface(
    text: &mut Vec<u8>,
    id: &str,
    bases: &[Base],
    members: &[Member],
) -> Result<(), NoMemory>
    ensures { OnOk result (text.new.items ≡ text.old.items ++ followed (declaration id.now (plain.interface (map base_of bases.now) (map member_of members.now)))) }
{
    push_tokens(text, &["interface", id])?;
    push_only_base(text, bases)?;
    push_token(text, "{")?;
    push_bases(text, bases)?;
    push_members(text, members)?;
    push_token(text, "}")
}

/// A struct or an exception.
#[tactic(auto, using(crate::proofs::TokenLemmas::tokens_more, crate::proofs::TokenLemmas::no_tokens))]
fn push_fields_of(
    text: &mut Vec<u8>,
    word: &str,
    id: &str,
    base: &Option<Name>,
    members: &[Field],
) -> Result<(), NoMemory>
    ensures { OnOk result (text.new.items ≡ text.old.items ++ followed (word.now ∷ (id.now ∷ (base_tokens base.now ++ (codes "{" ∷ (flat_map field_tokens (map field_of members.now) ++ codes "}" ∷ [])))))) }
{
    push_tokens(text, &[word, id])?;
    push_base(text, base)?;
    push_token(text, "{")?;
    push_fields(text, members)?;
    push_token(text, "}")
}

#[tactic(auto, using(crate::proofs::TokenLemmas::tokens_more, crate::proofs::TokenLemmas::no_tokens))]
fn push_enum(alloc: Global, text: &mut Vec<u8>, id: &str, items: &[Item]) -> Result<(), NoMemory>
    ensures { OnOk result (text.new.items ≡ text.old.items ++ followed (declaration id.now (plain.enum (map item_of items.now)))) }
{
    push_tokens(text, &["enum", id, "{"])?;
    push_items(alloc, text, items)?;
    push_token(text, "}")
}

#[tactic(auto, using(crate::proofs::TokenLemmas::tokens_more, crate::proofs::TokenLemmas::no_tokens))]
fn push_group(
    alloc: Global,
    text: &mut Vec<u8>,
    id: &str,
    constants: &[Constant],
) -> Result<(), NoMemory>
    ensures { OnOk result (text.new.items ≡ text.old.items ++ followed (declaration id.now (plain.constants (map constant_of constants.now)))) }
{
    push_tokens(text, &["constants", id, "{"])?;
    push_constants(alloc, text, constants)?;
    push_token(text, "}")
}

#[tactic(auto, using(crate::proofs::TokenLemmas::tokens_more, crate::proofs::TokenLemmas::no_tokens))]
fn push_typedef(text: &mut Vec<u8>, id: &str, kind: &TypeName) -> Result<(), NoMemory>
    ensures { OnOk result (text.new.items ≡ text.old.items ++ followed (declaration id.now (plain.typedef (kind_of kind.now)))) }
{
    push_token(text, "typedef")?;
    push_kind(text, kind)?;
    push_token(text, id)
}

#[tactic(auto, using(crate::proofs::TokenLemmas::tokens_more, crate::proofs::TokenLemmas::no_tokens))]
fn push_service(
    alloc: Global,
    text: &mut Vec<u8>,
    id: &str,
    service: &Service,
) -> Result<(), NoMemory>
    ensures { OnOk result (text.new.items ≡ text.old.items ++ followed (declaration id.now (service_of service.now))) }
{
    push_tokens(text, &["service", id])?;
    match service {
        Service::New { base, constructors } => {
            push_behind_colon(text, base.as_str())?;
            push_constructors(text, constructors)
        }
        Service::Old { parts } => {
            push_token(text, "{")?;
            push_parts(alloc, text, parts)?;
            push_token(text, "}")
        }
    }
}

#[tactic(auto, using(crate::proofs::TokenLemmas::tokens_more, crate::proofs::TokenLemmas::no_tokens))]
fn push_singleton(text: &mut Vec<u8>, id: &str, singleton: &Singleton) -> Result<(), NoMemory>
    ensures { OnOk result (text.new.items ≡ text.old.items ++ followed (declaration id.now (singleton_of singleton.now))) }
{
    push_tokens(text, &["singleton", id])?;
    match singleton {
        Singleton::New { base } => push_behind_colon(text, base.as_str()),
        Singleton::Old { service } => push_in_braces(text, service.as_str()),
    }
}

/// The service of a singleton of the old form.
#[tactic(auto, using(crate::proofs::TokenLemmas::tokens_more, crate::proofs::TokenLemmas::no_tokens))]
fn push_in_braces(text: &mut Vec<u8>, service: &str) -> Result<(), NoMemory>
    ensures { OnOk result (text.new.items ≡ text.old.items ++ followed (codes "{" ∷ (codes "service" ∷ (absolute service.now ∷ (codes ";" ∷ (codes "}" ∷ [])))))) }
{
    push_token(text, "{")?;
    push_named(text, "service", service)?;
    push_token(text, "}")
}

#[tactic(auto, using(crate::proofs::TokenLemmas::tokens_more, crate::proofs::TokenLemmas::no_tokens))]
pub(crate) fn push_declaration(
    alloc: Global,
    text: &mut Vec<u8>,
    id: &str,
    body: &Body,
) -> Result<(), NoMemory>
    ensures { OnOk result (text.new.items ≡ text.old.items ++ followed (declaration id.now (body_of body.now))) }
{
    match body {
        Body::Interface { bases, members } => push_interface(text, id, bases, members),
        Body::Struct { base, members } => push_fields_of(text, "struct", id, base, members),
        Body::Exception { base, members } => push_fields_of(text, "exception", id, base, members),
        Body::Enum { items } => push_enum(alloc, text, id, items),
        Body::Constants { constants } => push_group(alloc, text, id, constants),
        Body::Typedef { kind } => push_typedef(text, id, kind),
        Body::Service(service) => push_service(alloc, text, id, service),
        Body::Singleton(singleton) => push_singleton(text, id, singleton),
    }
}
