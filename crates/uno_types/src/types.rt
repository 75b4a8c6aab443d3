//! The types of a registry, by their names.
ghost use Rattle.std.specs.Prelude.{◌≡◌, ℕ, List, ◌++◌, codes, IfOk, MatchOption, IsTrue, option_map};
ghost use Rattle.std.specs.List.{list_all};
ghost use Rattle.uno_model.specs.Kinds.{Kind};
ghost use Rattle.uno_model.specs.NamedTypes.{IsNamed, IsNamedWithin, kind_of_body, word_of, simple_of};
ghost use Rattle.uno_model.specs.Sound.{IsSound, is_named};
ghost use Rattle.uno_entities.specs.Entities.{body_of};
ghost use Rattle.uno_entities.specs.TypeNames.{kind_of};

use crate::{Body, Name, Registry, TypeName};
use std::alloc::Global;
use uno_base::NoMemory;
use uno_entities::{MOST_BYTES, MOST_LEVELS, is_storable};

impl Registry {
    /// The type of this name.
    pub fn type_named(&self, alloc: Global, text: &str) -> Result<Option<TypeName>, NoMemory>
        requires { IsSound self.now }
        ensures { IfOk result (λ found. MatchOption found ((k : Kind) → IsNamed self.now text.now k → ⊥) (λ t. IsNamed self.now text.now (kind_of t))) }
    {
        if text.len() > MOST_BYTES {
            return Ok(None);
        }
        within_levels(alloc, self, text, MOST_LEVELS as u32)
    }
}

/// The type of this name with at most so many sequences round it; as deep as there are.
fn within_levels(
    alloc: Global,
    registry: &Registry,
    text: &str,
    levels: u32,
) -> Result<Option<TypeName>, NoMemory>
    requires { IsTrue (list_all is_named registry.now) }
    ensures { IfOk result (λ found. MatchOption found ((k : Kind) → IsNamedWithin registry.now text.now levels k → ⊥) (λ t. IsNamedWithin registry.now text.now levels (kind_of t))) }
{
    let Some(behind) = behind_brackets(text) else {
        return word_named(alloc, registry, text);
    };
    if levels == 0 {
        return Ok(None);
    }
    let Some(inner) = within_levels(alloc, registry, behind, levels - 1)? else {
        return Ok(None);
    };
    if !is_storable(&inner) {
        drop(inner);
        return Ok(None);
    }
    Ok(Some(TypeName::sequence(alloc, inner)?))
}

/// What stands behind the `[]` in front.
fn behind_brackets(text: &str) -> Option<&str>
    ensures { MatchOption result ((rest : List ℕ) → text.now ≡ codes "[]" ++ rest → ⊥) (λ behind. text.now ≡ codes "[]" ++ behind.now) }
{
    text.strip_prefix("[]")
}

/// The simple type or the entity of this name.
fn word_named(alloc: Global, registry: &Registry, text: &str) -> Result<Option<TypeName>, NoMemory>
    ensures { IfOk result (λ found. option_map kind_of found ≡ word_of registry.now text.now) }
{
    if let Some(kind) = simple_named(text) {
        return Ok(Some(kind));
    }
    match registry.find(text) {
        Some(entity) => entity_type(alloc, text, &entity.body),
        None => Ok(None),
    }
}

#[tactic(auto, unfolding(uno_model::specs::NamedTypes::simple_of))]
fn simple_named(text: &str) -> Option<TypeName>
    ensures { option_map kind_of result ≡ simple_of text.now }
{
    match text {
        "void" => Some(TypeName::Void),
        "char" => Some(TypeName::Char),
        "boolean" => Some(TypeName::Boolean),
        "byte" => Some(TypeName::Byte),
        "short" => Some(TypeName::Short),
        "unsigned short" => Some(TypeName::UnsignedShort),
        "long" => Some(TypeName::Long),
        "unsigned long" => Some(TypeName::UnsignedLong),
        "hyper" => Some(TypeName::Hyper),
        "unsigned hyper" => Some(TypeName::UnsignedHyper),
        "string" => Some(TypeName::Str),
        "type" => Some(TypeName::Kind),
        "any" => Some(TypeName::Any),
        _ => None,
    }
}

/// The type that an entity is; constants, typedefs, services and singletons are none.
fn entity_type(alloc: Global, name: &str, body: &Body) -> Result<Option<TypeName>, NoMemory>
    ensures { IfOk result (λ found. option_map kind_of found ≡ kind_of_body name.now (body_of body.now)) }
{
    match body {
        Body::Interface { .. } => Ok(Some(TypeName::Interface(Name::of(alloc, name)?))),
        Body::Struct { .. } => Ok(Some(TypeName::Struct(Name::of(alloc, name)?))),
        Body::Exception { .. } => Ok(Some(TypeName::Exception(Name::of(alloc, name)?))),
        Body::Enum { .. } => Ok(Some(TypeName::Enum(Name::of(alloc, name)?))),
        Body::Constants { .. } | Body::Typedef { .. } | Body::Service(_) | Body::Singleton(_) => {
            Ok(None)
        }
    }
}
