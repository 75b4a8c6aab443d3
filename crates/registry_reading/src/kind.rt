//! Types: `[]` any number of times, and a simple type or the name of an entity.
ghost use Rattle.std.specs.Prelude.{◌≡◌, ◌+◌, ◌≤◌, IfOk, min, option_map, Some};
ghost use Rattle.uno_model.specs.NamedTypes.{simple_of};
ghost use Rattle.uno_entities.specs.TypeNames.{kind_of};
ghost use Rattle.registry_reading_model.specs.Bodies.{changed_kind};
ghost use Rattle.registry_reading_model.specs.Heads.{named_in, kind_of_class};
ghost use Rattle.registry_reading_model.specs.Kept.{kept, resolved};
ghost use Rattle.registry_reading_model.specs.Kinds as model;
ghost use Rattle.registry_reading_model.specs.Words.{on_some};
ghost use Rattle.registry_reading.specs.Heads.{plain_head, named_by};

use crate::head::Head;
use crate::heads::{Heads, is_name};
use crate::words::stripped;
use std::alloc::Global;
use uno_base::NoMemory;
use uno_entities::MOST_LEVELS;
use uno_types::{Name, TypeClass, TypeName};

/// The type that a text spells, if it has the form of one. A name that is no type stands as a struct's, of which there is none. Of more
/// `[]` than a type may have one too many is kept.
#[tactic(auto, using(crate::proofs::KindLemmas::changed_is))]
pub(crate) fn kind(
    alloc: Global,
    heads: &Heads<'_>,
    text: &str,
) -> Result<Option<TypeName>, NoMemory>
    ensures { IfOk result (λ k. option_map kind_of k ≡ changed_kind (kept (named_in heads.now)) text.now) }
{
    let (rest, levels) = behind_brackets(text);
    let word = word_kind(alloc, heads, rest)?;
    sequences_of(alloc, word, levels)
}

/// So many sequences of it, where there is one.
fn sequences_of(
    alloc: Global,
    word: Option<TypeName>,
    levels: usize,
) -> Result<Option<TypeName>, NoMemory>
    ensures { IfOk result (λ k. option_map kind_of k ≡ on_some (option_map kind_of word) (λ w. Some (model.sequences levels w))) }
{
    match word {
        Some(word) => Ok(Some(sequences(alloc, word, levels)?)),
        None => Ok(None),
    }
}

/// What stands behind the `[]` in front, and how many of them are kept.
fn behind_brackets(text: &str) -> (&str, usize)
    ensures rest { result.0.now ≡ model.behind_brackets text.now }
    ensures levels { result.1 ≡ min 65 (model.brackets text.now) }
{
    let mut rest = text;
    let mut levels = 0usize;
    while let Some(behind) = stripped(rest, "[]") {
        rest = behind;
        levels = one_more(levels);
    }
    (rest, levels)
}

fn one_more(levels: usize) -> usize
    ensures { result ≡ min 65 (levels + 1) }
{
    if levels > MOST_LEVELS {
        return MOST_LEVELS + 1;
    }
    levels + 1
}

/// So many sequences of it.
fn sequences(alloc: Global, word: TypeName, levels: usize) -> Result<TypeName, NoMemory>
    ensures { IfOk result (λ k. kind_of k ≡ model.sequences levels (kind_of word)) }
{
    let mut kind = word;
    for _ in 0..levels {
        kind = TypeName::sequence(alloc, kind)?;
    }
    Ok(kind)
}

#[tactic(auto, unfolding(registry_reading_model::specs::Kinds::word_kind_of, registry_reading_model::specs::Kept::resolved))]
fn word_kind(alloc: Global, heads: &Heads<'_>, text: &str) -> Result<Option<TypeName>, NoMemory>
    ensures { IfOk result (λ k. option_map kind_of k ≡ on_some (model.word_kind_of text.now) (λ w. Some (resolved (named_in heads.now) w))) }
{
    if let Some(kind) = simple(text) {
        return Ok(Some(kind));
    }
    let head = heads.named(text);
    if !is_name(head, text) {
        return Ok(None);
    }
    let name = Name::of(alloc, text)?;
    Ok(Some(of_class(class_named(head, text), name)))
}

/// No simple type's name has more bytes.
const LONGEST: usize = 14;

#[tactic(auto, unfolding(uno_model::specs::NamedTypes::simple_of))]
fn simple(text: &str) -> Option<TypeName>
    ensures { option_map kind_of result ≡ simple_of text.now }
{
    if text.len() > LONGEST {
        return None;
    }
    match text {
        "void" => Some(TypeName::Void),
        "char" => Some(TypeName::Char),
        "boolean" => Some(TypeName::Boolean),
        "byte" => Some(TypeName::Byte),
        "short" => Some(TypeName::Short),
        "unsigned short" => Some(TypeName::UnsignedShort),
        "long" => Some(TypeName::Long),
        "unsigned long" => Some(TypeName::UnsignedLong),
        "hyper" => Some(TypeName::Hyper),
        "unsigned hyper" => Some(TypeName::UnsignedHyper),
        "string" => Some(TypeName::Str),
        "type" => Some(TypeName::Kind),
        "any" => Some(TypeName::Any),
        _ => None,
    }
}

/// The class of the type that a name stands for, by its header; built-in entities have none.
#[tactic(auto, unfolding(crate::specs::Heads::named_by))]
fn class_named(head: Option<&Head<'_>>, name: &str) -> Option<TypeClass>
    ensures { kind_of_class name.now result ≡ named_by (option_map (λ h. plain_head h.now) head.entry) name.now }
{
    match name {
        "com.sun.star.uno.XInterface" | "com.sun.star.lang.XMultiServiceFactory" => {
            return Some(TypeClass::Interface);
        }
        "com.sun.star.uno.Exception"
        | "com.sun.star.uno.RuntimeException"
        | "com.sun.star.lang.DisposedException" => return Some(TypeClass::Exception),
        _ => {}
    }
    head?.class
}

/// The type of a name that stands for one of this class, or for none.
fn of_class(class: Option<TypeClass>, name: Name) -> TypeName
    ensures { kind_of result ≡ kind_of_class name class }
{
    match class {
        Some(TypeClass::Interface) => TypeName::Interface(name),
        Some(TypeClass::Exception) => TypeName::Exception(name),
        Some(TypeClass::Enum) => TypeName::Enum(name),
        _ => TypeName::Struct(name),
    }
}
