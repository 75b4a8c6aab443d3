//! Names, texts, identities, types and registries that are copied.
ghost use Rattle.uno_model.specs.Sound.{IsSound};

use crate::judging::see;
use registry_reading::read_registry;
use std::alloc::Global;
use std::process::Abort;
use uno_base::NoMemory;
use uno_types::{Name, Registry, Text, Tid, TypeName};

fn name_copy(alloc: Global, text: &str) -> Result<bool, NoMemory> {
    let name = Name::of(alloc, text)?;
    let copy = name.copy()?;
    Ok(copy.is(&name) && copy.as_str() == text)
}

fn text_copy(alloc: Global, text: &str) -> Result<bool, NoMemory> {
    let original = Text::of(alloc, text)?;
    let copy = original.copy()?;
    drop(original);
    Ok(copy.as_str() == text)
}

fn tid_copy(alloc: Global, text: &str) -> Result<bool, NoMemory> {
    let original = Tid::of(alloc, text.as_bytes())?;
    let copy = original.copy()?;
    drop(original);
    Ok(copy.as_bytes() == text.as_bytes())
}

/// Whether a copy of each has what it was copied from.
pub(crate) fn are_copied(alloc: Global, text: &str) -> Result<bool, NoMemory> {
    Ok(name_copy(alloc, text)? && text_copy(alloc, text)? && tid_copy(alloc, text)?)
}

/// Whether the copy of the type of this name is equal.
pub(crate) fn kind_is_copied(
    alloc: Global,
    registry: &Registry,
    name: &str,
) -> Result<bool, NoMemory>
    requires { IsSound registry.now }
{
    let found = registry.type_named(alloc, name);
    let right = found_copy(alloc, &found);
    drop(found);
    right
}

fn found_copy(alloc: Global, found: &Result<Option<TypeName>, NoMemory>) -> Result<bool, NoMemory> {
    match found {
        Ok(Some(kind)) => kind_copy(alloc, kind),
        Ok(None) => Ok(false),
        Err(NoMemory) => Err(NoMemory),
    }
}

fn kind_copy(alloc: Global, kind: &TypeName) -> Result<bool, NoMemory> {
    match &kind.copy(alloc) {
        Ok(copy) => Ok(copy.is(kind)),
        Err(NoMemory) => Err(NoMemory),
    }
}

/// What is copied as a name, as a text and as an identity.
const COPIED: &[&str] = &[
    "",
    "demo.XEcho",
    "z\u{e9}\u{0}\u{1F600}",
    "[][]interface/t.X",
    "enum/t.E",
    "struct/t.S",
    "exception/t.F",
    "any",
];

/// Types of the registry below: an interface in sequences, an enum, a struct, an exception and two simple ones.
const TYPES: &[&str] = &["[][]t.XAll", "t.Hue", "t.Base", "t.Failed", "any", "long"];

/// An entity of each kind, and those that they name.
const KINDS: &str = "unoreg 1\n\
    struct t.Base\nmember What type\nmember Some any\nend\n\
    struct t.Derived t.Base\nend\n\
    exception t.Failed com.sun.star.uno.Exception\nmember Code long\nend\n\
    enum t.Hue\nvalue RED 0\nvalue BLUE 0\nend\n\
    service t.New new t.XAll\nconstructor make\nparam in a long\nrest others\nraises t.Failed\nend\n\
    constants t.Numbers\nconst LEAST 0 hyper\nconst MOST 0 unsigned hyper\nend\n\
    service t.Old old\ninterface t.XAll\noptservice t.New\nproperty Width - short\nend\n\
    typedef t.Other t.Failed\nend\n\
    interface t.XAll\nbase com.sun.star.uno.XInterface\noptional t.XOther\n\
    attribute Name rw string\nattribute Size ro []unsigned hyper\n\
    method work t.Base\nparam in a t.Hue\nparam out b t.Derived\nparam inout c com.sun.star.uno.XInterface\n\
    raises t.Failed\nraises com.sun.star.uno.Exception\nend\n\
    interface t.XOther\nbase com.sun.star.uno.XInterface\nend\n\
    singleton t.oldSingle old t.Old\nend\n\
    singleton t.single new t.XAll\nend\n";

/// Whether a copy has as many entities, and is sound as the registry is.
fn is_copied(registry: &Registry) -> bool {
    match &registry.copy() {
        Ok(copy) => {
            copy.entities().len() == registry.entities().len() && copy.is_sound() == Ok(true)
        }
        Err(_) => false,
    }
}

fn see_registry(rt: &impl Abort, alloc: Global, registry: &Registry)
    requires { IsSound registry.now }
{
    see(rt, registry.entities().len() == 17, "all entities");
    see(rt, is_copied(registry), "a registry");
    for name in TYPES {
        see(rt, kind_is_copied(alloc, registry, name) == Ok(true), name);
    }
}

#[test]
fn copies_are_equal(rt: HostRuntime) {
    for text in COPIED {
        see(&rt, are_copied(rt.alloc(), text) == Ok(true), text);
    }
}

#[test]
fn a_registry_with_an_entity_of_each_kind_is_copied_and_so_are_its_types(rt: HostRuntime) {
    match read_registry(rt.alloc(), KINDS.as_bytes()) {
        Ok(registry) => {
            see_registry(&rt, rt.alloc(), &registry);
            drop(registry);
        }
        Err(_) => see(&rt, false, "no registry"),
    }
}
