//! Types that are made of their shapes.
ghost use Rattle.std.specs.Prelude.{◌≡◌, ◌<◌, ◌≤◌, IfOk, length, option_map, unwrap_or};
ghost use Rattle.idl_meaning_model.specs.Meaning.{simple_meant};
ghost use Rattle.idl_meant.specs.FullNames.{AreFullNames};
ghost use Rattle.idl_meant.specs.Shaping.{bound_of};
ghost use Rattle.idl_meant.specs.Typing.{end_kind, leaf_kind, shape_kind};
ghost use Rattle.idl_trees.specs.Trees.{declaration_of};
ghost use Rattle.idl_trees.specs.Types.{simple_of, type_of};
ghost use Rattle.idl_types.specs.Kinds.{leaf_of, simple_in};
ghost use Rattle.registry_reading_model.specs.Kinds.{sequences};
ghost use Rattle.uno_entities.specs.Entities.{body_of, entities_of, entity_of};
ghost use Rattle.uno_entities.specs.TypeNames.{kind_of};
ghost use Rattle.uno_model.specs.BuiltIn.{built_in};
ghost use Rattle.uno_model.specs.Kinds as kd;
ghost use Rattle.uno_model.specs.NamedTypes.{kind_of_body, kind_of_entity};
ghost use Rattle.uno_model.specs.Registry.{find_entity};

use crate::full_names::full_name;
use crate::owners::owner;
use crate::shapes::{Leaf, Shape};
use idl_names::{Declared, Paths};
use idl_trees::{Declaration, Simple, WrittenType};
use std::alloc::Global;
use uno_base::NoMemory;
use uno_entities::{Body, Entity, Name, TypeName};

/// What types are made of: the paths by number, with names of theirs, the declarations, those of entities by the numbers of their paths, and what is built in.
#[derive(Clone, Copy)]
pub(crate) struct Types<'a, 'c> {
    pub alloc: Global,
    pub paths: &'c Paths<'a>,
    pub full_names: &'c [Option<Name>],
    pub all: &'c [Declared<'a>],
    pub owners: &'c [Option<u32>],
    pub built_in: &'c [Entity],
}

impl<'a, 'c> Types<'a, 'c> {
    /// The type of this shape.
    pub(crate) fn made(&self, shape: Shape) -> Result<TypeName, NoMemory>
        requires { bound_of shape.leaf ≤ length self.now.paths.now }
        ensures { AreFullNames self.now.paths.now self.now.full_names.now → entities_of self.now.built_in.now ≡ built_in → IfOk result (λ kind. kind_of kind ≡ shape_kind self.now.paths.now self.now.all.now self.now.owners.now shape) }
    {
        let leaf = self.leaf(shape.leaf)?;
        sequences(self.alloc, leaf, shape.sequences)
    }

    fn leaf(&self, leaf: Leaf) -> Result<TypeName, NoMemory>
        requires { bound_of leaf ≤ length self.now.paths.now }
        ensures { AreFullNames self.now.paths.now self.now.full_names.now → entities_of self.now.built_in.now ≡ built_in → IfOk result (λ kind. kind_of kind ≡ leaf_kind self.now.paths.now self.now.all.now self.now.owners.now leaf) }
    {
        match leaf {
            Leaf::Simple(simple) => Ok(simple_type(simple)),
            Leaf::End(number) => self.end(number),
            Leaf::Endless(number) => self.endless(number),
        }
    }

    /// The type at the end of a chain of typedefs.
    fn end(&self, number: u32) -> Result<TypeName, NoMemory>
        requires { number < length self.now.paths.now }
        ensures { AreFullNames self.now.paths.now self.now.full_names.now → entities_of self.now.built_in.now ≡ built_in → IfOk result (λ kind. kind_of kind ≡ end_kind self.now.paths.now self.now.all.now self.now.owners.now number) }
    {
        let name = full_name(self.alloc, self.paths, self.full_names, number)?;
        match owner(self.all, self.owners, number) {
            Some(declared) => Ok(declared_type(declared.body, name)),
            None => Ok(built_in_type(self.built_in, name)),
        }
    }

    fn endless(&self, number: u32) -> Result<TypeName, NoMemory>
        requires { number < length self.now.paths.now }
        ensures { AreFullNames self.now.paths.now self.now.full_names.now → IfOk result (λ kind. kind_of kind ≡ leaf_kind self.now.paths.now self.now.all.now self.now.owners.now (Leaf.Endless number)) }
    {
        let name = full_name(self.alloc, self.paths, self.full_names, number)?;
        Ok(struct_type(name))
    }
}

/// So many sequences round a type.
fn sequences(alloc: Global, kind: TypeName, count: u32) -> Result<TypeName, NoMemory>
    ensures { IfOk result (λ made. kind_of made ≡ sequences count (kind_of kind)) }
{
    let mut made = kind;
    let mut level = 0;
    while level < count {
        made = TypeName::sequence(alloc, made)?;
        level += 1;
    }
    Ok(made)
}

/// The type at the end of a chain of typedefs that is declared so.
fn declared_type(body: &Declaration, name: Name) -> TypeName
    ensures { kind_of result ≡ leaf_of name (declaration_of body.now) }
{
    match body {
        Declaration::Interface(_, _) => TypeName::Interface(name),
        Declaration::Exception(_, _) => TypeName::Exception(name),
        Declaration::Enum(_) => TypeName::Enum(name),
        Declaration::Typedef(target) => target_type(target, name),
        Declaration::Forward => TypeName::Struct(name),
        Declaration::Struct(_, _) => TypeName::Struct(name),
        Declaration::Constants(_) => TypeName::Struct(name),
        Declaration::NewService(_, _) => TypeName::Struct(name),
        Declaration::OldService(_) => TypeName::Struct(name),
        Declaration::NewSingleton(_) => TypeName::Struct(name),
        Declaration::OldSingleton(_) => TypeName::Struct(name),
    }
}

fn target_type(target: &WrittenType, name: Name) -> TypeName
    ensures { kind_of result ≡ unwrap_or (simple_in (type_of target.now)) (kd.struct name) }
{
    match simple_in(target) {
        Some(simple) => simple_type(simple),
        None => TypeName::Struct(name),
    }
}

/// The simple type below all sequences, if no name stands there.
fn simple_in(written: &WrittenType) -> Option<Simple>
    ensures { option_map (λ s. simple_meant (simple_of s)) result ≡ simple_in (type_of written.now) }
{
    match written {
        WrittenType::Simple(_, simple) => Some(*simple),
        WrittenType::Named(_) => None,
        WrittenType::SequenceOf(_, inner) => simple_in(inner),
    }
}

/// `float` and `double` are no types of a registry; they are refused before.
fn simple_type(simple: Simple) -> TypeName
    ensures { kind_of result ≡ simple_meant (simple_of simple) }
{
    match simple {
        Simple::Void => TypeName::Void,
        Simple::Char => TypeName::Char,
        Simple::Boolean => TypeName::Boolean,
        Simple::Byte => TypeName::Byte,
        Simple::Short => TypeName::Short,
        Simple::UnsignedShort => TypeName::UnsignedShort,
        Simple::Long => TypeName::Long,
        Simple::UnsignedLong => TypeName::UnsignedLong,
        Simple::Hyper => TypeName::Hyper,
        Simple::UnsignedHyper => TypeName::UnsignedHyper,
        Simple::Float => TypeName::Void,
        Simple::Double => TypeName::Void,
        Simple::Str => TypeName::Str,
        Simple::Kind => TypeName::Kind,
        Simple::Any => TypeName::Any,
    }
}

/// The type of this name among what is built in; what is not there stands as a struct.
fn built_in_type(built_in: &[Entity], name: Name) -> TypeName
    ensures { kind_of result ≡ unwrap_or (kind_of_entity name (find_entity name (entities_of built_in.now))) (kd.struct name) }
{
    match entity_named(built_in, name.as_str()) {
        Some(entity) => entity_type(&entity.body, name),
        None => struct_type(name),
    }
}

fn struct_type(name: Name) -> TypeName
    ensures { kind_of result ≡ kd.struct name }
{
    TypeName::Struct(name)
}

fn entity_type(body: &Body, name: Name) -> TypeName
    ensures { kind_of result ≡ unwrap_or (kind_of_body name (body_of body.now)) (kd.struct name) }
{
    match body {
        Body::Interface { .. } => TypeName::Interface(name),
        Body::Exception { .. } => TypeName::Exception(name),
        Body::Enum { .. } => TypeName::Enum(name),
        Body::Struct { .. } => TypeName::Struct(name),
        Body::Constants { .. } => TypeName::Struct(name),
        Body::Typedef { .. } => TypeName::Struct(name),
        Body::Service(_) => TypeName::Struct(name),
        Body::Singleton(_) => TypeName::Struct(name),
    }
}

fn entity_named<'e>(entities: &'e [Entity], name: &str) -> Option<&'e Entity>
    ensures { option_map (λ e. entity_of e.now) result ≡ find_entity name.now (entities_of entities.now) }
{
    for entity in entities {
        if name == entity.name.as_str() {
            return Some(entity);
        }
    }
    None
}
