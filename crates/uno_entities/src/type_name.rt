//! The types, as the entities of a registry and the values name them.
ghost use Rattle.std.specs.Prelude.{◌≡◌, ◌↔◌, ◌++◌, IfOk, OnOk, IsTrue, option_map};
ghost use Rattle.uno_model.specs.Kinds.{name_of, interface_of, exception_of};
ghost use Rattle.uno_model.specs.Kinds as kd;
ghost use Rattle.uno_model.specs.TypeClasses.{class_of};
ghost use Rattle.uno_entities.specs.TypeNames.{kind_of, front_of, innermost, IsNamed};

use crate::Name;
use std::alloc::Global;
use uno_base::NoMemory;
use uno_model::TypeClass;

/// A type, by its own word or by the name of its entity.
pub enum TypeName {
    Void,
    Char,
    Boolean,
    Byte,
    Short,
    UnsignedShort,
    Long,
    UnsignedLong,
    Hyper,
    UnsignedHyper,
    Str,
    Kind,
    Any,
    Enum(Name),
    Struct(Name),
    Exception(Name),
    Interface(Name),
    Sequence(Box<TypeName>),
}

impl Drop for TypeName {
    /// Goes over the sequences in a loop, so that deep ones take no stack.
    fn drop(mut self) {
        loop {
            match self {
                TypeName::Void
                | TypeName::Char
                | TypeName::Boolean
                | TypeName::Byte
                | TypeName::Short
                | TypeName::UnsignedShort
                | TypeName::Long
                | TypeName::UnsignedLong
                | TypeName::Hyper
                | TypeName::UnsignedHyper
                | TypeName::Str
                | TypeName::Kind
                | TypeName::Any => return,
                TypeName::Enum(name)
                | TypeName::Struct(name)
                | TypeName::Exception(name)
                | TypeName::Interface(name) => {
                    drop(name);
                    return;
                }
                TypeName::Sequence(inner) => self = Box::into_inner(inner),
            }
        }
    }
}

impl TypeName {
    /// The class of the type.
    pub fn class(&self) -> TypeClass
        ensures { result ≡ class_of (kind_of self.now) }
    {
        match self {
            TypeName::Void => TypeClass::Void,
            TypeName::Char => TypeClass::Char,
            TypeName::Boolean => TypeClass::Boolean,
            TypeName::Byte => TypeClass::Byte,
            TypeName::Short => TypeClass::Short,
            TypeName::UnsignedShort => TypeClass::UnsignedShort,
            TypeName::Long => TypeClass::Long,
            TypeName::UnsignedLong => TypeClass::UnsignedLong,
            TypeName::Hyper => TypeClass::Hyper,
            TypeName::UnsignedHyper => TypeClass::UnsignedHyper,
            TypeName::Str => TypeClass::Str,
            TypeName::Kind => TypeClass::Kind,
            TypeName::Any => TypeClass::Any,
            TypeName::Enum(_) => TypeClass::Enum,
            TypeName::Struct(_) => TypeClass::Struct,
            TypeName::Exception(_) => TypeClass::Exception,
            TypeName::Interface(_) => TypeClass::Interface,
            TypeName::Sequence(_) => TypeClass::Sequence,
        }
    }

    /// The front of its name: the brackets of a sequence, and else the whole name.
    pub fn front(&self) -> &str
        ensures { result.now ≡ front_of (kind_of self.now) }
    {
        match self {
            TypeName::Void => "void",
            TypeName::Char => "char",
            TypeName::Boolean => "boolean",
            TypeName::Byte => "byte",
            TypeName::Short => "short",
            TypeName::UnsignedShort => "unsigned short",
            TypeName::Long => "long",
            TypeName::UnsignedLong => "unsigned long",
            TypeName::Hyper => "hyper",
            TypeName::UnsignedHyper => "unsigned hyper",
            TypeName::Str => "string",
            TypeName::Kind => "type",
            TypeName::Any => "any",
            TypeName::Enum(name) => name.as_str(),
            TypeName::Struct(name) => name.as_str(),
            TypeName::Exception(name) => name.as_str(),
            TypeName::Interface(name) => name.as_str(),
            TypeName::Sequence(_) => "[]",
        }
    }

    /// The sequence of these elements.
    pub fn sequence(alloc: Global, element: TypeName) -> Result<TypeName, NoMemory>
        ensures { IfOk result (λ k. kind_of k ≡ kd.sequence (kind_of element)) }
    {
        Ok(TypeName::Sequence(Box::new(alloc, element)?))
    }

    /// An equal type.
    pub fn copy(&self, alloc: Global) -> Result<TypeName, NoMemory>
        ensures { IfOk result (λ copy. kind_of copy ≡ kind_of self.now) }
    {
        match self {
            TypeName::Void => Ok(TypeName::Void),
            TypeName::Char => Ok(TypeName::Char),
            TypeName::Boolean => Ok(TypeName::Boolean),
            TypeName::Byte => Ok(TypeName::Byte),
            TypeName::Short => Ok(TypeName::Short),
            TypeName::UnsignedShort => Ok(TypeName::UnsignedShort),
            TypeName::Long => Ok(TypeName::Long),
            TypeName::UnsignedLong => Ok(TypeName::UnsignedLong),
            TypeName::Hyper => Ok(TypeName::Hyper),
            TypeName::UnsignedHyper => Ok(TypeName::UnsignedHyper),
            TypeName::Str => Ok(TypeName::Str),
            TypeName::Kind => Ok(TypeName::Kind),
            TypeName::Any => Ok(TypeName::Any),
            TypeName::Enum(name) => Ok(TypeName::Enum(name.copy()?)),
            TypeName::Struct(name) => Ok(TypeName::Struct(name.copy()?)),
            TypeName::Exception(name) => Ok(TypeName::Exception(name.copy()?)),
            TypeName::Interface(name) => Ok(TypeName::Interface(name.copy()?)),
            TypeName::Sequence(inner) => TypeName::sequence(alloc, inner.copy(alloc)?),
        }
    }

    /// The type below all its sequences.
    pub fn innermost(&self) -> &TypeName
        ensures { kind_of result.now ≡ innermost (kind_of self.now) }
    {
        let mut kind = self;
        while let TypeName::Sequence(inner) = kind {
            kind = inner;
        }
        kind
    }

    /// The name of the interface that it is.
    pub fn interface(&self) -> Option<&Name>
        ensures { option_map (λ name. name.now) result ≡ interface_of (kind_of self.now) }
    {
        match self {
            TypeName::Interface(name) => Some(name),
            TypeName::Void
            | TypeName::Char
            | TypeName::Boolean
            | TypeName::Byte
            | TypeName::Short
            | TypeName::UnsignedShort
            | TypeName::Long
            | TypeName::UnsignedLong
            | TypeName::Hyper
            | TypeName::UnsignedHyper
            | TypeName::Str
            | TypeName::Kind
            | TypeName::Any
            | TypeName::Enum(_)
            | TypeName::Struct(_)
            | TypeName::Exception(_)
            | TypeName::Sequence(_) => None,
        }
    }

    /// The name of the interface that it is, given away.
    pub fn into_interface(self) -> Option<Name>
        ensures { result ≡ interface_of (kind_of self) }
    {
        match self {
            TypeName::Interface(name) => Some(name),
            TypeName::Void
            | TypeName::Char
            | TypeName::Boolean
            | TypeName::Byte
            | TypeName::Short
            | TypeName::UnsignedShort
            | TypeName::Long
            | TypeName::UnsignedLong
            | TypeName::Hyper
            | TypeName::UnsignedHyper
            | TypeName::Str
            | TypeName::Kind
            | TypeName::Any
            | TypeName::Enum(_)
            | TypeName::Struct(_)
            | TypeName::Exception(_)
            | TypeName::Sequence(_) => None,
        }
    }

    /// The name of the exception that it is, given away.
    pub fn into_exception(self) -> Option<Name>
        ensures { result ≡ exception_of (kind_of self) }
    {
        match self {
            TypeName::Exception(name) => Some(name),
            TypeName::Void
            | TypeName::Char
            | TypeName::Boolean
            | TypeName::Byte
            | TypeName::Short
            | TypeName::UnsignedShort
            | TypeName::Long
            | TypeName::UnsignedLong
            | TypeName::Hyper
            | TypeName::UnsignedHyper
            | TypeName::Str
            | TypeName::Kind
            | TypeName::Any
            | TypeName::Enum(_)
            | TypeName::Struct(_)
            | TypeName::Interface(_)
            | TypeName::Sequence(_) => None,
        }
    }

    /// Adds its name to a text.
    pub fn push_name(&self, text: &mut Vec<u8>) -> Result<(), NoMemory>
        ensures { OnOk result (text.new.items ≡ text.old.items ++ name_of (kind_of self.now)) }
    {
        let mut kind = self;
        while let TypeName::Sequence(inner) = kind {
            text.extend_from_slice(b"[]")?;
            kind = inner;
        }
        text.extend_from_slice(kind.front().as_bytes())?;
        Ok(())
    }

    /// Whether the other is the same type.
    pub fn is(&self, other: &TypeName) -> bool
        ensures { IsTrue result ↔ (kind_of self.now ≡ kind_of other.now) }
    {
        match self {
            TypeName::Void => matches!(other, TypeName::Void),
            TypeName::Char => matches!(other, TypeName::Char),
            TypeName::Boolean => matches!(other, TypeName::Boolean),
            TypeName::Byte => matches!(other, TypeName::Byte),
            TypeName::Short => matches!(other, TypeName::Short),
            TypeName::UnsignedShort => matches!(other, TypeName::UnsignedShort),
            TypeName::Long => matches!(other, TypeName::Long),
            TypeName::UnsignedLong => matches!(other, TypeName::UnsignedLong),
            TypeName::Hyper => matches!(other, TypeName::Hyper),
            TypeName::UnsignedHyper => matches!(other, TypeName::UnsignedHyper),
            TypeName::Str => matches!(other, TypeName::Str),
            TypeName::Kind => matches!(other, TypeName::Kind),
            TypeName::Any => matches!(other, TypeName::Any),
            TypeName::Enum(name) => other.is_enum(name),
            TypeName::Struct(name) => other.is_struct(name),
            TypeName::Exception(name) => other.is_exception(name),
            TypeName::Interface(name) => other.is_interface(name),
            TypeName::Sequence(inner) => match other {
                TypeName::Sequence(its) => inner.is(its),
                _ => false,
            },
        }
    }

    /// Whether it is the enum of that name.
    #[tactic(auto, using(crate::proofs::NamedLemmas::enum_named))]
    pub fn is_enum(&self, of: &Name) -> bool
        ensures { IsTrue result ↔ (kind_of self.now ≡ kd.enum of.now) }
    {
        self.is_named(TypeClass::Enum, of)
    }

    /// Whether it is the struct of that name.
    #[tactic(auto, using(crate::proofs::NamedLemmas::struct_named))]
    pub fn is_struct(&self, of: &Name) -> bool
        ensures { IsTrue result ↔ (kind_of self.now ≡ kd.struct of.now) }
    {
        self.is_named(TypeClass::Struct, of)
    }

    /// Whether it is the exception of that name.
    #[tactic(auto, using(crate::proofs::NamedLemmas::exception_named))]
    pub fn is_exception(&self, of: &Name) -> bool
        ensures { IsTrue result ↔ (kind_of self.now ≡ kd.exception of.now) }
    {
        self.is_named(TypeClass::Exception, of)
    }

    /// Whether it is the interface of that name.
    #[tactic(auto, using(crate::proofs::NamedLemmas::interface_named))]
    pub fn is_interface(&self, of: &Name) -> bool
        ensures { IsTrue result ↔ (kind_of self.now ≡ kd.interface of.now) }
    {
        self.is_named(TypeClass::Interface, of)
    }

    /// Whether it is of that class, and its name has that front.
    fn is_named(&self, class: TypeClass, of: &Name) -> bool
        ensures { IsTrue result ↔ IsNamed class of.now (kind_of self.now) }
    {
        if self.class() != class {
            return false;
        }
        self.front() == of.as_str()
    }
}
