//! Types: by their names, and which of them fits which.
ghost use Rattle.std.specs.Prelude.{◌≡◌, option_map, IfOk, is_some};
ghost use Rattle.plan_model.specs.Contexts.{kind_fits};
ghost use Rattle.plan_model.specs.TypedStatements.{face_of_text};
ghost use Rattle.plan_model.specs.KnownNames.{is_type_known};
ghost use Rattle.plan_model.specs.Typing.{is_whole};
ghost use Rattle.uno_model.specs.Codes.{same_kind};
ghost use Rattle.uno_model.specs.Kinds.{interface_of};
ghost use Rattle.uno_model.specs.NamedTypes.{type_of_text};
ghost use Rattle.uno_model.specs.Reaches.{is_base_of};
ghost use Rattle.uno_model.specs.Sound.{IsSound};
ghost use Rattle.uno_entities.specs.TypeNames.{kind_of};
ghost use Rattle.plan_model.specs.declared.line_reason.LineReason.TheVariants.{Unknown};
ghost use Rattle.plan_checks.specs.Checks.{Gives, Passes};
ghost use Rattle.plan_checks.specs.Lent.{lent_kind};

use crate::checker::Checker;
use crate::line_error::LineError;
use plan_types::LineReason;
use std::alloc::Global;
use uno_base::NoMemory;
use uno_types::{Name, Registry, TypeName};

/// A type that is lent: the whole of it, or the name of an interface.
#[derive(Clone, Copy)]
pub(crate) enum LentKind<'a> {
    Whole(&'a TypeName),
    Interface(&'a Name),
}

impl<'a> LentKind<'a> {
    /// An equal type.
    pub(crate) fn copy(self, alloc: Global) -> Result<TypeName, NoMemory>
        ensures { IfOk result (λ copy. kind_of copy ≡ lent_kind self.entry) }
    {
        match self {
            LentKind::Whole(kind) => kind.copy(alloc),
            LentKind::Interface(name) => Ok(TypeName::Interface(name.copy()?)),
        }
    }

    /// The name of the interface that it is.
    pub(crate) fn face(self) -> Option<&'a Name>
        ensures { option_map (λ name. name.now) result ≡ interface_of (lent_kind self.entry) }
    {
        match self {
            LentKind::Whole(kind) => kind.interface(),
            LentKind::Interface(name) => Some(name),
        }
    }
}

/// The type of this name.
pub fn type_named(
    alloc: Global,
    registry: &Registry,
    text: &Name,
) -> Result<Option<TypeName>, NoMemory>
    requires { IsSound registry.now }
    ensures { IfOk result (λ found. option_map kind_of found ≡ type_of_text registry.now text.now) }
{
    registry.type_named(alloc, text.as_str())
}

impl Checker<'_> {
    /// The type of this name.
    pub(crate) fn type_named(&self, text: &Name) -> Result<TypeName, LineError>
        ensures { Gives kind_of result (type_of_text self.now.registry.now text.now) }
    {
        match type_named(self.alloc, self.registry, text)? {
            Some(kind) => Ok(kind),
            None => Err(LineError::Wrong(LineReason::Misfit)),
        }
    }

    /// Refuses a name that no type has.
    pub(crate) fn knows_type(&self, text: &Name) -> Result<(), LineError>
        ensures { Passes Unknown result (is_type_known self.now.registry.now text.now) }
    {
        match type_named(self.alloc, self.registry, text)? {
            Some(kind) => {
                drop(kind);
                Ok(())
            }
            None => Err(LineError::Wrong(LineReason::Unknown)),
        }
    }

    /// The name of the interface that has this name as a type.
    pub(crate) fn face_named(&self, text: &Name) -> Result<Name, LineError>
        ensures { Gives (λ name. name) result (face_of_text self.now.registry.now text.now) }
    {
        let kind = self.type_named(text)?;
        match kind.into_interface() {
            Some(name) => Ok(name),
            None => Err(LineError::Wrong(LineReason::Misfit)),
        }
    }

    /// Whether the one interface is the other, or a base of it.
    pub(crate) fn is_base_of(&self, base: &str, name: &str) -> bool
        ensures { result ≡ is_base_of self.now.registry.now base.now name.now }
    {
        self.registry.has_base(base, name)
    }

    /// Whether a value of the one type fits a place of the wanted one.
    pub(crate) fn kind_fits(&self, wanted: &TypeName, from: LentKind<'_>) -> bool
        ensures { result ≡ kind_fits self.now.registry.now (kind_of wanted.now) (lent_kind from.entry) }
    {
        let Some(base) = wanted.interface() else {
            return is_same(wanted, from);
        };
        match from.face() {
            Some(name) => self.is_base_of(base.as_str(), name.as_str()),
            None => false,
        }
    }
}

/// Whether two types are one.
pub(crate) fn same_kind(one: &TypeName, other: &TypeName) -> bool
    ensures { result ≡ same_kind (kind_of one.now) (kind_of other.now) }
{
    one.is(other)
}

fn is_same(wanted: &TypeName, from: LentKind<'_>) -> bool
    ensures { result ≡ same_kind (kind_of wanted.now) (lent_kind from.entry) }
{
    match from {
        LentKind::Interface(name) => wanted.is_interface(name),
        LentKind::Whole(kind) => wanted.is(kind),
    }
}

/// Whether it is a type of whole numbers.
pub(crate) fn is_whole(kind: &TypeName) -> bool
    ensures { result ≡ is_whole (kind_of kind.now) }
{
    matches!(
        kind,
        TypeName::Byte
            | TypeName::Short
            | TypeName::UnsignedShort
            | TypeName::Long
            | TypeName::UnsignedLong
            | TypeName::Hyper
            | TypeName::UnsignedHyper
    )
}
