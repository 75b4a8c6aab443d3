//! Which types are types of a registry.
ghost use Rattle.std.specs.Prelude.{◌≡◌};
ghost use Rattle.uno_model.specs.Kinds as kd;
ghost use Rattle.uno_model.specs.Types.{is_type, is_formed};
ghost use Rattle.uno_entities.specs.TypeNames.{kind_of};

use crate::{Registry, TypeName};
use entity_rules::{Wanted, is_there, kind_known};
use uno_entities::{MOST_BYTES, elements_storable};

impl Registry {
    /// Whether it is a simple type, an entity of the registry that is a type, or a sequence of such a type other than void
    /// and an exception, with a name of at most 4,096 bytes and 64 `[]`.
    pub fn has_type(&self, kind: &TypeName) -> bool
        ensures { result ≡ is_type self.now (kind_of kind.now) }
    {
        self.has_form(kind) && kind.is_namable()
    }

    /// The same, but for the limits of its name.
    pub fn has_form(&self, kind: &TypeName) -> bool
        ensures { result ≡ is_formed self.now (kind_of kind.now) }
    {
        kind_known(self.entities(), kind) && elements_storable(kind)
    }

    /// Whether an interface of the registry has the name.
    pub fn has_interface(&self, name: &str) -> bool
        ensures { result ≡ is_type self.now (kd.interface name.now) }
    {
        is_there(self.entities(), Wanted::Interface, name) && name.len() <= MOST_BYTES
    }
}
