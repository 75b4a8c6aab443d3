//! A reference to an object, under one of its interfaces.
ghost use Rattle.std.specs.Prelude.{◌≡◌, IfOk};
ghost use Rattle.uno_values.specs.References.{ref_of};

use uno_base::NoMemory;
use uno_types::{Name, Text};

/// Null, or an object by its identity (`oid`) and the interface under which it is held (`face`).
#[derive(Drop)]
pub enum Reference {
    Null,
    /// An object of the own side.
    Local { oid: Text, face: Name },
    /// An object of the peer's.
    Remote { oid: Text, face: Name },
}

impl Reference {
    /// An equal reference, which shares its texts; refused only if one of them has too many owners.
    pub fn copy(&self) -> Result<Reference, NoMemory>
        ensures { IfOk result (λ copy. ref_of copy ≡ ref_of self.now) }
    {
        match self {
            Reference::Null => Ok(Reference::Null),
            Reference::Local { oid, face } => {
                let oid = oid.copy()?;
                let face = face.copy()?;
                Ok(Reference::Local { oid, face })
            }
            Reference::Remote { oid, face } => {
                let oid = oid.copy()?;
                let face = face.copy()?;
                Ok(Reference::Remote { oid, face })
            }
        }
    }
}
