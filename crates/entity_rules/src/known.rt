//! Each name in a type is an entity of its kind.
ghost use Rattle.std.specs.Prelude.{◌≡◌};
ghost use Rattle.uno_model.specs.Registry.{IsRising};
ghost use Rattle.uno_model.specs.Sound.{kind_known, types_known};
ghost use Rattle.uno_entities.specs.Entities.{body_of, entities_of};
ghost use Rattle.uno_entities.specs.TypeNames.{kind_of};
ghost use Rattle.entity_rules.specs.Wanted.{kind_wanted};

use crate::types::{KindTest, kinds_pass};
use crate::{Wanted, is_there};
use uno_entities::{Body, Entity, TypeClass, TypeName};

/// Whether the names in all types that an entity writes are known.
pub fn types_known(entities: &[Entity], body: &Body) -> bool
    requires { IsRising (entities_of entities.now) }
    ensures { result ≡ types_known (entities_of entities.now) (body_of body.now) }
{
    kinds_pass(KindTest::Known(entities), body)
}

/// Whether the name in a type, below all its sequences, is known; a simple type has none.
pub fn kind_known(entities: &[Entity], kind: &TypeName) -> bool
    requires { IsRising (entities_of entities.now) }
    ensures { result ≡ kind_known (entities_of entities.now) (kind_of kind.now) }
{
    let innermost = kind.innermost();
    let Some(wanted) = kind_wanted(innermost) else {
        return true;
    };
    is_there(entities, wanted, innermost.front())
}

/// The kind of entity that a type names itself.
fn kind_wanted(kind: &TypeName) -> Option<Wanted>
    ensures { result ≡ kind_wanted (kind_of kind.now) }
{
    match kind.class() {
        TypeClass::Enum => Some(Wanted::Enum),
        TypeClass::Struct => Some(Wanted::Struct),
        TypeClass::Exception => Some(Wanted::Exception),
        TypeClass::Interface => Some(Wanted::Interface),
        _ => None,
    }
}
