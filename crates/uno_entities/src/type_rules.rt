//! What a type may stand for: a value, or the target of a typedef.
ghost use Rattle.std.specs.Prelude.{◌≡◌};
ghost use Rattle.uno_model.specs.Sound.{is_storable, elements_storable, is_target, is_value};
ghost use Rattle.uno_entities.specs.TypeNames.{kind_of};

use crate::{TypeClass, TypeName};

/// Whether it is neither void nor an exception.
pub fn is_storable(kind: &TypeName) -> bool
    ensures { result ≡ is_storable (kind_of kind.now) }
{
    match kind.class() {
        TypeClass::Void | TypeClass::Exception => false,
        _ => true,
    }
}

/// Whether the elements of each sequence in it are storable.
#[tactic(auto, using(crate::proofs::InnermostLemmas::sequence_plain))]
pub fn elements_storable(kind: &TypeName) -> bool
    ensures { result ≡ elements_storable (kind_of kind.now) }
{
    if kind.class() != TypeClass::Sequence {
        return true;
    }
    is_storable(kind.innermost())
}

/// Whether a parameter, an attribute, a member or a constant may have it.
pub fn is_value(kind: &TypeName) -> bool
    ensures { result ≡ is_value (kind_of kind.now) }
{
    is_storable(kind) && elements_storable(kind)
}

/// Whether a typedef may stand for it.
pub fn is_target(kind: &TypeName) -> bool
    ensures { result ≡ is_target (kind_of kind.now) }
{
    if kind.class() == TypeClass::Void {
        return false;
    }
    elements_storable(kind)
}
