//! Which exceptions answer a call (Developer's Guide, exceptions).
ghost use Rattle.std.specs.Prelude.{◌≡◌, map};
ghost use Rattle.std.specs.List.{list_any};
ghost use Rattle.message_model.specs.Calls.{runtime_exception, may_raise};
ghost use Rattle.type_registry.specs.Functions.{lent_function};
ghost use Rattle.uno_model.specs.Reaches.{is_base_of};
ghost use Rattle.uno_model.specs.Kinds as kd;
ghost use Rattle.uno_model.specs.Sound.{IsSound};
ghost use Rattle.uno_entities.specs.TypeNames.{kind_of};

use type_registry::FunctionRef;
use uno_types::{Name, Registry, TypeName};

/// The exception that every function may raise.
const RUNTIME_EXCEPTION: &str = "com.sun.star.uno.RuntimeException";

/// Whether a function may raise an exception of a type: it declares it or a base of it, or the exception derives from the one that
/// every function may raise.
#[tactic(auto, unfolding(message_model::specs::Calls::may_raise))]
pub(crate) fn may_raise(registry: &Registry, function: &FunctionRef, kind: &TypeName) -> bool
    requires { IsSound registry.now }
    ensures { result ≡ may_raise registry.now (lent_function function.now) (kind_of kind.now) }
{
    match kind {
        TypeName::Exception(name) => may_raise_named(registry, function, name),
        TypeName::Void
        | TypeName::Char
        | TypeName::Boolean
        | TypeName::Byte
        | TypeName::Short
        | TypeName::UnsignedShort
        | TypeName::Long
        | TypeName::UnsignedLong
        | TypeName::Hyper
        | TypeName::UnsignedHyper
        | TypeName::Str
        | TypeName::Kind
        | TypeName::Any
        | TypeName::Enum(_)
        | TypeName::Struct(_)
        | TypeName::Interface(_)
        | TypeName::Sequence(_) => false,
    }
}

/// The same of an exception by its name.
#[tactic(auto, unfolding(message_model::specs::Calls::may_raise))]
fn may_raise_named(registry: &Registry, function: &FunctionRef, name: &Name) -> bool
    requires { IsSound registry.now }
    ensures { result ≡ may_raise registry.now (lent_function function.now) (kd.exception name.now) }
{
    if has_base(registry, RUNTIME_EXCEPTION, name) {
        return true;
    }
    is_declared(registry, function.raises(), name)
}

/// Whether an exception is one of these, or derives from one.
fn is_declared(registry: &Registry, declared: &[Name], name: &Name) -> bool
    requires { IsSound registry.now }
    ensures { result ≡ list_any (λ base. is_base_of registry.now base name.now) declared.now }
{
    for base in declared {
        if has_base(registry, base.as_str(), name) {
            return true;
        }
    }
    false
}

fn has_base(registry: &Registry, base: &str, name: &Name) -> bool
    requires { IsSound registry.now }
    ensures { result ≡ is_base_of registry.now base.now name.now }
{
    registry.has_base(base, name.as_str())
}
