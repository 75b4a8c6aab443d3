//! The exceptions of statements, and which exceptions a function may raise.
ghost use Rattle.std.specs.Prelude.{◌≡◌, ◌++◌, IfOk, codes};
ghost use Rattle.std.specs.List.{list_any};
ghost use Rattle.message_model.specs.Calls.{may_raise};
ghost use Rattle.message_model.specs.Messages.{raised};
ghost use Rattle.plan_model.specs.Leaving.{message_of, caused};
ghost use Rattle.type_registry.specs.Functions.{lent_function};
ghost use Rattle.uno_entities.specs.TypeNames.{kind_of};
ghost use Rattle.uno_model.specs.Kinds as kd;
ghost use Rattle.uno_model.specs.Reaches.{is_base_of};
ghost use Rattle.uno_model.specs.Sound.{IsSound};
ghost use Rattle.uno_model.specs.Values.{null};
ghost use Rattle.uno_model.specs.Values as plain;
ghost use Rattle.uno_values.specs.Values.{plain_of, plains_of};
ghost use Rattle.behaviour.specs.Answers.{raised_of, runtime_value};

use crate::values::push_value;
use plan_types::RuntimeCause;
use std::alloc::Global;
use type_registry::FunctionRef;
use uno_base::NoMemory;
use uno_types::{Name, Registry, Text, TypeName};
use uno_values::{AnyValue, Reference, Value};

/// The exception that every function may raise.
pub(crate) const RUNTIME_EXCEPTION: &str = "com.sun.star.uno.RuntimeException";

/// The exception of a cause.
pub fn caused(alloc: Global, cause: RuntimeCause) -> Result<AnyValue, NoMemory>
    ensures { IfOk result (λ x. raised_of x ≡ caused cause) }
{
    exception_of(alloc, RUNTIME_EXCEPTION, caused_value(alloc, cause)?)
}

/// The value of that exception.
pub(crate) fn caused_value(alloc: Global, cause: RuntimeCause) -> Result<Value, NoMemory>
    ensures { IfOk result (λ x. plain_of x ≡ runtime_value (message_of cause)) }
{
    runtime_value(alloc, Text::of(alloc, message_of(cause))?)
}

#[tactic(auto, unfolding(plan_model::specs::Leaving::message_of))]
fn message_of(cause: RuntimeCause) -> &'static str
    ensures { result.now ≡ message_of cause }
{
    match cause {
        RuntimeCause::Null => "null",
        RuntimeCause::Range => "range",
        RuntimeCause::Depth => "depth",
        RuntimeCause::TooLarge => "too large",
        RuntimeCause::TooDeep => "too deep",
    }
}

/// The value of the RuntimeException for an exception that the function may not raise.
pub(crate) fn undeclared_value(alloc: Global, name: &str) -> Result<Value, NoMemory>
    ensures { IfOk result (λ x. plain_of x ≡ runtime_value (codes "undeclared " ++ name.now)) }
{
    let mut message = String::from_str(alloc, UNDECLARED)?;
    let Ok(()) = message.push_str(name) else {
        drop(message);
        return Err(NoMemory);
    };
    runtime_value(alloc, Text::from_string(message)?)
}

const UNDECLARED: &str = "undeclared ";

/// A RuntimeException of this message and no context.
fn runtime_value(alloc: Global, message: Text) -> Result<Value, NoMemory>
    ensures { IfOk result (λ x. plain_of x ≡ runtime_value message) }
{
    let members = message_alone(alloc, message)?;
    let Ok(name) = Name::of(alloc, RUNTIME_EXCEPTION) else {
        drop(members);
        return Err(NoMemory);
    };
    Ok(Value::Tuple(name, members))
}

/// The members of an exception: its message, and no context.
fn message_alone(alloc: Global, message: Text) -> Result<Vec<Value>, NoMemory>
    ensures { IfOk result (λ xs. plains_of xs.items ≡ plain.more (plain.str message) (plain.more (plain.ref null) plain.none)) }
{
    let mut members = Vec::new(alloc);
    if let Err(error) = push_value(&mut members, Value::Str(message)) {
        drop(members);
        return Err(error);
    }
    if let Err(error) = push_value(&mut members, Value::Ref(Reference::Null)) {
        drop(members);
        return Err(error);
    }
    Ok(members)
}

/// An exception of this name.
pub(crate) fn exception_of(alloc: Global, name: &str, value: Value) -> Result<AnyValue, NoMemory>
    ensures { IfOk result (λ x. raised_of x ≡ raised (kd.exception name.now) (plain_of value)) }
{
    let Ok(name) = Name::of(alloc, name) else {
        drop(value);
        return Err(NoMemory);
    };
    Ok(AnyValue {
        kind: TypeName::Exception(name),
        value,
    })
}

/// Whether a function may raise an exception of a type: it declares it or a base of it, or the exception derives from the one that every
/// function may raise.
#[tactic(auto, unfolding(message_model::specs::Calls::may_raise))]
pub(crate) fn may_raise(registry: &Registry, function: &FunctionRef, kind: &TypeName) -> bool
    requires { IsSound registry.now }
    ensures { result ≡ may_raise registry.now (lent_function function.now) (kind_of kind.now) }
{
    match kind {
        TypeName::Exception(name) => may_raise_named(registry, function, name.as_str()),
        TypeName::Void
        | TypeName::Char
        | TypeName::Boolean
        | TypeName::Byte
        | TypeName::Short
        | TypeName::UnsignedShort
        | TypeName::Long
        | TypeName::UnsignedLong
        | TypeName::Hyper
        | TypeName::UnsignedHyper
        | TypeName::Str
        | TypeName::Kind
        | TypeName::Any
        | TypeName::Enum(_)
        | TypeName::Struct(_)
        | TypeName::Interface(_)
        | TypeName::Sequence(_) => false,
    }
}

/// The same of an exception by its name.
#[tactic(auto, unfolding(message_model::specs::Calls::may_raise))]
fn may_raise_named(registry: &Registry, function: &FunctionRef, name: &str) -> bool
    requires { IsSound registry.now }
    ensures { result ≡ may_raise registry.now (lent_function function.now) (kd.exception name.now) }
{
    if has_base(registry, RUNTIME_EXCEPTION, name) {
        return true;
    }
    is_declared(registry, function.raises(), name)
}

/// Whether an exception is one of these, or derives from one.
fn is_declared(registry: &Registry, declared: &[Name], name: &str) -> bool
    requires { IsSound registry.now }
    ensures { result ≡ list_any (λ base. is_base_of registry.now base name.now) declared.now }
{
    for base in declared {
        if has_base(registry, base.as_str(), name) {
            return true;
        }
    }
    false
}

fn has_base(registry: &Registry, base: &str, name: &str) -> bool
    requires { IsSound registry.now }
    ensures { result ≡ is_base_of registry.now base.now name.now }
{
    registry.has_base(base, name)
}
