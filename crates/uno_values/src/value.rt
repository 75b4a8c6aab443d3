//! Values, a case for each type.
ghost use Rattle.std.specs.Prelude.{◌≡◌, IfOk, option_map};
ghost use Rattle.uno_model.specs.Values.{any, enum, tuple, list};
ghost use Rattle.uno_entities.specs.TypeNames.{kind_of};
ghost use Rattle.uno_values.specs.References.{ref_of};
ghost use Rattle.uno_values.specs.Values.{plain_of, plains_of, any_of, any_in, reference_in};

use crate::Reference;
use std::alloc::Global;
use uno_base::NoMemory;
use uno_types::{Name, Text, TypeName};

/// A value. That it is one of a type of a registry is what `fits` asks.
#[cycle(value)]
pub enum Value {
    Void,
    Char(u16),
    Boolean(bool),
    Byte(i8),
    Short(i16),
    UnsignedShort(u16),
    Long(i32),
    UnsignedLong(u32),
    Hyper(i64),
    UnsignedHyper(u64),
    Str(Text),
    Kind(TypeName),
    Any(Box<AnyValue>),
    /// An enum's name, and the number of one of its items or any other.
    Enum(Name, i32),
    /// The name of a struct or an exception, and its members, those of its bases first.
    Tuple(Name, Vec<Value>),
    /// The type of the elements, which is not byte, and the elements of a sequence.
    List(TypeName, Vec<Value>),
    /// The elements of a sequence of byte, each as the bits of a signed number.
    Bytes(Vec<u8>),
    Ref(Reference),
}

/// What an any holds, with its type.
#[cycle(value)]
#[derive(Drop)]
pub struct AnyValue {
    pub kind: TypeName,
    pub value: Value,
}

impl Drop for Value {
    #[cycle(let_go)]
    fn drop(self) {
        match self {
            Value::Void
            | Value::Char(_)
            | Value::Boolean(_)
            | Value::Byte(_)
            | Value::Short(_)
            | Value::UnsignedShort(_)
            | Value::Long(_)
            | Value::UnsignedLong(_)
            | Value::Hyper(_)
            | Value::UnsignedHyper(_) => {}
            Value::Str(text) => drop(text),
            Value::Kind(kind) => drop(kind),
            Value::Any(any) => drop(any),
            Value::Enum(name, _) => drop(name),
            Value::Tuple(name, members) => {
                drop(name);
                drop(members);
            }
            Value::List(kind, elements) => {
                drop(kind);
                drop(elements);
            }
            Value::Bytes(bytes) => drop(bytes),
            Value::Ref(reference) => drop(reference),
        }
    }
}

impl Value {
    /// What it holds with its type, where it is an any.
    pub fn into_any(self) -> Option<Box<AnyValue>>
        ensures { option_map (λ any. any_of any.value) result ≡ any_in (plain_of self) }
    {
        match self {
            Value::Any(any) => Some(any),
            Value::Void
            | Value::Char(_)
            | Value::Boolean(_)
            | Value::Byte(_)
            | Value::Short(_)
            | Value::UnsignedShort(_)
            | Value::Long(_)
            | Value::UnsignedLong(_)
            | Value::Hyper(_)
            | Value::UnsignedHyper(_)
            | Value::Str(_)
            | Value::Kind(_)
            | Value::Enum(_, _)
            | Value::Tuple(_, _)
            | Value::List(_, _)
            | Value::Bytes(_)
            | Value::Ref(_) => None,
        }
    }

    /// The reference that it is, null where it is none.
    pub fn into_reference(self) -> Reference
        ensures { ref_of result ≡ reference_in (plain_of self) }
    {
        match self {
            Value::Ref(reference) => reference,
            Value::Void
            | Value::Char(_)
            | Value::Boolean(_)
            | Value::Byte(_)
            | Value::Short(_)
            | Value::UnsignedShort(_)
            | Value::Long(_)
            | Value::UnsignedLong(_)
            | Value::Hyper(_)
            | Value::UnsignedHyper(_)
            | Value::Str(_)
            | Value::Kind(_)
            | Value::Any(_)
            | Value::Enum(_, _)
            | Value::Tuple(_, _)
            | Value::List(_, _)
            | Value::Bytes(_) => Reference::Null,
        }
    }
}

/// The any that holds this.
pub(crate) fn any_holding(alloc: Global, held: AnyValue) -> Result<Value, NoMemory>
    ensures { IfOk result (λ v. plain_of v ≡ any (kind_of held.kind) (plain_of held.value)) }
{
    Ok(Value::Any(Box::new(alloc, held)?))
}

/// The item of the enum of this name that has this number.
pub(crate) fn item_of(name: &Name, number: i32) -> Result<Value, NoMemory>
    ensures { IfOk result (λ v. plain_of v ≡ enum name.now number) }
{
    Ok(Value::Enum(name.copy()?, number))
}

/// The struct or the exception of this name that has these members.
pub(crate) fn tuple_of(name: &Name, members: Vec<Value>) -> Result<Value, NoMemory>
    ensures { IfOk result (λ v. plain_of v ≡ tuple name.now (plains_of members.items)) }
{
    let name = name.copy()?;
    Ok(Value::Tuple(name, members))
}

/// The sequence of elements of this type that has these.
pub(crate) fn list_of(
    alloc: Global,
    kind: &TypeName,
    elements: Vec<Value>,
) -> Result<Value, NoMemory>
    ensures { IfOk result (λ v. plain_of v ≡ list (kind_of kind.now) (plains_of elements.items)) }
{
    let kind = kind.copy(alloc)?;
    Ok(Value::List(kind, elements))
}
