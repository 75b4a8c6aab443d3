//! Equal values.
ghost use Rattle.std.specs.Prelude.{◌≡◌, IfOk, map};
ghost use Rattle.uno_values.specs.Values.{plain_of, any_of};

use crate::value::{any_holding, item_of, list_of, tuple_of};
use crate::{AnyValue, Value};
use std::alloc::Global;
use uno_base::NoMemory;

impl Value {
    /// An equal value.
    #[cycle(copy)]
    pub fn copy(&self, alloc: Global) -> Result<Value, NoMemory>
        ensures { IfOk result (λ copy. plain_of copy ≡ plain_of self.now) }
    {
        match self {
            Value::Void => Ok(Value::Void),
            Value::Char(unit) => Ok(Value::Char(*unit)),
            Value::Boolean(truth) => Ok(Value::Boolean(*truth)),
            Value::Byte(number) => Ok(Value::Byte(*number)),
            Value::Short(number) => Ok(Value::Short(*number)),
            Value::UnsignedShort(number) => Ok(Value::UnsignedShort(*number)),
            Value::Long(number) => Ok(Value::Long(*number)),
            Value::UnsignedLong(number) => Ok(Value::UnsignedLong(*number)),
            Value::Hyper(number) => Ok(Value::Hyper(*number)),
            Value::UnsignedHyper(number) => Ok(Value::UnsignedHyper(*number)),
            Value::Str(text) => Ok(Value::Str(text.copy()?)),
            Value::Kind(kind) => Ok(Value::Kind(kind.copy(alloc)?)),
            Value::Any(any) => any_holding(alloc, any.copy(alloc)?),
            Value::Enum(name, number) => item_of(name, *number),
            Value::Tuple(name, members) => tuple_of(name, copy_all(members, alloc)?),
            Value::List(kind, elements) => list_of(alloc, kind, copy_all(elements, alloc)?),
            Value::Bytes(bytes) => Ok(Value::Bytes(Vec::from_slice(alloc, bytes)?)),
            Value::Ref(reference) => Ok(Value::Ref(reference.copy()?)),
        }
    }
}

impl AnyValue {
    /// An any of an equal type and an equal value.
    #[cycle(copy)]
    pub fn copy(&self, alloc: Global) -> Result<AnyValue, NoMemory>
        ensures { IfOk result (λ copy. any_of copy ≡ any_of self.now) }
    {
        let kind = self.kind.copy(alloc)?;
        match self.value.copy(alloc) {
            Ok(value) => Ok(AnyValue { kind, value }),
            Err(error) => {
                drop(kind);
                Err(error)
            }
        }
    }
}

/// Equal values, in the same order.
#[cycle(copy)]
pub fn copy_all(values: &[Value], alloc: Global) -> Result<Vec<Value>, NoMemory>
    ensures { IfOk result (λ copies. map plain_of copies.items ≡ map plain_of values.now) }
{
    let mut copies = Vec::new(alloc);
    for value in values {
        copies.push(value.copy(alloc)?)?;
    }
    Ok(copies)
}
