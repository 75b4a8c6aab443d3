//! Values, part by part.
ghost use Rattle.std.specs.Prelude.{◌≡◌, ◌↔◌, true};
ghost use Rattle.uno_entities.specs.TypeNames.{kind_of};
ghost use Rattle.uno_model.specs.Values as plain;
ghost use Rattle.uno_values.specs.References.{ref_of};
ghost use Rattle.uno_values.specs.Values.{plain_of, plains_of};

use uno_values::{AnyValue, Reference, Value};

/// Whether two values are equal.
#[cycle(same)]
pub fn same_value(a: &Value, b: &Value) -> bool
    ensures { result ≡ true ↔ plain_of a.now ≡ plain_of b.now }
{
    match a {
        Value::Void => matches!(b, Value::Void),
        Value::Char(x) => {
            let Value::Char(y) = b else { return false };
            x == y
        }
        Value::Boolean(x) => {
            let Value::Boolean(y) = b else { return false };
            x == y
        }
        Value::Byte(x) => {
            let Value::Byte(y) = b else { return false };
            x == y
        }
        Value::Short(x) => {
            let Value::Short(y) = b else { return false };
            x == y
        }
        Value::UnsignedShort(x) => {
            let Value::UnsignedShort(y) = b else {
                return false
            };
            x == y
        }
        Value::Long(x) => {
            let Value::Long(y) = b else { return false };
            x == y
        }
        Value::UnsignedLong(x) => {
            let Value::UnsignedLong(y) = b else {
                return false
            };
            x == y
        }
        Value::Hyper(x) => {
            let Value::Hyper(y) = b else { return false };
            x == y
        }
        Value::UnsignedHyper(x) => {
            let Value::UnsignedHyper(y) = b else {
                return false
            };
            x == y
        }
        Value::Str(x) => {
            let Value::Str(y) = b else { return false };
            x.as_str() == y.as_str()
        }
        Value::Kind(x) => {
            let Value::Kind(y) = b else { return false };
            x.is(y)
        }
        Value::Any(x) => {
            let Value::Any(y) = b else { return false };
            same_any(x, y)
        }
        Value::Enum(name, x) => {
            let Value::Enum(other, y) = b else {
                return false
            };
            x == y && name.is(other)
        }
        Value::Tuple(name, xs) => {
            let Value::Tuple(other, ys) = b else {
                return false
            };
            name.is(other) && same_values(xs, ys)
        }
        Value::List(kind, xs) => {
            let Value::List(other, ys) = b else {
                return false
            };
            kind.is(other) && same_values(xs, ys)
        }
        Value::Bytes(xs) => {
            let Value::Bytes(ys) = b else { return false };
            xs.as_slice() == ys.as_slice()
        }
        Value::Ref(x) => {
            let Value::Ref(y) = b else { return false };
            same_reference(x, y)
        }
    }
}

#[cycle(same)]
fn same_any(a: &AnyValue, b: &AnyValue) -> bool
    ensures { result ≡ true ↔ plain.any (kind_of a.now.kind) (plain_of a.now.value) ≡ plain.any (kind_of b.now.kind) (plain_of b.now.value) }
{
    a.kind.is(&b.kind) && same_value(&a.value, &b.value)
}

#[cycle(same)]
fn same_values(xs: &[Value], ys: &[Value]) -> bool
    ensures { result ≡ true ↔ plains_of xs.now ≡ plains_of ys.now }
{
    if xs.len() != ys.len() {
        return false;
    }
    let mut place = 0;
    for x in xs {
        if !same_value(x, &ys[place]) {
            return false;
        }
        place += 1;
    }
    true
}

fn same_reference(a: &Reference, b: &Reference) -> bool
    ensures { result ≡ true ↔ ref_of a.now ≡ ref_of b.now }
{
    match a {
        Reference::Null => matches!(b, Reference::Null),
        Reference::Local { oid, face } => {
            let Reference::Local { oid: o, face: f } = b else {
                return false
            };
            oid.as_str() == o.as_str() && face.is(f)
        }
        Reference::Remote { oid, face } => {
            let Reference::Remote { oid: o, face: f } = b else {
                return false
            };
            oid.as_str() == o.as_str() && face.is(f)
        }
    }
}
