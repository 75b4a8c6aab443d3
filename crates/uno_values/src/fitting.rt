//! Which values fit a type.
ghost use Rattle.std.specs.Prelude.{◌≡◌, ◌≢◌, ◌↔◌, ◌+◌, ◌≤◌, IsTrue, length, take, drop};
ghost use Rattle.uno_model.specs.Fits.{Fits, FitEach, FitAll, RefFits, InterfaceFits, HeldFits, IsTupleKind, member_kinds};
ghost use Rattle.uno_model.specs.Kinds as kd;
ghost use Rattle.uno_model.specs.Sound.{IsSound};
ghost use Rattle.uno_model.specs.Types.{is_type};
ghost use Rattle.uno_entities.specs.TypeNames.{kind_of};
ghost use Rattle.uno_values.specs.References.{ref_of};
ghost use Rattle.uno_values.specs.Fitting.{kinds_of};
ghost use Rattle.uno_values.specs.Values.{plain_of, plains_of};

use crate::{AnyValue, Reference, Value};
use uno_entities::is_identity;
use uno_types::{Field, Level, Name, Registry, TypeName};

/// Whether the value is one of this type: null and the objects that the interface may stand for, and of each other type the
/// values of just that type. Each type that the value names is one of the registry.
#[cycle(fits)]
#[tactic(auto, unfolding(uno_model::specs::Fits::Fits))]
pub fn fits(registry: &Registry, value: &Value, kind: &TypeName) -> bool
    requires { IsSound registry.now }
    ensures { IsTrue result ↔ Fits registry.now (plain_of value.now) (kind_of kind.now) }
{
    match value {
        Value::Void => kind.is(&TypeName::Void),
        Value::Char(_) => kind.is(&TypeName::Char),
        Value::Boolean(_) => kind.is(&TypeName::Boolean),
        Value::Byte(_) => kind.is(&TypeName::Byte),
        Value::Short(_) => kind.is(&TypeName::Short),
        Value::UnsignedShort(_) => kind.is(&TypeName::UnsignedShort),
        Value::Long(_) => kind.is(&TypeName::Long),
        Value::UnsignedLong(_) => kind.is(&TypeName::UnsignedLong),
        Value::Hyper(_) => kind.is(&TypeName::Hyper),
        Value::UnsignedHyper(_) => kind.is(&TypeName::UnsignedHyper),
        Value::Str(_) => kind.is(&TypeName::Str),
        Value::Kind(named) => type_fits(registry, named, kind),
        Value::Any(any) => any_fits(registry, any, kind),
        Value::Enum(name, _) => enum_fits(registry, name, kind),
        Value::Tuple(name, members) => tuple_fits(registry, name, members, kind),
        Value::List(element, elements) => list_fits(registry, elements, element, kind),
        Value::Bytes(_) => is_bytes(kind),
        Value::Ref(reference) => reference_fits(registry, reference, kind),
    }
}

/// A type, which is one of the registry.
fn type_fits(registry: &Registry, named: &TypeName, kind: &TypeName) -> bool
    ensures { IsTrue result ↔ ((kind_of kind.now ≡ kd.kind) × IsTrue (is_type registry.now (kind_of named.now))) }
{
    if !matches!(kind, TypeName::Kind) {
        return false;
    }
    registry.has_type(named)
}

/// What an any holds fits the any's own type, which is not any.
#[cycle(fits)]
fn any_fits(registry: &Registry, any: &AnyValue, kind: &TypeName) -> bool
    requires { IsSound registry.now }
    ensures { IsTrue result ↔ ((kind_of kind.now ≡ kd.any) × (kind_of any.now.kind ≢ kd.any) × IsTrue (is_type registry.now (kind_of any.now.kind))
        × Fits registry.now (plain_of any.now.value) (kind_of any.now.kind)) }
{
    if !matches!(kind, TypeName::Any) {
        return false;
    }
    if matches!(any.kind, TypeName::Any) {
        return false;
    }
    if !registry.has_type(&any.kind) {
        return false;
    }
    fits(registry, &any.value, &any.kind)
}

/// Any number of an enum of the registry.
fn enum_fits(registry: &Registry, name: &Name, kind: &TypeName) -> bool
    ensures { IsTrue result ↔ ((kind_of kind.now ≡ kd.enum name.now) × IsTrue (is_type registry.now (kind_of kind.now))) }
{
    if !kind.is_enum(name) {
        return false;
    }
    registry.has_type(kind)
}

/// A struct or an exception of the registry, and a value for each member.
#[cycle(fits)]
fn tuple_fits(registry: &Registry, name: &Name, members: &[Value], kind: &TypeName) -> bool
    requires { IsSound registry.now }
    ensures { IsTrue result ↔ (IsTupleKind name.now (kind_of kind.now) × IsTrue (is_type registry.now (kind_of kind.now))
        × FitEach registry.now (plains_of members.now) (member_kinds registry.now name.now)) }
{
    if !is_tuple_type(registry, name, kind) {
        return false;
    }
    members_fit(registry, name.as_str(), members)
}

/// A struct or an exception of the registry.
fn is_tuple_type(registry: &Registry, name: &Name, kind: &TypeName) -> bool
    ensures { IsTrue result ↔ (IsTupleKind name.now (kind_of kind.now) × IsTrue (is_type registry.now (kind_of kind.now))) }
{
    if !is_tuple(name, kind) {
        return false;
    }
    registry.has_type(kind)
}

fn is_tuple(name: &Name, kind: &TypeName) -> bool
    ensures { IsTrue result ↔ IsTupleKind name.now (kind_of kind.now) }
{
    if kind.is_struct(name) {
        return true;
    }
    kind.is_exception(name)
}

/// A value for each member: those of the name itself are the last, and those of its bases stand before them.
#[cycle(fits)]
fn members_fit(registry: &Registry, name: &str, members: &[Value]) -> bool
    requires { IsSound registry.now }
    ensures { IsTrue result ↔ FitEach registry.now (plains_of members.now) (member_kinds registry.now name.now) }
{
    let mut at = name;
    let mut end = members.len();
    let mut left = registry.entities().len() as u128 + 1;
    while left > 0 {
        let Level { own, base } = registry.level(at);
        let Some(start) = end.checked_sub(own.len()) else {
            return false
        };
        if !own_fit(registry, own, members, start) {
            return false;
        }
        let Some(base) = base else { return start == 0 };
        at = base;
        end = start;
        left -= 1;
    }
    end == 0
}

/// The values from a place on, one for each of these members.
#[cycle(fits)]
#[tactic(auto, unfolding(uno_model::specs::Fits::FitEach))]
fn own_fit(registry: &Registry, fields: &[Field], members: &[Value], start: usize) -> bool
    requires sound { IsSound registry.now }
    requires there { start + length fields.now ≤ length members.now }
    ensures { IsTrue result ↔ FitEach registry.now (plains_of (take (length fields.now) (drop start members.now))) (kinds_of fields.now) }
{
    let mut place = start;
    for field in fields {
        if !fits(registry, &members[place], &field.kind) {
            return false;
        }
        place += 1;
    }
    true
}

/// A sequence of the registry whose elements are no bytes, and elements that fit their type.
#[cycle(fits)]
fn list_fits(registry: &Registry, elements: &[Value], element: &TypeName, kind: &TypeName) -> bool
    requires { IsSound registry.now }
    ensures { IsTrue result ↔ ((kind_of kind.now ≡ kd.sequence (kind_of element.now)) × (kind_of element.now ≢ kd.byte)
        × IsTrue (is_type registry.now (kind_of kind.now)) × FitAll registry.now (plains_of elements.now) (kind_of element.now)) }
{
    if !is_list_type(registry, element, kind) {
        return false;
    }
    all_fit(registry, elements, element)
}

/// A sequence of the registry whose elements are no bytes.
fn is_list_type(registry: &Registry, element: &TypeName, kind: &TypeName) -> bool
    ensures { IsTrue result ↔ ((kind_of kind.now ≡ kd.sequence (kind_of element.now)) × (kind_of element.now ≢ kd.byte)
        × IsTrue (is_type registry.now (kind_of kind.now))) }
{
    if !is_sequence_of(element, kind) {
        return false;
    }
    if matches!(element, TypeName::Byte) {
        return false;
    }
    registry.has_type(kind)
}

fn is_sequence_of(element: &TypeName, kind: &TypeName) -> bool
    ensures { IsTrue result ↔ (kind_of kind.now ≡ kd.sequence (kind_of element.now)) }
{
    match kind {
        TypeName::Sequence(inner) => inner.is(element),
        _ => false,
    }
}

#[cycle(fits)]
#[tactic(auto, unfolding(uno_model::specs::Fits::FitAll))]
fn all_fit(registry: &Registry, elements: &[Value], kind: &TypeName) -> bool
    requires { IsSound registry.now }
    ensures { IsTrue result ↔ FitAll registry.now (plains_of elements.now) (kind_of kind.now) }
{
    for element in elements {
        if !fits(registry, element, kind) {
            return false;
        }
    }
    true
}

fn is_bytes(kind: &TypeName) -> bool
    ensures { IsTrue result ↔ (kind_of kind.now ≡ kd.sequence kd.byte) }
{
    match kind {
        TypeName::Sequence(inner) => matches!(**inner, TypeName::Byte),
        _ => false,
    }
}

/// A reference fits no type but interfaces.
fn reference_fits(registry: &Registry, reference: &Reference, kind: &TypeName) -> bool
    requires { IsSound registry.now }
    ensures { IsTrue result ↔ RefFits registry.now (kind_of kind.now) (ref_of reference.now) }
{
    match kind {
        TypeName::Interface(wanted) => interface_fits(registry, reference, wanted),
        TypeName::Void
        | TypeName::Char
        | TypeName::Boolean
        | TypeName::Byte
        | TypeName::Short
        | TypeName::UnsignedShort
        | TypeName::Long
        | TypeName::UnsignedLong
        | TypeName::Hyper
        | TypeName::UnsignedHyper
        | TypeName::Str
        | TypeName::Kind
        | TypeName::Any
        | TypeName::Enum(_)
        | TypeName::Struct(_)
        | TypeName::Exception(_)
        | TypeName::Sequence(_) => false,
    }
}

/// Null fits each interface of the registry, and an object those to which the interface under which it is held is assignable.
fn interface_fits(registry: &Registry, reference: &Reference, wanted: &Name) -> bool
    requires { IsSound registry.now }
    ensures { IsTrue result ↔ InterfaceFits registry.now wanted.now (ref_of reference.now) }
{
    match reference {
        Reference::Null => registry.has_interface(wanted.as_str()),
        Reference::Local { oid, face } => held_fits(registry, oid.as_str(), face, wanted),
        Reference::Remote { oid, face } => held_fits(registry, oid.as_str(), face, wanted),
    }
}

fn held_fits(registry: &Registry, oid: &str, face: &Name, wanted: &Name) -> bool
    requires { IsSound registry.now }
    ensures { IsTrue result ↔ HeldFits registry.now oid.now face.now wanted.now }
{
    if !is_identity(oid) {
        return false;
    }
    if !registry.has_interface(face.as_str()) {
        return false;
    }
    registry.has_base(wanted.as_str(), face.as_str())
}
