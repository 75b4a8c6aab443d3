//! What the texts of a row say: registries, plans, values and names.
ghost use Rattle.std.specs.Prelude.{◌≡◌};
ghost use Rattle.uno_model.specs.Sound.{IsSound};

use behaviour_text::read_plan;
use plan_types::Plan;
use registry_reading::read_registry;
use std::alloc::Global;
use std::process::Abort;
use uno_types::{Name, Registry, Text, Tid};
use uno_values::Value;
use value_text::read_value;

pub(crate) fn name_of(rt: &impl Abort, alloc: Global, text: &str) -> Name
    ensures { result ≡ text.now }
{
    Name::of(alloc, text).expect(rt, "no memory")
}

pub(crate) fn text_of(rt: &impl Abort, alloc: Global, text: &str) -> Text
    ensures { result ≡ text.now }
{
    Text::of(alloc, text).expect(rt, "no memory")
}

pub(crate) fn tid_of(rt: &impl Abort, alloc: Global, bytes: &[u8]) -> Tid
    ensures { result ≡ bytes.now }
{
    Tid::of(alloc, bytes).expect(rt, "no memory")
}

pub(crate) fn registry_of(rt: &impl Abort, alloc: Global, text: &str) -> Registry
    ensures { IsSound result }
{
    read_registry(alloc, text.as_bytes()).expect(rt, text)
}

pub(crate) fn plan_of(rt: &impl Abort, alloc: Global, registry: &Registry, text: &str) -> Plan
    requires { IsSound registry.now }
{
    read_plan(alloc, registry, text.as_bytes()).expect(rt, text)
}

/// The value of a literal at the type of this name.
pub(crate) fn value_of(
    rt: &impl Abort,
    alloc: Global,
    registry: &Registry,
    kind: &str,
    literal: &str,
) -> Value
    requires { IsSound registry.now }
{
    let kind = registry.type_named(alloc, kind).expect(rt, "no memory");
    let kind = kind.expect(rt, literal);
    read_value(alloc, registry, literal, &kind).expect(rt, literal)
}
