//! What leaves a method that an exception ends, by rows: an exception, and the one that leaves.
ghost use Rattle.uno_model.specs.Sound.{IsSound};

use crate::plan_runs::FACE;
use crate::plan_runs::effects::ENTITIES;
use crate::shown::Shown;
use crate::texts::{name_of, registry_of, tid_of, value_of};
use behaviour::{caused, leaving_exception};
use plan_types::RuntimeCause;
use std::alloc::Global;
use std::process::Abort;
use uno_types::Registry;
use uno_values::{AnyValue, Value};

const ROWS: &[(&str, &str)] = &[
    (
        "(t.Refused){\"m\",null,(long)7}",
        "(t.Refused){\"m\",null,(long)7}",
    ),
    (
        "(t.Worse){\"m\",null,(long)7}",
        "(t.Worse){\"m\",null,(long)7}",
    ),
    (
        "(com.sun.star.uno.RuntimeException){\"m\",null}",
        "(com.sun.star.uno.RuntimeException){\"m\",null}",
    ),
    (
        "(com.sun.star.uno.Exception){\"m\",null}",
        "(com.sun.star.uno.RuntimeException){\"undeclared com.sun.star.uno.Exception\",null}",
    ),
];

fn exception(rt: &impl Abort, alloc: Global, value: &Value) -> AnyValue {
    match value {
        Value::Any(any) => any.copy(alloc).expect(rt, "no memory"),
        _ => panic!(rt; "no exception"),
    }
}

/// What leaves a call of `ask`.
fn left(rt: &impl Abort, alloc: Global, registry: &Registry, raised: &str) -> AnyValue
    requires { IsSound registry.now }
{
    let value = value_of(rt, alloc, registry, "any", raised);
    let raised = exception(rt, alloc, &value);
    drop(value);
    let tid = tid_of(rt, alloc, b"T");
    let face = name_of(rt, alloc, FACE);
    leaving_exception(alloc, registry, &tid, &face, 3, raised).expect(rt, "no memory")
}

fn see(rt: &impl Abort, alloc: Global, registry: &Registry, exception: &AnyValue, wanted: &str) {
    let mut said = Shown::new(alloc);
    said.put_any(registry, exception);
    assert_eq!(rt; said.as_str(), wanted);
}

#[test]
fn an_exception_leaves_that_its_function_may_raise(rt: HostRuntime) {
    let registry = registry_of(&rt, rt.alloc(), ENTITIES);
    for (raised, wanted) in ROWS {
        let left = left(&rt, rt.alloc(), &registry, raised);
        see(&rt, rt.alloc(), &registry, &left, wanted);
    }
}

#[test]
fn a_cause_is_a_runtime_exception(rt: HostRuntime) {
    let registry = registry_of(&rt, rt.alloc(), ENTITIES);
    let exception = caused(rt.alloc(), RuntimeCause::Depth).expect(&rt, "no memory");
    see(
        &rt,
        rt.alloc(),
        &registry,
        &exception,
        "(com.sun.star.uno.RuntimeException){\"depth\",null}",
    );
}
