//! The service manager, by rows: the name that is asked for, the constructors of the service as a registry has them, the fields of its
//! behaviour as a plan has them, the literal of the arguments, and what is created, as the values of the fields in their order.
ghost use Rattle.uno_model.specs.Sound.{IsSound};

use crate::shown::Shown;
use crate::texts::{plan_of, registry_of, value_of};
use plan_types::Plan;
use service_manager::{CreateError, Created, create, service_names};
use std::alloc::Global;
use std::process::Abort;
use uno_types::Registry;
use uno_values::Value;

type Row = (
    &'static str,
    &'static str,
    &'static str,
    &'static str,
    &'static str,
);

/// The service, and one constructor without parameters.
const SERVICE: &str = "t.Nodes";

pub(crate) const NONE: &str = "constructor first\n";

const LONG: &str = "constructor first\nparam in a long\n";

const ROWS: &[Row] = &[
    (SERVICE, NONE, "", "[]", "made"),
    (SERVICE, NONE, "", "[(long)5]", "bad"),
    (
        SERVICE,
        NONE,
        "field n long\nfield t string\n",
        "[]",
        "made 0 \"\"",
    ),
    (SERVICE, LONG, "field a long\n", "[(long)5]", "made 5"),
    (SERVICE, LONG, "field a long\n", "[(string)\"x\"]", "bad"),
    (SERVICE, LONG, "field a long\n", "[]", "bad"),
    (SERVICE, LONG, "field a long\n", "[(long)5,(long)6]", "bad"),
    (
        SERVICE,
        "constructor first\nparam in a any\n",
        "field a any\n",
        "[(long)5]",
        "made (long)5",
    ),
    (
        SERVICE,
        "constructor first\nparam in a long\nparam in b string\n",
        "field b string\nfield n long\nfield a long\n",
        "[(long)5,(string)\"x\"]",
        "made \"x\" 0 5",
    ),
    (
        SERVICE,
        "constructor first\nparam in a long\nconstructor second\nparam in b string\n",
        "field a long\nfield b string\n",
        "[(string)\"x\"]",
        "made 0 \"x\"",
    ),
    (
        SERVICE,
        "constructor first\nparam in a any\nconstructor second\nparam in b long\n",
        "field a any\nfield b long\n",
        "[(long)5]",
        "made (long)5 0",
    ),
    (
        SERVICE,
        "constructor first\nrest r\n",
        "field r []any\n",
        "[]",
        "made []",
    ),
    (
        SERVICE,
        "constructor first\nparam in a long\nrest r\n",
        "field r []any\nfield a long\n",
        "[(long)5,(string)\"x\",(long)6]",
        "made [(string)\"x\",(long)6] 5",
    ),
    (
        SERVICE,
        "constructor first\nparam in a long\nrest r\n",
        "field r []any\nfield a long\n",
        "[(string)\"x\"]",
        "bad",
    ),
    ("t.one", NONE, "", "[]", "singleton 0"),
    ("t.one", NONE, "", "[(long)5]", "bad"),
    ("x", NONE, "", "[]", "unknown"),
];

/// An interface, and a service with these constructors and a singleton of it.
pub(crate) fn registry_with(rt: &impl Abort, alloc: Global, constructors: &str) -> Registry
    ensures { IsSound result }
{
    let text = format!(in alloc;
        "unoreg 1\nservice t.Nodes new t.XNode\n{constructors}end\ninterface t.XNode\nbase com.sun.star.uno.XInterface\nend\nsingleton t.one new t.XNode\nend\n"
    );
    registry_of(rt, alloc, &text.expect(rt, "no memory"))
}

/// A plan whose one behaviour has these fields, with a service and a singleton of it.
pub(crate) fn plan_with(rt: &impl Abort, alloc: Global, registry: &Registry, fields: &str) -> Plan
    requires { IsSound registry.now }
{
    let text = format!(in alloc;
        "unoplan 1\nbehaviour Node t.XNode\n{fields}end\nservice t.Nodes Node\nsingleton t.one Node\n"
    );
    plan_of(rt, alloc, registry, &text.expect(rt, "no memory"))
}

fn elements(value: &Value) -> &[Value] {
    match value {
        Value::List(_, elements) => elements,
        _ => &[],
    }
}

fn put_created(said: &mut Shown, registry: &Registry, created: &Result<Created, CreateError>) {
    match created {
        Ok(Created::Fresh { fields, .. }) => {
            said.put("made");
            said.values(registry, fields);
        }
        Ok(Created::Singleton(place)) => {
            said.put("singleton ");
            said.put_number(u64::from(*place));
        }
        Err(CreateError::NoMemory) => said.put("no memory"),
        Err(CreateError::UnknownService) => said.put("unknown"),
        Err(CreateError::BadArguments) => said.put("bad"),
    }
}

fn see(rt: &impl Abort, alloc: Global, row: &Row) {
    let (name, constructors, fields, args, wanted) = *row;
    let registry = registry_with(rt, alloc, constructors);
    let plan = plan_with(rt, alloc, &registry, fields);
    let args = value_of(rt, alloc, &registry, "[]any", args);
    let created = create(alloc, &plan, &registry, name, elements(&args));
    let mut said = Shown::new(alloc);
    put_created(&mut said, &registry, &created);
    assert_eq!(rt; said.as_str(), wanted, "at {name} of {constructors}");
}

#[test]
fn names_take_arguments_as_the_rows_say(rt: HostRuntime) {
    for row in ROWS {
        see(&rt, rt.alloc(), row);
    }
}

#[test]
fn service_names_are_those_of_services(rt: HostRuntime) {
    let registry = registry_with(&rt, rt.alloc(), NONE);
    let plan = plan_with(&rt, rt.alloc(), &registry, "");
    let names = service_names(rt.alloc(), &plan, &registry).expect(&rt, "no memory");
    assert_eq!(rt; names.len(), 1);
    assert_eq!(rt; names[0].as_str(), SERVICE);
}
