//! What the methods of the service manager ask, by rows: the number of the function, the literals of the name and of the arguments that
//! it is given, and what is asked.
use crate::plan_runs::effects::jobs::{Called, asked};
use crate::plan_runs::services::{NONE, plan_with, registry_with};
use std::process::Abort;

const ROWS: &[(u16, &str, &str, &str)] = &[
    (3, "\"t.Nodes\"", "[]", "creates t.Nodes with"),
    (3, "\"t.Nodes\"", "[(long)5]", "creates t.Nodes with"),
    (3, "\"x\"", "[]", "creates x with"),
    (
        4,
        "\"t.Nodes\"",
        "[(long)5,(string)\"x\"]",
        "creates t.Nodes with (long)5 (string)\"x\"",
    ),
    (4, "\"t.one\"", "[]", "creates t.one with"),
    (4, "\"x\"", "[(long)5]", "creates x with (long)5"),
    (5, "\"\"", "[]", "returns [\"t.Nodes\"] with"),
    (1, "\"\"", "[]", "returns void with"),
    (6, "\"\"", "[]", "skips"),
];

/// A function of the service manager, whose number stands in the place of a behaviour's.
fn called(function: u16) -> Called {
    Called {
        face: "com.sun.star.lang.XMultiServiceFactory",
        function,
        place: 0,
        frames: 1,
        behaviour: 256,
        fields: &[],
    }
}

#[test]
fn the_service_manager_asks_what_the_rows_say(rt: HostRuntime) {
    let registry = registry_with(&rt, rt.alloc(), NONE);
    let plan = plan_with(&rt, rt.alloc(), &registry, "");
    for (function, name, args, wanted) in ROWS {
        let words = [
            ("ServiceSpecifier", "string", *name),
            ("Arguments", "[]any", *args),
        ];
        let said = asked(
            &rt,
            rt.alloc(),
            &registry,
            &plan,
            &called(*function),
            &words,
        );
        assert_eq!(rt; said.as_str(), *wanted, "at {function} of {name}");
    }
}
