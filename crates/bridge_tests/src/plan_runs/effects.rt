//! The effects of statements, by rows: a case, the statement of its method, and what is asked. Values are shown by their literals, objects
//! that are called by their identities.
ghost use Rattle.uno_model.specs.Sound.{IsSound};

mod jobs;
mod leaving;
mod manager;
mod showing;

use crate::plan_runs::FACE;
use crate::texts::{plan_of, registry_of};
use jobs::{Called, asked};
use plan_types::Plan;
use std::alloc::Global;
use std::process::Abort;
use uno_types::Registry;

pub(crate) const ENTITIES: &str = "unoreg 1\n\
    exception t.Refused com.sun.star.uno.Exception\nmember what any\nend\n\
    exception t.Worse t.Refused\nend\n\
    interface t.XNode\nbase com.sun.star.uno.XInterface\n\
    method ask long\nparam in a long\nparam out b long\nraises t.Refused\n\
    method idle long\nparam in a long\nparam out b long\nraises t.Refused\n\
    method pass any\nparam in it any\nparam out b long\nraises t.Refused\n\
    method meet long\nparam in node t.XNode\nparam out b long\nraises t.Refused\n\
    method rest void\nparam in a long\nparam out b long\nraises t.Refused\n\
    end\n";

/// The written method, the number of the called one, the place of the statement, the frames of the stack, and what `$what` is.
#[derive(Clone, Copy)]
struct Case {
    written: &'static str,
    function: u16,
    place: u32,
    frames: u32,
    what: &'static str,
}

/// A call of `ask`, for which the one method is written.
const ASKED: Case = Case {
    written: "ask",
    function: 3,
    place: 4,
    frames: 1,
    what: "(void)",
};

/// A call of `idle`, for which none is written.
const IDLE: Case = Case {
    written: "ask",
    function: 4,
    place: 4,
    frames: 1,
    what: "(void)",
};

/// A call of `rest`, whose result is void, at the end behind its last statement.
const RESTED: Case = Case {
    written: "rest",
    function: 7,
    place: 6,
    frames: 1,
    what: "(void)",
};

/// On a stack with one frame less than it may have when it calls, and on one with all.
const HIGH: Case = Case {
    written: "ask",
    function: 3,
    place: 4,
    frames: 999,
    what: "(void)",
};

const FULL: Case = Case {
    written: "ask",
    function: 3,
    place: 4,
    frames: 1000,
    what: "(void)",
};

/// `$what` weighs more, or is nested deeper, than a value may.
const LARGE: Case = Case {
    written: "pass",
    function: 5,
    place: 4,
    frames: 1,
    what: "*16777217",
};

const DEEP: Case = Case {
    written: "pass",
    function: 5,
    place: 4,
    frames: 1,
    what: "deep",
};

/// The same on a stack that is full.
const FULL_AND_LARGE: Case = Case {
    written: "pass",
    function: 5,
    place: 4,
    frames: 1000,
    what: "*16777217",
};

/// `$what` weighs just what a value may, or is nested just as deep: a message with it is too much.
const HEAVIEST: Case = Case {
    written: "pass",
    function: 5,
    place: 4,
    frames: 1,
    what: "*16777216",
};

const DEEPEST: Case = Case {
    written: "pass",
    function: 5,
    place: 4,
    frames: 1,
    what: "deepest",
};

/// An exception with `$what` weighs just what a value may, or is nested just as deep.
const HEAVIEST_RAISED: Case = Case {
    written: "pass",
    function: 5,
    place: 4,
    frames: 1,
    what: "*16777210",
};

const DEEPEST_RAISED: Case = Case {
    written: "pass",
    function: 5,
    place: 4,
    frames: 1,
    what: "deepest raised",
};

/// It is nested one less deep, as deep as what is raised may be.
const DEEPEST_LEAVING: Case = Case {
    written: "pass",
    function: 5,
    place: 4,
    frames: 1,
    what: "deepest leaving",
};

/// A case, a statement, and what is asked, where `$what` stands for its literal.
type Row = (Case, &'static str, &'static str);

const ROWS: &[Row] = &[
    (ASKED, "let x long = 5", "lets x 5"),
    (ASKED, "let x long = $a", "lets x 5"),
    (ASKED, "let x long = add($a,1)", "lets x 6"),
    (ASKED, "let x long = $.last", "lets x 8"),
    (ASKED, "let x t.XNode = $self", "lets x @\"S;1\"<t.XNode>"),
    (ASKED, "set $a = 6", "sets a 6"),
    (ASKED, "set $.last = add($a,1)", "keeps last 6"),
    (ASKED, "call $peer.ask(6,$b)", "calls C;2 3 to - with 6"),
    (
        ASKED,
        "call x long = $peer.ask(add($a,1),$b)",
        "calls C;2 3 to x with 6",
    ),
    (
        ASKED,
        "call x long = $self.meet($self,$b)",
        "calls S;1 6 to x with @\"S;1\"<t.XNode>",
    ),
    (ASKED, "query x t.XNode = $peer", "queries C;2 t.XNode to x"),
    (ASKED, "new x t.XNode = Node", "makes 0 t.XNode x"),
    (ASKED, "drop $a", "drops a"),
    (ASKED, "when $a == 5 return 6", "returns 6 with 7"),
    (ASKED, "when $a == 4 return 6", "skips"),
    (ASKED, "when $a < 6 return add($a,1)", "returns 6 with 7"),
    (ASKED, "when $a < 5 return add($most,1)", "skips"),
    (ASKED, "when $.last == 8 return 6", "returns 6 with 7"),
    (ASKED, "when $.last == $a return 6", "skips"),
    (ASKED, "when $.last < 9 return 6", "returns 6 with 7"),
    (ASKED, "when $.last < $.last return 6", "skips"),
    (ASKED, "when $self == $self return 6", "returns 6 with 7"),
    (ASKED, "when $self == $peer return 6", "skips"),
    (ASKED, "when $none == $self return 6", "skips"),
    (ASKED, "when $none == $none return 6", "returns 6 with 7"),
    (ASKED, "return add($a,1)", "returns 6 with 7"),
    (
        ASKED,
        "raise t.Refused {\"no\",null,(long)7}",
        "raises (t.Refused){\"no\",null,(long)7}",
    ),
    (
        ASKED,
        "raise t.Worse {\"no\",null,(long)7}",
        "raises (t.Worse){\"no\",null,(long)7}",
    ),
    (
        ASKED,
        "raise com.sun.star.lang.DisposedException {\"no\",null}",
        "raises (com.sun.star.lang.DisposedException){\"no\",null}",
    ),
    (
        ASKED,
        "raise com.sun.star.uno.Exception {\"no\",null}",
        "raises (com.sun.star.uno.RuntimeException){\"undeclared com.sun.star.uno.Exception\",null}",
    ),
    (ASKED, "dispose", "disposes"),
    (RESTED, "dispose", "returns void with 7"),
    (IDLE, "return 5", "returns 0 with 0"),
    (
        ASKED,
        "call $none.ask(add($most,1),$b)",
        "raises (com.sun.star.uno.RuntimeException){\"null\",null}",
    ),
    (
        ASKED,
        "query x t.XNode = $none",
        "raises (com.sun.star.uno.RuntimeException){\"null\",null}",
    ),
    (
        ASKED,
        "let x long = add($most,1)",
        "raises (com.sun.star.uno.RuntimeException){\"range\",null}",
    ),
    (
        FULL,
        "call $peer.ask(add($most,1),$b)",
        "raises (com.sun.star.uno.RuntimeException){\"range\",null}",
    ),
    (HIGH, "call $peer.ask(6,$b)", "calls C;2 3 to - with 6"),
    (
        FULL,
        "call $peer.ask(6,$b)",
        "raises (com.sun.star.uno.RuntimeException){\"depth\",null}",
    ),
    (
        FULL,
        "query x t.XNode = $peer",
        "raises (com.sun.star.uno.RuntimeException){\"depth\",null}",
    ),
    (
        DEEP,
        "let x any = $what",
        "raises (com.sun.star.uno.RuntimeException){\"too deep\",null}",
    ),
    (
        ASKED,
        "when $a == add($most,1) return 6",
        "raises (com.sun.star.uno.RuntimeException){\"range\",null}",
    ),
    (
        ASKED,
        "when $a == 5 return add($most,1)",
        "raises (com.sun.star.uno.RuntimeException){\"range\",null}",
    ),
    (
        ASKED,
        "raise t.Refused {\"no\",null,(long)add($most,1)}",
        "raises (com.sun.star.uno.RuntimeException){\"range\",null}",
    ),
    (DEEPEST, "let x any = $what", "lets x $what"),
    (
        DEEPEST,
        "call $peer.pass($what,$b)",
        "calls C;2 5 to - with $what",
    ),
    (
        DEEP,
        "call $peer.pass($what,$b)",
        "raises (com.sun.star.uno.RuntimeException){\"too deep\",null}",
    ),
    (DEEPEST, "return $what", "returns $what with 7"),
    (
        DEEPEST_RAISED,
        "raise t.Refused {\"no\",null,$what}",
        "raises (com.sun.star.uno.RuntimeException){\"too deep\",null}",
    ),
    (
        DEEPEST_LEAVING,
        "raise t.Refused {\"no\",null,$what}",
        "raises (t.Refused){\"no\",null,$what}",
    ),
];

/// Rows of large values.
const LARGE_ROWS: &[Row] = &[
    (
        LARGE,
        "let x any = $what",
        "raises (com.sun.star.uno.RuntimeException){\"too large\",null}",
    ),
    (HEAVIEST, "let x any = $what", "lets x weighing 16777216"),
    (
        HEAVIEST,
        "call $peer.pass($what,$b)",
        "raises (com.sun.star.uno.RuntimeException){\"too large\",null}",
    ),
    (
        FULL_AND_LARGE,
        "call $peer.pass($what,$b)",
        "raises (com.sun.star.uno.RuntimeException){\"depth\",null}",
    ),
    (
        HEAVIEST,
        "return $what",
        "raises (com.sun.star.uno.RuntimeException){\"too large\",null}",
    ),
    (
        HEAVIEST_RAISED,
        "raise t.Refused {\"no\",null,$what}",
        "raises (com.sun.star.uno.RuntimeException){\"too large\",null}",
    ),
];

/// The literal of so many anys in one another, each of a sequence, round a last one. Each is nested two deep.
fn nested(rt: &impl Abort, alloc: Global, anys: usize, last: &str) -> String {
    let front = "([]any)[".repeat(alloc, anys).expect(rt, "no memory");
    let back = "]".repeat(alloc, anys).expect(rt, "no memory");
    format!(in alloc; "{front}{last}{back}").expect(rt, "no memory")
}

/// The literal of `$what`. A value is nested 64 deep at most.
fn literal(rt: &impl Abort, alloc: Global, what: &str) -> String {
    match what {
        "deep" => nested(rt, alloc, 31, "([]long)[5]"),
        "deepest" => nested(rt, alloc, 31, "(long)5"),
        "deepest raised" => nested(rt, alloc, 30, "([]long)[5]"),
        "deepest leaving" => nested(rt, alloc, 30, "(long)5"),
        _ => nested(rt, alloc, 0, what),
    }
}

/// A plan whose one behaviour has a method of this statement, behind four that begin variables.
fn plan(rt: &impl Abort, alloc: Global, registry: &Registry, case: &Case, statement: &str) -> Plan
    requires { IsSound registry.now }
{
    let method = case.written;
    let text = format!(in alloc;
        "unoplan 1\nbehaviour Node t.XNode\nfield last long\nmethod t.XNode {method}\n\
        let most long = 2147483647\nlet none t.XNode = null\nlet peer t.XNode = null\nlet what any = (void)\n\
        {statement}\nraise t.Refused {{\"end\",null,(void)}}\nend\nend\n"
    );
    plan_of(rt, alloc, registry, &text.expect(rt, "no memory"))
}

/// What a case asks where the literal of `$what` is this.
fn asked_by(
    rt: &impl Abort,
    alloc: Global,
    registry: &Registry,
    case: &Case,
    statement: &str,
    what: &str,
) -> String
    requires { IsSound registry.now }
{
    let plan = plan(rt, alloc, registry, case, statement);
    let called = Called {
        face: FACE,
        function: case.function,
        place: case.place,
        frames: case.frames,
        behaviour: 0,
        fields: &[("last", "long", "8")],
    };
    let words = [
        ("a", "long", "5"),
        ("b", "long", "7"),
        ("most", "long", "2147483647"),
        ("none", "t.XNode", "null"),
        ("peer", "t.XNode", "@C;2"),
        ("what", "any", what),
    ];
    asked(rt, alloc, registry, &plan, &called, &words)
}

fn see(rt: &impl Abort, alloc: Global, registry: &Registry, row: &Row)
    requires { IsSound registry.now }
{
    let (case, statement, wanted) = row;
    let what = literal(rt, alloc, case.what);
    let said = asked_by(rt, alloc, registry, case, statement, &what);
    let wanted = wanted.replace(alloc, "$what", &what);
    assert_eq!(rt; said, wanted.expect(rt, "no memory"), "at {statement}");
}

fn see_rows(rt: &impl Abort, alloc: Global, rows: &[Row]) {
    let registry = registry_of(rt, alloc, ENTITIES);
    for row in rows {
        see(rt, alloc, &registry, row);
    }
}

#[test]
fn statements_ask_what_the_rows_say(rt: HostRuntime) {
    see_rows(&rt, rt.alloc(), ROWS);
}

#[test]
fn large_values_are_no_more_than_a_message_may_weigh(rt: HostRuntime) {
    see_rows(&rt, rt.alloc(), LARGE_ROWS);
}
