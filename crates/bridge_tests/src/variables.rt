//! The variables of a frame, by scripts: each row has calls, and what they answer.
//!
//! `add a 1`, `put a 3`, `out a` (`take_out`); `first 4 5 7`, which variables the function 4 of `demo.XNode` begins with where it has
//! these arguments; `answer r 9 5 6`, the answer 9 to a call whose result becomes `r` (`-`: it is not named), with 5 and 6 that came out
//! for `a` and `b`; `take q demo.XNode V` and `sort demo.XNode V`, the answer V to a query. Values that are given back are shown, void
//! too, and none as `-`; `show` shows the variables.
ghost use Rattle.uno_model.specs.Sound.{IsSound};

use crate::registries::{NODE, plan, registry};
use crate::shown::{Shown, cut};
use crate::texts::name_of;
use crate::values::{put_reference, put_value, show_value, show_values, value_of, values_of};
use frame_variables::{Found, add, first_variables, sort_answer, take_answer, take_reference};
use named_variables::{put, take_out};
use plan_types::{Call, Plan, Statement, Variable};
use std::alloc::Global;
use std::process::Abort;
use type_registry::function_numbered;
use uno_types::Registry;
use uno_values::Value;

const ROWS: &[(&str, &str)] = &[
    ("show,add a 1,add b 2,add a 3,show", " - a=1 b=2 a=3"),
    (
        "add a 1,add b 2,add a 3,put a 5,put b own:S;1/n,put z 9,show",
        " 1 2 void a=5 b=own:S;1/n a=3",
    ),
    (
        "add a 1,add b 2,add a 3,out a,out z,show,out b,out b,show",
        " 1 void b=2 2 void -",
    ),
    ("first 3 5,first 3 5 6,first 3", " a=5 a=5 a=void"),
    (
        "first 4 5 7,first 4 5,first 4 <5 own:S;1/n",
        " a=5 b=0 c=7 a=5 b=0 c=void a=<5 b=0 c=own:S;1/n",
    ),
    ("add a 1,add b 2,answer r 9 5 6,show", " 1 2 a=5 b=6 r=9"),
    ("add a 1,add b 2,answer - 9 5 6,show", " 9 1 2 a=5 b=6"),
    ("add a 1,add b 2,answer r 9 5,show", " 1 a=5 b=2 r=9"),
    ("add b 2,answer r 9 5 6,show", " void 2 b=6 r=9"),
    ("add a 1,answer r 9,answer - 8,show", " - 8 a=1 r=9"),
    (
        "take q demo.XNode <peer:C;1/demo.XNode,take p demo.XBase <own:S;1/demo.XNode,show",
        " - - q=peer:C;1/demo.XNode p=own:S;1/demo.XNode",
    ),
    (
        "take q demo.XNode <peer:C;1/demo.XBase,take p demo.XOther <peer:C;1/demo.XNode,show",
        " <peer:C;1/demo.XBase <peer:C;1/demo.XNode q=null p=null",
    ),
    (
        "take q demo.XNode peer:C;1/demo.XNode,take p demo.XNode <5,take o demo.XNode 5,show",
        " peer:C;1/demo.XNode <5 5 q=null p=null o=null",
    ),
    ("take q demo.XNode <null:/demo.XNode,show", " - q=null"),
    (
        "sort com.sun.star.uno.XInterface <peer:C;1/demo.XNode,sort demo.XOther <own:S;1/demo.XNode,sort demo.XNode [<5&6,show",
        " peer:C;1/demo.XNode - null <own:S;1/demo.XNode null [<5&6 -",
    ),
];

/// Shows variables; where there is none, a mark.
fn show(shown: &mut Shown, variables: &[Variable]) {
    if variables.is_empty() {
        return shown.word("-");
    }
    for variable in variables {
        shown.word(variable.name.as_str());
        shown.put("=");
        put_value(shown, &variable.value);
    }
}

/// Shows what a query gave back.
fn show_rest(shown: &mut Shown, rest: &Option<Value>) {
    match rest {
        Some(value) => show_value(shown, value),
        None => shown.word("-"),
    }
}

/// A call about a variable.
fn on_variable(
    rt: &impl Abort,
    alloc: Global,
    variables: &mut Vec<Variable>,
    what: &str,
    words: &str,
    shown: &mut Shown,
) {
    let (to, word) = cut(words, ' ');
    let name = name_of(rt, alloc, to);
    match what {
        "add" => shown.done(add(variables, name, value_of(rt, alloc, word))),
        "put" => {
            let was = put(variables, &name, value_of(rt, alloc, word));
            show_value(shown, &was);
        }
        "out" => show_value(shown, &take_out(variables, &name)),
        _ => shown.word("?"),
    }
}

/// The variables that a function begins with.
fn show_first(rt: &impl Abort, alloc: Global, registry: &Registry, words: &str, shown: &mut Shown)
    requires { IsSound registry.now }
{
    let (number, words) = cut(words, ' ');
    let number = number.parse::<u16>().unwrap_or(0);
    let function = function_numbered(registry, NODE, number).expect(rt, "no function");
    let args = values_of(rt, alloc, words);
    let variables = first_variables(alloc, registry, &function, args);
    show(shown, &variables.expect(rt, "no memory"));
}

/// The call at a place of the one method of the plan.
fn call_at(plan: &Plan, place: usize) -> Option<&Call> {
    let behaviour = plan.behaviours.first()?;
    let method = behaviour.methods.first()?;
    match method.body.get(place) {
        Some(Statement::Call(call)) => Some(call),
        _ => None,
    }
}

/// The answer to the call whose result is named `r`, or is not named.
fn answered(
    rt: &impl Abort,
    alloc: Global,
    plan: &Plan,
    variables: &mut Vec<Variable>,
    words: &str,
    shown: &mut Shown,
) {
    let (to, words) = cut(words, ' ');
    let (value, outs) = cut(words, ' ');
    let call = call_at(plan, if to == "-" { 1 } else { 0 }).expect(rt, "no call");
    let value = value_of(rt, alloc, value);
    let outs = values_of(rt, alloc, outs);
    let gone = take_answer(alloc, call, value, outs, variables);
    show_values(shown, &gone.expect(rt, "no memory"));
}

/// The answer to a query, which becomes a variable.
fn taken(
    rt: &impl Abort,
    alloc: Global,
    registry: &Registry,
    variables: &mut Vec<Variable>,
    words: &str,
    shown: &mut Shown,
)
    requires { IsSound registry.now }
{
    let (to, words) = cut(words, ' ');
    let (wanted, word) = cut(words, ' ');
    let wanted = name_of(rt, alloc, wanted);
    let to = name_of(rt, alloc, to);
    let answer = value_of(rt, alloc, word);
    let rest = take_reference(registry, &wanted, to, answer, variables);
    show_rest(shown, &rest.expect(rt, "no memory"));
}

/// The reference in the answer to a query.
fn sorted(rt: &impl Abort, alloc: Global, registry: &Registry, words: &str, shown: &mut Shown)
    requires { IsSound registry.now }
{
    let (wanted, word) = cut(words, ' ');
    let wanted = name_of(rt, alloc, wanted);
    let Found { reference, rest } = sort_answer(registry, &wanted, value_of(rt, alloc, word));
    shown.put(" ");
    put_reference(shown, &reference);
    show_rest(shown, &rest);
}

fn step(
    rt: &impl Abort,
    alloc: Global,
    registry: &Registry,
    plan: &Plan,
    variables: &mut Vec<Variable>,
    call: &str,
    shown: &mut Shown,
)
    requires { IsSound registry.now }
{
    let (what, words) = cut(call, ' ');
    match what {
        "first" => show_first(rt, alloc, registry, words, shown),
        "answer" => answered(rt, alloc, plan, variables, words, shown),
        "take" => taken(rt, alloc, registry, variables, words, shown),
        "sort" => sorted(rt, alloc, registry, words, shown),
        "show" => show(shown, variables),
        _ => on_variable(rt, alloc, variables, what, words, shown),
    }
}

/// Sees what the calls of a row answer.
fn see(rt: &impl Abort, alloc: Global, registry: &Registry, plan: &Plan, calls: &str, wanted: &str)
    requires { IsSound registry.now }
{
    let mut variables = Vec::new(alloc);
    let mut shown = Shown::new(alloc);
    for call in calls.split(',') {
        step(rt, alloc, registry, plan, &mut variables, call, &mut shown);
    }
    shown.see(rt, calls, wanted);
}

#[test]
fn calls_answer_as_the_rows_say(rt: HostRuntime) {
    let registry = registry(&rt, rt.alloc());
    let plan = plan(&rt, rt.alloc(), &registry, "");
    for (calls, wanted) in ROWS {
        see(&rt, rt.alloc(), &registry, &plan, calls, wanted);
    }
}
