//! The objects of an end with the tag `S`, of which the first never goes, by scripts: each row has calls, and what they answer.
//!
//! A pair is `S;2/n`, and a holder `f7` (a frame), `o1` (an object) or `r1` (a root). The calls are those of `Objects`, by short names:
//! `sent` and `released` stand for `sent_one` and `released_one`, `called` for `is_called_out`, `set` for `set_fields`, `named` for
//! `number_named`, and `made` for `objects_made`. An answer is `y`, `n` or a number, a refusal `!`, none `-`, and fields are their values.
ghost use Rattle.uno_model.specs.Sound.{IsSound};

use crate::registries::registry;
use crate::shown::{Shown, cut, number_in};
use crate::texts::{name_of, text_of};
use crate::values::{reference_of, show_values, values_of};
use bridge_objects::{Holder, Objects};
use std::alloc::Global;
use std::process::Abort;
use uno_types::{Name, Registry, Tag, Text};
use uno_values::Reference;

const ROWS: &[(&str, &str)] = &[
    (
        "lowest,made,living,make 0,make 3,make 4,made,living,lowest",
        " - 0 0 1 2 3 3 3 2",
    ),
    (
        "make 0,make 0,lowest,hold r1 S;2/n,hold f7 S;2/n,lowest,let_go r1 S;2/n,lowest,let_go f7 S;2/n,let_go f7 S;2/n,lowest",
        " 1 2 2 y n - n - y ! 2",
    ),
    (
        "hold r1 S;2/n,hold r1 S;2/n,hold f7 S;2/b,holders S;2/n,holders S;2/b,holders S;3/n",
        " y n y 2 1 0",
    ),
    (
        "hold r1 S;2/n,hold f7 S;2/b,holds r1 S;2/n,holds f7 S;2/n,holds o1 S;2/n,any_holds S;2/c,any_holds S;3/n",
        " y y y n n y n",
    ),
    (
        "hold o3 C;1/n,holds o3 C;1/n,holds r3 C;1/n,holds f3 C;1/n,let_go r3 C;1/n,let_go o3 C;1/n",
        " y y n n ! y",
    ),
    (
        "make 0,make 0,sent S;2/n,sent S;2/n,lowest,released S;2/n,has_stub S;2/n,has_stub S;2/b,any_stub S;2/b,lowest",
        " 1 2 - n y n y -",
    ),
    (
        "make 0,make 0,sent S;2/n,released S;2/b,released S;2/n,has_stub S;2/n,any_stub S;2/n,released S;2/n,lowest",
        " 1 2 ! y n n ! 2",
    ),
    (
        "make 0,make 0,make 0,hold r1 S;2/n,sent S;2/b,lowest,let_go r1 S;2/n,lowest,released S;2/b,lowest,remove 2,lowest,living,made",
        " 1 2 3 y 3 y 3 y 2 - 3 2 3",
    ),
    (
        "make 0,make 0,make 0,make 0,lowest,hold r1 S;2/n,hold r1 S;3/n,lowest,let_go r1 S;3/n,lowest,let_go r1 S;2/n,lowest",
        " 1 2 3 4 2 y y 4 y 3 y 2",
    ),
    (
        "make 5,set 1 7 own:S;2/n,object 1,set 1 8,object 1,set 2 9,object 2,remove 1,remove 1,object 1,named S;1",
        " 1 - 5 7 own:S;2/n 7 own:S;2/n 5 8 9 ! 8 - ! -",
    ),
    (
        "make 0,make 0,named S;1,named S;2,named S;3,named S;0,named S;02,named S;,named T;1,named SS;1,named S;4294967297",
        " 1 2 1 2 - - - - - - -",
    ),
    (
        "unmake,make 0,set 1 5,make 0,set 2 6,unmake,made,living,make 7,object 2,remove 2,unmake,made",
        " ! 1 - 2 - 6 1 1 2 7 - - ! 2",
    ),
    (
        "gain r1 null:/n,gain r1 own:S;1/n,gain r1 peer:C;1/n,holders S;1/n,holders C;1/n,holders /n",
        " 1 1 0",
    ),
    (
        "gain r1 own:S;1/n,gain r1 peer:C;1/n,lose r1 null:/n,lose r1 own:S;1/n,lose r1 own:S;1/n,lose f1 peer:C;1/n,holders S;1/n,holders C;1/n",
        " 0 1",
    ),
    (
        "gain_all r1 own:S;1/n peer:C;1/n null:/n own:S;1/n,holders S;1/n,holders C;1/n",
        " 2 1",
    ),
    (
        "gain_all r1 own:S;1/n own:S;1/n peer:C;1/n,lose_all r1 peer:C;1/n null:/n peer:C;1/n own:S;1/n,holders S;1/n,holders C;1/n",
        " 1 0",
    ),
    (
        "make 0,make 0,make 0,hold r1 S;2/n,hold f7 S;2/n,hold f8 S;3/n,sent S;2/n,sent S;3/n,lowest,end,lowest,living",
        " 1 2 3 y n y - 3 3",
    ),
    (
        "make 0,make 0,hold r1 S;2/n,hold f7 S;2/n,hold f8 S;3/n,end,holders S;2/n,holders S;3/n,let_go f7 S;2/n,let_go r1 S;2/n,lowest",
        " 1 2 y n y 1 0 ! y 2",
    ),
    (
        "hold o1 C;1/n,hold f7 C;1/n,sent S;2/n,sent S;2/n,end,holders C;1/n,any_stub S;2/n,released S;2/n",
        " y n 1 n !",
    ),
    (
        "make 0,sent S;1/demo.XNode,called S;1/demo.XNode,called S;1/demo.XBase,called S;1/demo.XOther,called S;2/demo.XNode,stubs",
        " 1 y y n n 1",
    ),
    (
        "make 0,sent S;1/demo.XNode,released S;1/demo.XNode,called S;1/demo.XNode,stubs",
        " 1 y n 0",
    ),
];

fn holder_of(word: &str) -> Holder {
    if let Some(number) = word.strip_prefix('f') {
        return Holder::Frame(u64::from(number_in(number)));
    }
    if let Some(number) = word.strip_prefix('o') {
        return Holder::Object(number_in(number));
    }
    Holder::Root(number_in(word.trim_start_matches('r')))
}

/// A call about a pair and its holder.
fn on_holder(
    rt: &impl Abort,
    objects: &mut Objects,
    what: &str,
    holder: Holder,
    pair: (&Text, &Name),
    shown: &mut Shown,
) {
    let (oid, face) = pair;
    match what {
        "hold" => shown.yes(objects.hold(holder, oid, face).expect(rt, "no memory")),
        "let_go" => shown.yes_or_refused(objects.let_go(holder, oid, face).ok()),
        _ => shown.yes(objects.holds(holder, oid, face)),
    }
}

/// A call about a pair.
fn on_pair(
    registry: &Registry,
    objects: &mut Objects,
    what: &str,
    pair: (&Text, &Name),
    shown: &mut Shown,
)
    requires { IsSound registry.now }
{
    let (oid, face) = pair;
    match what {
        "holders" => shown.number(objects.holders(oid, face)),
        "any_holds" => shown.yes(objects.any_holds(oid)),
        "sent" => shown.done(objects.sent_one(oid, face)),
        "released" => shown.yes_or_refused(objects.released_one(oid, face).ok()),
        "has_stub" => shown.yes(objects.has_stub(oid, face)),
        "any_stub" => shown.yes(objects.any_stub(oid)),
        _ => shown.yes(objects.is_called_out(registry, oid, face)),
    }
}

/// A call about a holder and a reference.
fn on_reference(
    objects: &mut Objects,
    what: &str,
    holder: Holder,
    reference: &Reference,
    shown: &mut Shown,
) {
    match what {
        "gain" => shown.done(objects.gain(holder, reference)),
        _ => objects.lose(holder, reference),
    }
}

/// A call about a holder and references.
fn on_references(
    rt: &impl Abort,
    alloc: Global,
    objects: &mut Objects,
    what: &str,
    holder: Holder,
    words: &str,
    shown: &mut Shown,
) {
    let mut references = Vec::new(alloc);
    for word in words.split(' ') {
        references.push(reference_of(rt, alloc, word)).ok();
    }
    match what {
        "gain_all" => shown.done(objects.gain_all(holder, &references)),
        _ => objects.lose_all(holder, &references),
    }
}

fn show_object(objects: &Objects, number: u32, shown: &mut Shown) {
    match objects.object(number) {
        Some((behaviour, fields)) => {
            shown.number(u64::from(behaviour));
            show_values(shown, fields);
        }
        None => shown.word("!"),
    }
}

/// A call about the object of a number; `make` has that of its behaviour.
fn on_number(
    rt: &impl Abort,
    alloc: Global,
    objects: &mut Objects,
    what: &str,
    number: u32,
    words: &str,
    shown: &mut Shown,
) {
    match what {
        "make" => {
            let made = objects.make(number, values_of(rt, alloc, words));
            shown.number(u64::from(made.expect(rt, "no memory")));
        }
        "set" => show_values(
            shown,
            &objects.set_fields(number, values_of(rt, alloc, words)),
        ),
        "remove" => show_values(shown, &objects.remove(number)),
        _ => show_object(objects, number, shown),
    }
}

/// A call about all objects, or about an identity.
fn on_all(objects: &mut Objects, what: &str, oid: &str, shown: &mut Shown) {
    match what {
        "lowest" => shown.number_or_none(objects.lowest().map(u64::from)),
        "named" => shown.number_or_none(objects.number_named(oid).map(u64::from)),
        "made" => shown.number(u64::from(objects.objects_made())),
        "living" => shown.number(objects.living()),
        "stubs" => shown.number(objects.stubs()),
        "unmake" => match objects.unmake() {
            Some(fields) => show_values(shown, &fields),
            None => shown.word("!"),
        },
        "end" => objects.end(),
        _ => shown.word("?"),
    }
}

fn step(
    rt: &impl Abort,
    alloc: Global,
    registry: &Registry,
    objects: &mut Objects,
    call: &str,
    shown: &mut Shown,
)
    requires { IsSound registry.now }
{
    let (what, words) = cut(call, ' ');
    let (first, rest) = cut(words, ' ');
    match what {
        "hold" | "let_go" | "holds" => {
            let (oid, face) = cut(rest, '/');
            let oid = text_of(rt, alloc, oid);
            let face = name_of(rt, alloc, face);
            on_holder(rt, objects, what, holder_of(first), (&oid, &face), shown);
        }
        "holders" | "any_holds" | "sent" | "released" | "has_stub" | "any_stub" | "called" => {
            let (oid, face) = cut(words, '/');
            let oid = text_of(rt, alloc, oid);
            let face = name_of(rt, alloc, face);
            on_pair(registry, objects, what, (&oid, &face), shown);
        }
        "gain" | "lose" => {
            let reference = reference_of(rt, alloc, rest);
            on_reference(objects, what, holder_of(first), &reference, shown);
        }
        "gain_all" | "lose_all" => {
            on_references(rt, alloc, objects, what, holder_of(first), rest, shown);
        }
        "make" | "set" | "remove" | "object" => {
            on_number(rt, alloc, objects, what, number_in(first), rest, shown);
        }
        _ => on_all(objects, what, words, shown),
    }
}

/// No objects, of which the first that is made never goes.
fn no_objects(rt: &impl Abort, alloc: Global) -> Objects {
    let tag = Tag::read(alloc, "S").expect(rt, "no tag");
    Objects::new(alloc, &tag, 1).expect(rt, "no memory")
}

/// Sees what the calls of a row answer.
fn see(rt: &impl Abort, alloc: Global, registry: &Registry, calls: &str, wanted: &str)
    requires { IsSound registry.now }
{
    let mut objects = no_objects(rt, alloc);
    let mut shown = Shown::new(alloc);
    for call in calls.split(',') {
        step(rt, alloc, registry, &mut objects, call, &mut shown);
    }
    shown.see(rt, calls, wanted);
}

#[test]
fn calls_answer_as_the_rows_say(rt: HostRuntime) {
    let registry = registry(&rt, rt.alloc());
    for (calls, wanted) in ROWS {
        see(&rt, rt.alloc(), &registry, calls, wanted);
    }
}

/// So many objects go one after the other, the lowest first, until the first alone is left.
fn go_in_order(rt: &impl Abort, alloc: Global, objects: &mut Objects, count: u32) {
    for _ in 0..count {
        assert!(rt; objects.make(0, Vec::new(alloc)).is_ok());
    }
    for number in 1..count {
        assert!(rt; objects.lowest() == Some(number + 1));
        drop(objects.remove(number + 1));
    }
    assert!(rt; objects.lowest().is_none());
    assert!(rt; objects.living() == 1);
}

#[test]
fn many_objects_go_lowest_first(rt: HostRuntime) {
    let mut objects = no_objects(&rt, rt.alloc());
    go_in_order(&rt, rt.alloc(), &mut objects, 2000);
}
