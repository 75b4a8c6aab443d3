//! The setting of an end with the tag `S`, by rows: the lines of services and singletons of its plan, questions, and their answers.
//!
//! The questions are the calls by short names: `release`, `root 1`, `object 7` and `own S;1` of names, `told S;9/n` of an identity,
//! `home V W` of values and `answer V W` of an answer with the value `V` and with `W` that came out, `raised V` of an exception, `first`,
//! `offers`, `exported echo`, `supports 0 demo.XNode` and `base demo.XBase demo.XNode`. An answer is `y`, `n`, a number or a name, and
//! none `-`.
ghost use Rattle.uno_model.specs.Sound.{IsSound};

use crate::registries::{plan, registry};
use crate::shown::{Shown, cut, number_in};
use crate::texts::{name_of, text_of};
use crate::values::{any_of, put_reference, show_answer, show_values, value_of, values_of};
use bridge_setting::{
    Setting, exported, first_objects, has_offers, home_answer, home_each, is_base_of, supports,
    told,
};
use std::alloc::Global;
use std::process::Abort;
use uno_types::{Registry, Tag, Tid};
use urp_message::Answer;

const NOTHING: &str = "";

const ROWS: &[(&str, &str, &str)] = &[
    (NOTHING, "tag,release", " S S;0"),
    (NOTHING, "root 0,root 1,root 2,root 3", " - S;1 S;2 -"),
    (
        NOTHING,
        "object 0,object 7,object 4294967295",
        " S;0 S;7 S;4294967295",
    ),
    (
        NOTHING,
        "own S;1,own S;,own S,own T;1,own SS;1,own s;1,own",
        " y y n n n n n",
    ),
    (
        NOTHING,
        "told S;9/n,told T;9/n,told S/n",
        " own:S;9/n peer:T;9/n peer:S/n",
    ),
    (
        NOTHING,
        "home own:S;1/n peer:S;2/n own:C;1/n peer:C;1/n null:/n 5,home",
        " own:S;1/n own:S;2/n peer:C;1/n peer:C;1/n null 5 -",
    ),
    (
        NOTHING,
        "home <peer:S;1/n [peer:S;1/n&<own:C;1/n {5&<peer:S;2/n",
        " <own:S;1/n [own:S;1/n&<peer:C;1/n {5&<own:S;2/n",
    ),
    (
        NOTHING,
        "answer peer:S;1/n 5 own:C;2/n,raised peer:S;1/n",
        " own:S;1/n 5 peer:C;2/n <own:S;1/n",
    ),
    (
        NOTHING,
        "offers,first,exported echo,exported node,exported other,exported ServiceManager",
        " n 3 1 2 - -",
    ),
    (
        "service demo.Nodes Node\n",
        "offers,first,exported echo,exported ServiceManager",
        " y 4 1 4",
    ),
    (
        "singleton demo.one Node\n",
        "offers,first,exported ServiceManager",
        " y 5 4",
    ),
    (
        "service demo.Nodes Node\nsingleton demo.one Node\nsingleton demo.two Node\n",
        "offers,first,exported ServiceManager",
        " y 6 4",
    ),
    (
        NOTHING,
        "supports 0 demo.XNode,supports 0 demo.XBase,supports 0 com.sun.star.uno.XInterface,supports 0 demo.XOther",
        " y y y n",
    ),
    (
        NOTHING,
        "supports 1 demo.XOther,supports 1 demo.XBase,supports 1 demo.XNode,supports 2 com.sun.star.uno.XInterface",
        " y y n n",
    ),
    (
        NOTHING,
        "supports 256 com.sun.star.lang.XMultiServiceFactory,supports 256 com.sun.star.uno.XInterface,supports 256 demo.XNode",
        " y y n",
    ),
    (
        NOTHING,
        "base demo.XBase demo.XNode,base demo.XNode demo.XNode,base demo.XNode demo.XBase,base demo.XOther demo.XNode",
        " y y n n",
    ),
];

fn show_tid(shown: &mut Shown, tid: Option<&Tid>) {
    match tid {
        Some(tid) => shown.word(str::from_utf8(tid.as_bytes()).unwrap_or("?")),
        None => shown.word("-"),
    }
}

/// A question about names or objects.
fn of_names(
    rt: &impl Abort,
    alloc: Global,
    setting: &Setting,
    what: &str,
    word: &str,
    shown: &mut Shown,
) {
    match what {
        "tag" => shown.word(setting.names.tag().as_str()),
        "release" => show_tid(shown, Some(setting.release_tid())),
        "root" => show_tid(shown, setting.root_tid(number_in(word))),
        "object" => {
            let oid = setting.own_oid(alloc, number_in(word));
            shown.word(oid.expect(rt, "no memory").as_str());
        }
        "own" => shown.yes(setting.is_own(word.as_bytes())),
        "first" => shown.number(first_objects(&setting.plan)),
        "offers" => shown.yes(has_offers(&setting.plan)),
        "exported" => shown.number_or_none(exported(&setting.plan, word)),
        _ => shown.word("?"),
    }
}

fn of_identity(rt: &impl Abort, alloc: Global, setting: &Setting, word: &str, shown: &mut Shown) {
    let (oid, face) = cut(word, '/');
    let oid = text_of(rt, alloc, oid);
    let face = name_of(rt, alloc, face);
    shown.put(" ");
    put_reference(shown, &told(setting, oid, face));
}

/// The answer that came: the any that was raised, or a value and what came out with it.
fn answer_of(rt: &impl Abort, alloc: Global, what: &str, words: &str) -> Answer {
    if what == "raised" {
        return Answer::Raised(any_of(rt, alloc, words));
    }
    let (word, words) = cut(words, ' ');
    Answer::Returned {
        value: value_of(rt, alloc, word),
        outs: values_of(rt, alloc, words),
    }
}

/// A question about interfaces.
fn of_interfaces(registry: &Registry, setting: &Setting, what: &str, words: &str, shown: &mut Shown)
    requires { IsSound registry.now }
{
    let (first, wanted) = cut(words, ' ');
    if what == "base" {
        return shown.yes(is_base_of(registry, first, wanted));
    }
    shown.yes(supports(registry, &setting.plan, number_in(first), wanted));
}

fn step(rt: &impl Abort, alloc: Global, setting: &Setting, question: &str, shown: &mut Shown) {
    let (what, words) = cut(question, ' ');
    match what {
        "told" => of_identity(rt, alloc, setting, words, shown),
        "home" => show_values(shown, &home_each(setting, values_of(rt, alloc, words))),
        "answer" | "raised" => {
            let answer = answer_of(rt, alloc, what, words);
            show_answer(shown, &home_answer(setting, answer));
        }
        "supports" | "base" => match setting.registry.is_sound() {
            Ok(true) => of_interfaces(&setting.registry, setting, what, words, shown),
            _ => shown.word("unsound"),
        },
        _ => of_names(rt, alloc, setting, what, words, shown),
    }
}

fn setting_with(rt: &impl Abort, alloc: Global, offers: &str) -> Setting {
    let registry = registry(rt, alloc);
    let plan = plan(rt, alloc, &registry, offers);
    let tag = Tag::read(alloc, "S").expect(rt, "no tag");
    Setting::new(alloc, registry, plan, tag).expect(rt, "no memory")
}

/// Sees what the questions of a row are answered.
fn see(rt: &impl Abort, alloc: Global, offers: &str, questions: &str, wanted: &str) {
    let setting = setting_with(rt, alloc, offers);
    let mut shown = Shown::new(alloc);
    for question in questions.split(',') {
        step(rt, alloc, &setting, question, &mut shown);
    }
    shown.see(rt, questions, wanted);
}

#[test]
fn questions_are_answered_as_the_rows_say(rt: HostRuntime) {
    for (offers, questions, wanted) in ROWS {
        see(&rt, rt.alloc(), offers, questions, wanted);
    }
}
