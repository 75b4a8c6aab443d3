//! Roots of a plan, step by step, and the lines that their statements give.
ghost use Rattle.std.specs.Prelude.{◌≡◌, [], true};
ghost use Rattle.bridge_core.specs.Standing.{IsRunAt};
ghost use Rattle.behaviour.specs.Roots.{run_of};
ghost use Rattle.plan_model.specs.Plans.{manager_name};
ghost use Rattle.plan_model.specs.Roots.{opening_run};

use crate::endpoint::beginning::is_root_of;
use crate::endpoint::bytes::bytes_of;
use crate::endpoint::calls::run;
use crate::endpoint::ends::end_of;
use crate::shown::{Shown, see};
use behaviour::RootRun;
use bridge_core::{RootMoved, root_step};
use bridge_endpoint::{Endpoint, Fed};
use std::alloc::Global;
use std::process::Abort;
use uno_types::Text;

/// More steps than a root of these tests has.
const MANY: u32 = 1000;

/// A root that asks the peer for its node and calls it, and whose other statements are done here. It has two behaviours; `S;1` is exported.
const TALKS: &str = "unoplan 1\n\
    behaviour Node demo.XNode\n\
    method demo.XNode relay\nwhen $depth == 0 return 0\n\
    call r long = $back.relay($self,sub($depth,1))\nreturn add($r,1)\nend\n\
    method demo.XNode turn\nreturn $n\nend\n\
    method demo.XNode check\nwhen $a == 0 return\nraise demo.Refused {\"no\",null,7}\nend\nend\n\
    export \"node\" Node\n\
    thread\n\
    ask n demo.XNode = \"node\"\n\
    call r long = $n.relay($n,6)\n\
    call $n.check(1)\n\
    new o demo.XNode = Node\n\
    call s long = $o.relay($o,3)\n\
    call t com.sun.star.uno.XInterface = $o.turn($o)\n\
    same $o $t\n\
    same $o $n\n\
    call $o.check(1)\n\
    query q demo.XNode = $t\n\
    query e demo.XEcho = $t\n\
    call $e.twice(1)\n\
    drop $t\n\
    ask m demo.XNode = \"other\"\n\
    call u long = $m.relay($n,1)\n\
    dispose\n\
    call $n.check(1)\n\
    new p demo.XNode = Node\n\
    same $o $n\n\
    end\n";

/// What the peer answers, one block at a time.
const ANSWERS: &[&str] = &[
    "0000001B 00000001 88 03 'S;1 0000 96 0000 0A 'demo.XNode 03 'C;1 0000",
    "00000005 00000001 80 00000006",
    "0000001B 00000001 A0 93 0001 0C 'demo.Refused 02 'no 00 FFFF 00000007",
    "00000007 00000001 80 16 0000 00 FFFF",
];

const LINES: &[&str] = &[
    "1.1 returned @\"C;1\"<demo.XNode>",
    "1.2 returned 6",
    "1.3 raised (demo.Refused){\"no\",null,7}",
    "1.4 returned @\"S;2\"<demo.XNode>",
    "1.5 returned 3",
    "1.6 returned @\"S;2\"<demo.XNode>",
    "1.7 same",
    "1.8 different",
    "1.9 raised (demo.Refused){\"no\",null,7}",
    "1.10 returned @\"S;2\"<demo.XNode>",
    "1.11 returned null",
    "1.12 null",
    "1.14 returned null",
    "1.15 null",
    "1.17 gone",
    "1.18 gone",
    "1.19 different",
];

/// Does what a root can do, until it waits or has finished.
fn step_all(end: &mut Endpoint, root: &mut RootRun) -> RootMoved
    requires { IsRunAt end.old (run_of root.old) }
    ensures { IsRunAt end.new (run_of root.new) }
{
    for _ in 0..MANY {
        match root_step(end, root) {
            RootMoved::Moved => {}
            over => return over,
        }
    }
    RootMoved::Moved
}

/// Steps the root and carries out what is ready, until neither can be done.
fn go_on(rt: &impl Abort, alloc: Global, end: &mut Endpoint, root: &mut RootRun) -> RootMoved
    requires { IsRunAt end.old (run_of root.old) }
    ensures { IsRunAt end.new (run_of root.new) }
{
    for _ in 0..MANY {
        let over = step_all(end, root);
        if run(rt, alloc, end) == 0 {
            return over;
        }
    }
    RootMoved::Moved
}

/// The same behind a piece of input.
fn hear(
    rt: &impl Abort,
    alloc: Global,
    end: &mut Endpoint,
    root: &mut RootRun,
    piece: &str,
) -> RootMoved
    requires { IsRunAt end.old (run_of root.old) }
    ensures { IsRunAt end.new (run_of root.new) }
{
    let bytes = bytes_of(alloc, piece);
    let fed = end.feed(&bytes);
    drop(bytes);
    assert!(rt; matches!(fed, Fed::Taken(_)));
    go_on(rt, alloc, end, root)
}

/// How the last step of the root ends behind these pieces of input.
fn hear_all(rt: &impl Abort, alloc: Global, root: &mut RootRun, pieces: &[&str]) -> RootMoved
    requires { run_of root.old ≡ opening_run root.old.root manager_name }
{
    let mut end = end_of(rt, alloc, TALKS);
    assert!(rt; is_first(&end, root));
    let mut over = go_on(rt, alloc, &mut end, root);
    for piece in pieces {
        over = hear(rt, alloc, &mut end, root, piece);
    }
    end.close();
    over
}

/// Whether a root at its beginning is one of the plan of an end at which nothing has happened.
fn is_first(end: &Endpoint, root: &RootRun) -> bool
    requires new { end.now.entries ≡ [] }
    requires opening { run_of root.now ≡ opening_run root.now.root manager_name }
    ensures { result ≡ true → IsRunAt end.now (run_of root.now) }
{
    is_root_of(end, root.root)
}

/// Puts lines, and how the last step ended.
fn put_lines(shown: &mut Shown, lines: &[&str], over: RootMoved) {
    for line in lines {
        shown.put(line);
        shown.put("\n");
    }
    shown.tell(&over);
}

/// The same of the lines of the root behind these pieces of input.
fn put_found(rt: &impl Abort, alloc: Global, shown: &mut Shown, pieces: &[&str]) {
    let instance = Text::of(alloc, "ServiceManager").expect(rt, "no memory");
    let mut root = RootRun::new(alloc, 1, instance);
    let over = hear_all(rt, alloc, &mut root, pieces);
    for line in &root.lines {
        shown.put(line.as_str());
        shown.put("\n");
    }
    shown.tell(&over);
}

fn see_lines(rt: &impl Abort, alloc: Global, pieces: &[&str], lines: &[&str], over: RootMoved) {
    let mut shown = Shown::new(alloc);
    put_found(rt, alloc, &mut shown, pieces);
    let mut wanted = Shown::new(alloc);
    put_lines(&mut wanted, lines, over);
    see(rt, &shown, &wanted, "the lines", "a root");
}

#[test]
fn a_root_tells_in_its_lines_what_became_of_each_statement(rt: HostRuntime) {
    see_lines(&rt, rt.alloc(), ANSWERS, LINES, RootMoved::Finished);
}

#[test]
fn a_root_waits_for_the_peer_without_a_line(rt: HostRuntime) {
    let (first, line) = (&ANSWERS[..1], &LINES[..1]);
    see_lines(&rt, rt.alloc(), &[], &[], RootMoved::Waiting);
    see_lines(&rt, rt.alloc(), first, line, RootMoved::Waiting);
}
